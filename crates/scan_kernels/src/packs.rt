//! Items kept by a flag, block by block, through a buffer that stays near.

ghost use Rattle.std.specs.Prelude.{◌≡◌, ◌+◌, ◌<◌, ◌≤◌, length, take, drop, IfOk};
ghost use Rattle.segment_desc.specs.Appended.{IsExact};
ghost use Rattle.scan_kernels.specs.Packed.{number_set, packed};

use crate::in_order::end_of;
use crate::set_flags::number_set;
use crate::source::Source;
use segment_desc::append_reserved;
use std::alloc::AllocError;

/// Items are packed so many at a time.
pub const PACK_BLOCK: usize = 128;

/// The items whose flag is set, in order: a pass that counts the flags, and one into a vector of the final size.
#[inline(always)]
pub fn packed<T: Copy + Send + Sync>(
    alloc: impl Source<T>,
    items: &[T],
    flags: &[bool],
    buffer: &mut [T],
) -> Result<Vec<T>, AllocError>
    requires same_length { length flags.now ≡ length items.now }
    requires room { length buffer.old ≡ PACK_BLOCK }
    ensures items { IfOk result (λ v. v.items ≡ packed flags.now items.now) }
    ensures exact { IfOk result (λ v. IsExact v) }
{
    let mut made = alloc.vector(number_set(flags))?;
    let mut at = 0;
    while at < items.len() {
        let end = end_of(at, PACK_BLOCK, items.len());
        let many = compress(&items[at..end], &flags[at..end], buffer);
        append_reserved(&buffer[..many], &mut made);
        at = end;
    }
    Ok(made)
}

/// The items whose flag is set, where it is known how many flags are set.
#[derive(Copy)]
pub struct PackedWhole<'a, T> {
    pub items: &'a [T],
    pub flags: &'a [bool],
    /// How many flags are set.
    pub total: usize,
}

// By hand, since a derived clone goes field by field, which takes the prover as long as a kernel.
impl<T: Copy> Clone for PackedWhole<'_, T> {
    fn clone(&self) -> Result<Self, AllocError> {
        Ok(*self)
    }
}

impl<T: Copy> PackedWhole<'_, T> {
    /// How many items there are.
    pub fn count(self) -> usize
        requires same_length { length self.flags.now ≡ length self.items.now }
        requires total { self.total ≡ number_set self.flags.now }
        ensures { result ≡ length (packed self.entry.flags.now self.entry.items.now) }
    {
        self.total
    }

    /// Writes the items from a place on, as many as the part has.
    pub fn write(self, start: usize, part: &mut [T])
        requires same_length { length self.flags.now ≡ length self.items.now }
        requires within { start + length part.old ≤ length (packed self.flags.now self.items.now) }
        ensures { part.new ≡ take (length part.old) (drop start (packed self.entry.flags.now self.entry.items.now)) }
    {
        write_packed(self.items, self.flags, start, part);
    }
}

/// Writes the items whose flag is set behind so many of them, as many as the part has.
#[inline(always)]
pub(crate) fn write_packed<T: Copy>(items: &[T], flags: &[bool], behind: usize, part: &mut [T])
    requires same_length { length flags.now ≡ length items.now }
    requires within { behind + length part.old ≤ number_set flags.now }
    ensures { part.new ≡ take (length part.old) (drop behind (packed flags.now items.now)) }
{
    let at = place_behind(flags, behind);
    let (_, items) = items.split_at(at);
    let (_, flags) = flags.split_at(at);
    pack_over(items, flags, part);
}

/// The first place behind so many flags that are set.
fn place_behind(flags: &[bool], number: usize) -> usize
    requires { number ≤ number_set flags.now }
    ensures within { result ≤ length flags.now }
    ensures number { number_set (take result flags.now) ≡ number }
{
    let mut left = number;
    let mut at = 0;
    while left > 0 {
        left -= usize::from(flags[at]);
        at += 1;
    }
    at
}

/// Writes the first items whose flag is set over a part that has room for no more than all: block by block where a block has room,
/// and then item by item.
#[inline(always)]
fn pack_over<T: Copy>(items: &[T], flags: &[bool], part: &mut [T])
    requires same_length { length flags.now ≡ length items.now }
    requires within { length part.old ≤ number_set flags.now }
    ensures { part.new ≡ take (length part.old) (packed flags.now items.now) }
{
    let (at, done) = pack_blocks(items, flags, part);
    let (_, items) = items.split_at(at);
    let (_, flags) = flags.split_at(at);
    pack_rest(items, flags, &mut part[done..]);
}

/// Packs blocks over the front of a part, as long as one more has room: gives how many items it went through, and how many it wrote.
#[inline(always)]
fn pack_blocks<T: Copy>(items: &[T], flags: &[bool], part: &mut [T]) -> (usize, usize)
    requires same_length { length flags.now ≡ length items.now }
    requires within { length part.old ≤ number_set flags.now }
    ensures through { result.0 ≤ length items.now }
    ensures written { result.1 ≤ length part.old }
    ensures number { result.1 ≡ number_set (take result.0 flags.now) }
    ensures pack { take result.1 part.new ≡ packed (take result.0 flags.now) (take result.0 items.now) }
{
    let mut done = 0;
    let mut at = 0;
    while part.len() - done > PACK_BLOCK {
        let end = end_of(at, PACK_BLOCK, items.len());
        done += compress(&items[at..end], &flags[at..end], &mut part[done..]);
        at = end;
    }
    (at, done)
}

#[inline(always)]
fn pack_rest<T: Copy>(items: &[T], flags: &[bool], part: &mut [T])
    requires same_length { length flags.now ≡ length items.now }
    requires within { length part.old ≤ number_set flags.now }
    ensures { part.new ≡ take (length part.old) (packed flags.now items.now) }
{
    let mut done = 0;
    let mut at = 0;
    while done < part.len() {
        if flags[at] {
            part[done] = items[at];
            done += 1;
        }
        at += 1;
    }
}

// Each item is written, and the next one over it unless its flag is set, so that the loop has no branch.
#[inline(always)]
fn compress<T: Copy>(items: &[T], flags: &[bool], buffer: &mut [T]) -> usize
    requires same_length { length flags.now ≡ length items.now }
    requires room { length items.now ≤ length buffer.old }
    ensures kept { take result buffer.new ≡ packed flags.now items.now }
    ensures few { result ≤ length items.now }
{
    let mut many = 0;
    for i in 0..items.len() {
        buffer[many] = items[i];
        many += usize::from(flags[i]);
    }
    many
}
