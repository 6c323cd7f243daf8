//! How many flags are set: of a list, and of each of its segments.

ghost use Rattle.std.specs.Prelude.{◌≡◌, ◌+◌, ◌<◌, ◌≤◌, ◌^◌, length, take, drop, sum, IfOk};
ghost use Rattle.segment_desc.specs.Appended.{IsExact};
ghost use Rattle.scan_kernels.specs.Lists.{ints_of};
ghost use Rattle.scan_kernels.specs.Marked.{all_set};
ghost use Rattle.scan_kernels.specs.Packed.{number_set, numbers_set};

use crate::reductions::total;
use crate::rows::IntRow;
use crate::source::Source;
use std::alloc::AllocError;

/// Flags are counted by a byte, so many at a time.
const BLOCK: usize = 128;

/// How many flags each segment has set. The segments have all the flags together.
#[derive(Clone, Copy)]
pub struct SetNumbers<'a> {
    pub flags: &'a [bool],
    pub lengths: &'a [usize],
}

/// How many segments there are.
#[tactic(auto, using(crate::proofs::SetFlags::numbers_long))]
pub(crate) fn count_set_numbers(list: SetNumbers<'_>) -> usize
    ensures { result ≡ length (ints_of (IntRow.SetNumbers list.entry)) }
{
    list.lengths.len()
}

/// Writes how many flags are set in the segments from one on, as many as the part has. The flags of the part's first segment lie
/// behind those of the segments before it.
#[tactic(auto, using(crate::proofs::SetFlags::numbers_long))]
pub(crate) fn write_set_numbers(list: SetNumbers<'_>, start: usize, part: &mut [i64])
    requires total { sum list.lengths.now ≡ length list.flags.now }
    requires within { start + length part.old ≤ length (ints_of (IntRow.SetNumbers list)) }
    ensures { part.new ≡ take (length part.old) (drop start (ints_of (IntRow.SetNumbers list.entry))) }
{
    let (before, behind) = list.lengths.split_at(start);
    let (_, rest) = list.flags.split_at(total(before));
    let (own, _) = behind.split_at(part.len());
    write_each_number(rest, own, part);
}

/// How many flags each segment has set, in one pass.
pub fn set_numbers(
    alloc: impl Source<i64>,
    flags: &[bool],
    lengths: &[usize],
) -> Result<Vec<i64>, AllocError>
    requires { sum lengths.now ≡ length flags.now }
    ensures items { IfOk result (λ v. v.items ≡ numbers_set lengths.now flags.now) }
    ensures exact { IfOk result (λ v. IsExact v) }
{
    let mut made = alloc.ready(0, lengths.len())?;
    write_each_number(flags, lengths, &mut made);
    Ok(made)
}

// Of the first segments of the flags.
fn write_each_number(flags: &[bool], lengths: &[usize], part: &mut [i64])
    requires within { sum lengths.now ≤ length flags.now }
    requires small { length flags.now < 2 ^ 63 }
    requires long { length part.old ≡ length lengths.now }
    ensures { part.new ≡ numbers_set lengths.now flags.now }
{
    let mut rest = flags;
    for i in 0..part.len() {
        let (segment, behind) = rest.split_at(lengths[i]);
        part[i] = number_set(segment) as i64;
        rest = behind;
    }
}

/// How many flags are set. Sums of few bits go through more flags at a time.
pub fn number_set(flags: &[bool]) -> usize
    ensures { result ≡ number_set flags.now }
{
    let mut number = 0;
    let mut rest = flags;
    while rest.len() > BLOCK {
        let (block, later) = rest.split_at(BLOCK);
        number += usize::from(number_of_block(block));
        rest = later;
    }
    number + usize::from(number_of_block(rest))
}

/// Whether all flags are set.
#[tactic(auto, using(crate::proofs::SetFlags::all_set_number))]
pub(crate) fn all_set(flags: &[bool]) -> bool
    ensures { result ≡ all_set flags.now }
{
    number_set(flags) == flags.len()
}

#[inline(always)]
fn number_of_block(flags: &[bool]) -> u8
    requires { length flags.now ≤ 128 }
    ensures { result ≡ number_set flags.now }
{
    let mut number = 0;
    for flag in flags {
        number += u8::from(*flag);
    }
    number
}
