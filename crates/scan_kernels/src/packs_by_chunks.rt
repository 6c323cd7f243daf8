//! Packs by chunks: how many flags each chunk of the operands has set, and then each part of the result from the chunk on in which
//! it begins (Blelloch 1990). What is known of the chunks lies on the stack.

ghost use Rattle.std.specs.Prelude.{◌≡◌, ℕ, ◌*◌, ◌<◌, ◌≤◌, length, map, sum, take, unsigned_abs, IfOk};
ghost use Rattle.std.specs.List.{zip};
ghost use Rattle.segment_desc.specs.Appended.{IsExact};
ghost use Rattle.segment_desc.specs.Cut.{cut};
ghost use Rattle.scan_kernels.specs.Packed.{each_number, number_set, numbers_set, packed};

use crate::chunks::{MOST_CHUNKS, bools_by_chunks, ints_by_chunks, size_of_few};
use crate::execution::Execution;
use crate::packs::write_packed;
use crate::reductions::total;
use crate::reductions_by_chunks::cut_evenly;
use crate::rows::{BoolRow, IntRow};
use crate::segmentwise::{Segmentwise, segment_at};
use crate::set_flags::SetNumbers;
use crate::source::Source;
use std::alloc::AllocError;

/// The items whose flag is set, where it is known how many flags are set in each segment that the operands are cut into.
#[derive(Copy)]
pub struct Packed<'a, T> {
    pub items: &'a [T],
    pub flags: &'a [bool],
    pub lengths: &'a [usize],
    pub numbers: &'a [usize],
    /// How many flags are set.
    pub total: usize,
}

// By hand, since a derived clone goes field by field, which takes the prover as long as a kernel.
impl<T: Copy> Clone for Packed<'_, T> {
    fn clone(&self) -> Result<Self, AllocError> {
        Ok(*self)
    }
}

impl<T: Copy> Segmentwise<T> for Packed<'_, T> {
    ghost Fits = { λ l. (length l.flags.now ≡ length l.items.now) × (sum l.lengths.now ≡ length l.flags.now) × (l.numbers.now ≡ each_number l.lengths.now l.flags.now) × (l.total ≡ number_set l.flags.now) };

    ghost items = { λ l. packed l.flags.now l.items.now };

    ghost segments = { λ l. map (λ p. packed p.0 p.1) (zip (cut l.lengths.now l.flags.now) (cut l.lengths.now l.items.now)) };

    ghost origin_of = { λ l number. sum (take number l.lengths.now) };

    #[inline(always)]
    fn count(&self) -> usize {
        self.total
    }

    fn joins(&self) {}

    #[inline(always)]
    fn lengths(&self) -> &[usize] {
        self.numbers
    }

    #[inline(always)]
    fn origin(&self, number: usize) -> usize {
        total(&self.lengths[..number])
    }

    #[inline(always)]
    fn next(&self, number: usize, origin: usize) -> usize {
        origin + self.lengths[number]
    }

    #[inline(always)]
    fn write(&self, number: usize, origin: usize, _begin: usize, offset: usize, part: &mut [T]) {
        let count = self.lengths[number];
        let items = segment_at(self.items, origin, count);
        let flags = segment_at(self.flags, origin, count);
        write_packed(items, flags, offset, part);
    }
}

/// The integers whose flag is set, in chunks of a size.
pub fn packed_ints_by_chunks(
    execution: &impl Execution,
    source: impl Source<i64>,
    items: &[i64],
    flags: &[bool],
    size: usize,
) -> Result<Vec<i64>, AllocError>
    requires size { 0 < size }
    requires same_length { length flags.now ≡ length items.now }
    ensures items { IfOk result (λ v. v.items ≡ packed flags.now items.now) }
    ensures exact { IfOk result (λ v. IsExact v) }
{
    let pieces = cut_pieces(execution, flags, size);
    let row = IntRow::Packed(Packed {
        items,
        flags,
        lengths: &pieces.lengths[..pieces.count],
        numbers: &pieces.numbers[..pieces.count],
        total: pieces.total,
    });
    let size = size_of_packed(flags.len(), pieces.total, size);
    ints_by_chunks(execution, source, row, size)
}

/// The truth values whose flag is set, in chunks of a size.
pub fn packed_bools_by_chunks(
    execution: &impl Execution,
    source: impl Source<bool>,
    items: &[bool],
    flags: &[bool],
    size: usize,
) -> Result<Vec<bool>, AllocError>
    requires size { 0 < size }
    requires same_length { length flags.now ≡ length items.now }
    ensures items { IfOk result (λ v. v.items ≡ packed flags.now items.now) }
    ensures exact { IfOk result (λ v. IsExact v) }
{
    let pieces = cut_pieces(execution, flags, size);
    let row = BoolRow::Packed(Packed {
        items,
        flags,
        lengths: &pieces.lengths[..pieces.count],
        numbers: &pieces.numbers[..pieces.count],
        total: pieces.total,
    });
    let size = size_of_packed(flags.len(), pieces.total, size);
    bools_by_chunks(execution, source, row, size)
}

/// The size of as many chunks of what is packed as there are of the operands, of so many items.
fn size_of_packed(count: usize, packed: usize, size: usize) -> usize
    requires { 0 < size }
    ensures { 0 < result }
{
    let chunks = count.div_ceil(size).max(1);
    packed.div_ceil(chunks).max(1)
}

/// The pieces that flags are cut into, and how many flags each has set.
#[derive(Clone, Copy)]
struct Pieces {
    lengths: [usize; MOST_CHUNKS],
    numbers: [usize; MOST_CHUNKS],
    /// How many pieces there are.
    count: usize,
    /// How many flags are set.
    total: usize,
}

/// Cuts flags into pieces of which there may be as many as lie on the stack, and counts them in chunks of a size.
fn cut_pieces(execution: &impl Execution, flags: &[bool], size: usize) -> Pieces
    requires { 0 < size }
    ensures few { result.count ≤ MOST_CHUNKS }
    ensures cut { sum (take result.count result.lengths) ≡ length flags.now }
    ensures numbers { take result.count result.numbers ≡ each_number (take result.count result.lengths) flags.now }
    ensures total { result.total ≡ number_set flags.now }
{
    let piece = size_of_few(flags.len(), 1);
    let count = flags.len().div_ceil(piece);
    let mut lengths = [0; MOST_CHUNKS];
    let mut numbers = [0; MOST_CHUNKS];
    let mut set = [0; MOST_CHUNKS];
    let total = cut_and_number(
        execution,
        flags,
        piece,
        size,
        &mut lengths[..count],
        &mut set[..count],
        &mut numbers[..count],
    );
    Pieces {
        lengths,
        numbers,
        count,
        total,
    }
}

/// Cuts flags into pieces of a size, as many as there are lengths, counts how many flags are set in each, in chunks of a size, and all
/// together.
fn cut_and_number(
    execution: &impl Execution,
    flags: &[bool],
    piece: usize,
    size: usize,
    lengths: &mut [usize],
    set: &mut [i64],
    numbers: &mut [usize],
) -> usize
    requires piece { 0 < piece }
    requires size { 0 < size }
    requires begun { (k : ℕ) → k < length lengths.old → k * piece < length flags.now }
    requires all { length flags.now ≤ length lengths.old * piece }
    requires long { length set.old ≡ length lengths.old }
    requires also { length numbers.old ≡ length lengths.old }
    ensures cut { sum lengths.new ≡ length flags.now }
    ensures numbers { numbers.new ≡ each_number lengths.new flags.now }
    ensures total { result ≡ number_set flags.now }
{
    cut_evenly(flags.len(), piece, lengths);
    number_pieces(
        execution,
        flags,
        lengths,
        size.div_ceil(piece),
        set,
        numbers,
    )
}

/// Counts how many flags are set in each piece, so many pieces at once, and all together.
#[tactic(auto, using(crate::proofs::SetFlags::numbers_long))]
fn number_pieces(
    execution: &impl Execution,
    flags: &[bool],
    lengths: &[usize],
    at_once: usize,
    set: &mut [i64],
    numbers: &mut [usize],
) -> usize
    requires pieces { 0 < at_once }
    requires total { sum lengths.now ≡ length flags.now }
    requires long { length set.old ≡ length lengths.now }
    requires also { length numbers.old ≡ length lengths.now }
    ensures numbers { numbers.new ≡ each_number lengths.now flags.now }
    ensures total { result ≡ number_set flags.now }
{
    let row = IntRow::SetNumbers(SetNumbers { flags, lengths });
    execution.write_ints(row, at_once, set);
    take_sizes(set, numbers);
    total(numbers)
}

/// Writes the sizes of integers over numbers.
fn take_sizes(integers: &[i64], numbers: &mut [usize])
    requires { length numbers.old ≡ length integers.now }
    ensures { numbers.new ≡ map unsigned_abs integers.now }
{
    for k in 0..numbers.len() {
        numbers[k] = integers[k].unsigned_abs() as usize;
    }
}
