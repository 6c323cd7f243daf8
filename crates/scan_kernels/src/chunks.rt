//! Whether a kernel goes by chunks, and of how many items.

ghost use Rattle.std.specs.Prelude.{◌≡◌, ◌*◌, ◌<◌, ◌≤◌, true, is_some, IfOk, IfSome, IsTrue};
ghost use Rattle.segment_desc.specs.Appended.{IsExact};
ghost use Rattle.scan_kernels.specs.Lists.{FitBools, FitInts, bools_of, ints_of};
ghost use Rattle.scan_kernels.specs.Metering.{HeedsChunk, default_chunk};

use crate::chunks_marked::are_short;
use crate::execution::Execution;
use crate::meter::{DEFAULT_CHUNK, Meter};
use crate::rows::{BoolRow, IntRow, count_bools, count_ints};
use crate::source::Source;
use std::alloc::AllocError;

/// From how many items on it repays to start threads that write over memory that is in use already: found by `bench chunks` on
/// four processors, where the scan of one segment lost at half as many. What goes item by item gained half there.
pub(crate) const WRITES_PAY: usize = 524_288;

/// The size of the chunks in which a kernel makes so many items one by one, if it goes by chunks: where they pay, into memory that
/// is in use already, since into fresh memory one thread is as fast as many, most of whose time goes into getting its pages.
#[inline(always)]
pub(crate) fn write_size<T: Copy>(
    execution: &impl Execution,
    source: &impl Source<T>,
    meter: &Meter,
    count: usize,
) -> Option<usize>
    ensures size { IfSome result (λ size. 0 < size) }
    ensures heeded { HeedsChunk meter.now count result }
{
    let pays = count >= WRITES_PAY && source.is_ready(count);
    chunk_size(execution, meter, count, pays)
}

/// From how many items on it repays to start threads that fill memory that is in use already and read nothing: found by
/// `bench chunks` on four processors, where they were level at half as many.
const FILLS_PAY: usize = 1_000_000;

/// The size of the chunks in which a kernel fills a vector with so many items, if it goes by chunks.
#[inline(always)]
pub(crate) fn fill_size<T: Copy>(
    execution: &impl Execution,
    source: &impl Source<T>,
    meter: &Meter,
    count: usize,
) -> Option<usize>
    ensures size { IfSome result (λ size. 0 < size) }
    ensures heeded { HeedsChunk meter.now count result }
{
    let pays = count >= FILLS_PAY && source.is_ready(count);
    chunk_size(execution, meter, count, pays)
}

/// The size of the chunks in which a kernel makes so many items segment by segment, if it goes by chunks. There are few, since each
/// looks for the segment in which it begins.
#[inline(always)]
pub(crate) fn segmented_size<T: Copy>(
    execution: &impl Execution,
    source: &impl Source<T>,
    meter: &Meter,
    count: usize,
) -> Option<usize>
    ensures size { IfSome result (λ size. 0 < size) }
    ensures heeded { HeedsChunk meter.now count result }
    ensures few { IfSome result (λ size. count ≤ MOST_CHUNKS * size) }
{
    let pays = count >= WRITES_PAY && source.is_ready(count);
    few_size(execution, meter, count, pays)
}

/// From how many items on it repays a caller to look up its operands once more and write a result over one of them, in place of
/// into a vector that was kept: found by `bench over`.
const OVERWRITES_PAY: usize = 4_096;

/// Whether a kernel that goes item by item is faster where it writes its result over an operand: many items, which do not go by
/// chunks.
#[inline(always)]
pub fn overwrites_pay(
    execution: &impl Execution,
    source: &impl Source<i64>,
    meter: &Meter,
    count: usize,
) -> bool
    ensures { IsTrue result → OVERWRITES_PAY ≤ count }
{
    count >= OVERWRITES_PAY && write_size(execution, source, meter, count).is_none()
}

/// The size of the chunks of so many items, if they go by chunks: where they are more than one chunk has. A size that a caller made
/// smaller than `DEFAULT_CHUNK` is heeded always. Else there are no more chunks than processors, and only where they pay.
#[inline(always)]
pub(crate) fn chunk_size(
    execution: &impl Execution,
    meter: &Meter,
    count: usize,
    pays: bool,
) -> Option<usize>
    ensures size { IfSome result (λ size. 0 < size) }
    ensures heeded { HeedsChunk meter.now count result }
{
    if count <= meter.chunk() {
        return None;
    }
    size_of_many(execution, meter.chunk(), count, pays)
}

/// The size of the chunks of more items than one chunk has.
fn size_of_many(execution: &impl Execution, chunk: usize, count: usize, pays: bool) -> Option<usize>
    requires { 0 < chunk }
    ensures size { IfSome result (λ size. 0 < size) }
    ensures heeded { chunk < default_chunk → is_some result ≡ true }
{
    if chunk < DEFAULT_CHUNK {
        return Some(chunk);
    }
    if !pays {
        return None;
    }
    let processors = execution.processors();
    if processors < 2 {
        return None;
    }
    Some(count.div_ceil(processors).max(chunk))
}

/// From how many items on it repays to start threads that read at scattered places, also into fresh memory: found by
/// `bench chunks` on four processors, where they were level or faster from here on.
const GATHERS_PAY: usize = 262_144;

/// The size of the chunks in which a kernel reads so many items at scattered places, if it goes by chunks: where they pay, into
/// fresh memory as well, since most of the time goes into the reads.
pub fn gather_size(execution: &impl Execution, meter: &Meter, count: usize) -> Option<usize>
    ensures size { IfSome result (λ size. 0 < size) }
    ensures heeded { HeedsChunk meter.now count result }
{
    chunk_size(execution, meter, count, count >= GATHERS_PAY)
}

/// The greatest number of chunks where each goes through the operands from their beginning, or where what is known of each lies
/// on the stack.
pub(crate) const MOST_CHUNKS: usize = 64;

/// The size of the chunks, so that there are few enough.
pub(crate) fn size_of_few(count: usize, size: usize) -> usize
    requires { 0 < size }
    ensures size { 0 < result }
    ensures few { count ≤ MOST_CHUNKS * result }
{
    size.max(count.div_ceil(MOST_CHUNKS))
}

/// `chunk_size`, of few chunks.
#[inline(always)]
fn few_size(execution: &impl Execution, meter: &Meter, count: usize, pays: bool) -> Option<usize>
    ensures size { IfSome result (λ size. 0 < size) }
    ensures heeded { HeedsChunk meter.now count result }
    ensures few { IfSome result (λ size. count ≤ MOST_CHUNKS * size) }
{
    let size = chunk_size(execution, meter, count, pays)?;
    Some(size_of_few(count, size))
}

/// From how many items on threads are started that each go through a whole index and write what falls into their part, also into
/// fresh memory: found by `bench chunks` on four processors, where they were level at half as many.
const PERMUTES_PAY: usize = 524_288;

/// The size of the chunks in which a kernel moves so many items to scattered places, if it goes by chunks. There are few, since
/// each goes through the whole index.
pub fn permute_size(execution: &impl Execution, meter: &Meter, count: usize) -> Option<usize>
    ensures size { IfSome result (λ size. 0 < size) }
    ensures heeded { HeedsChunk meter.now count result }
    ensures few { IfSome result (λ size. count ≤ MOST_CHUNKS * size) }
{
    few_size(execution, meter, count, count >= PERMUTES_PAY)
}

/// The size of the chunks in which a kernel reads so many items at scattered places segment by segment, if it goes by chunks. There
/// are few, since each looks for the segment in which it begins.
pub fn gather_segments_size(
    execution: &impl Execution,
    meter: &Meter,
    count: usize,
) -> Option<usize>
    ensures size { IfSome result (λ size. 0 < size) }
    ensures heeded { HeedsChunk meter.now count result }
    ensures few { IfSome result (λ size. count ≤ MOST_CHUNKS * size) }
{
    few_size(execution, meter, count, count >= GATHERS_PAY)
}

/// From how many items on threads are started to pack, also into fresh memory: found by `bench chunks` on four processors, where
/// they were level at half as many, ahead over a vector that was kept and behind in fresh memory.
const PACKS_PAY: usize = 524_288;

/// The size of the chunks in which a kernel packs so many items, if it goes by chunks. There are few, since each looks for the piece
/// of the operands in which it begins.
pub fn pack_size(execution: &impl Execution, meter: &Meter, count: usize) -> Option<usize>
    ensures size { IfSome result (λ size. 0 < size) }
    ensures heeded { HeedsChunk meter.now count result }
    ensures few { IfSome result (λ size. count ≤ MOST_CHUNKS * size) }
{
    few_size(execution, meter, count, count >= PACKS_PAY)
}

/// From how many items on it repays to start threads that each go through a whole index and mark what falls into their part: found by
/// `bench chunks` on four processors, where they were level at half as many, with nearly three times the processor time of one.
const PERMUTATION_TESTS_PAY: usize = 2_000_000;

/// The size of the chunks in which so many indices are tested for a permutation, if it goes by chunks. There are few, since each
/// goes through the whole index.
#[inline(always)]
pub fn permutation_test_size(
    execution: &impl Execution,
    meter: &Meter,
    count: usize,
) -> Option<usize>
    ensures size { IfSome result (λ size. 0 < size) }
    ensures heeded { HeedsChunk meter.now count result }
    ensures few { IfSome result (λ size. count ≤ MOST_CHUNKS * size) }
{
    few_size(execution, meter, count, count >= PERMUTATION_TESTS_PAY)
}

/// The size of the chunks in which the indices of segments are tested for permutations, if they go by chunks: where all are short, such
/// an index is read from one end to the other.
#[inline(always)]
pub fn permutations_test_size(
    execution: &impl Execution,
    meter: &Meter,
    count: usize,
    lengths: &[usize],
) -> Option<usize>
    ensures size { IfSome result (λ size. 0 < size) }
    ensures heeded { HeedsChunk meter.now count result }
    ensures few { IfSome result (λ size. count ≤ MOST_CHUNKS * size) }
{
    let pays = count >= PERMUTATION_TESTS_PAY || count >= PLACES_TESTS_PAY && are_short(lengths);
    few_size(execution, meter, count, pays)
}

/// From how many items on it repays to start threads that read an index from one end to the other: found by `bench chunks` on four
/// processors, where they were level at half as many.
const PLACES_TESTS_PAY: usize = 524_288;

/// The size of the chunks in which so many indices are tested for places, if it goes by chunks. There are few, since what is known
/// of each lies on the stack.
#[inline(always)]
pub fn places_test_size(execution: &impl Execution, meter: &Meter, count: usize) -> Option<usize>
    ensures size { IfSome result (λ size. 0 < size) }
    ensures heeded { HeedsChunk meter.now count result }
    ensures few { IfSome result (λ size. count ≤ MOST_CHUNKS * size) }
{
    few_size(execution, meter, count, count >= PLACES_TESTS_PAY)
}

/// Whether a joined run may go by chunks, before its length is known: by a size that a caller made smaller, or where so many items
/// lie ready that the start of threads may be repaid.
#[inline(always)]
pub(crate) fn may_go_by_chunks(meter: &Meter, ready: usize) -> bool {
    meter.chunk() < DEFAULT_CHUNK || ready >= WRITES_PAY
}

/// How many parts of a joined run make a chunk, where they have so many items together, if they go by chunks.
pub(crate) fn joined_size(
    execution: &impl Execution,
    meter: &Meter,
    parts: usize,
    count: usize,
    pays: bool,
) -> Option<usize>
    ensures size { IfSome result (λ size. 0 < size) }
    ensures heeded { HeedsChunk meter.now count result }
{
    let size = chunk_size(execution, meter, count, pays)?;
    let chunks = count.div_ceil(size).max(1);
    Some(parts.div_ceil(chunks).max(1))
}

/// The integers that a kernel makes item by item, in chunks of a size.
pub fn ints_by_chunks(
    execution: &impl Execution,
    source: impl Source<i64>,
    row: IntRow<'_>,
    size: usize,
) -> Result<Vec<i64>, AllocError>
    requires size { 0 < size }
    requires fits { FitInts row }
    ensures items { IfOk result (λ v. v.items ≡ ints_of row.entry) }
    ensures exact { IfOk result (λ v. IsExact v) }
{
    let mut made = source.ready(0, count_ints(row))?;
    execution.write_ints(row, size, &mut made);
    Ok(made)
}

/// The truth values that a kernel makes item by item, in chunks of a size.
pub fn bools_by_chunks(
    execution: &impl Execution,
    source: impl Source<bool>,
    row: BoolRow<'_>,
    size: usize,
) -> Result<Vec<bool>, AllocError>
    requires size { 0 < size }
    requires fits { FitBools row }
    ensures items { IfOk result (λ v. v.items ≡ bools_of row.entry) }
    ensures exact { IfOk result (λ v. IsExact v) }
{
    let mut made = source.ready(false, count_bools(row))?;
    execution.write_bools(row, size, &mut made);
    Ok(made)
}
