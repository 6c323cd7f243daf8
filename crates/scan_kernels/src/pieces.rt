//! Integers into fresh memory in pieces. While threads write a piece into memory that is in use, one puts the piece before it behind
//! the others, and gets the pages of the result. A result that is first filled gets them while no other thread has work.

ghost use Rattle.std.specs.Prelude.{◌≡◌, ◌+◌, ◌<◌, ◌≤◌, ◌^◌, ◌++◌, length, take, drop, vec_len, vec_capacity, IfOk};
ghost use Rattle.segment_desc.specs.Appended.{Appends, IsExact};
ghost use Rattle.scan_kernels.specs.Lists.{FitInts, ints_of};

use crate::chunks::ints_by_chunks;
use crate::execution::Execution;
use crate::in_order::end_of;
use crate::in_turn::FEW_CHUNKS;
use crate::meter::DEFAULT_CHUNK;
use crate::rows::{IntRow, count_ints};
use crate::source::{Source, filled};
use segment_desc::append_reserved;
use std::alloc::AllocError;
use std::mem;

/// From how many chunks on a thread may be spared for the pages: with two or three processors they are got sooner by filling.
const SPARES: usize = 4;

/// From how many items on it repays: found by `bench chunks`.
const PIECES_PAY: usize = 2_000_000;

/// How many pieces there are. The first is written while none is put behind others, and the last one put while none is written.
const PIECES: usize = 32;

/// The integers that a kernel makes item by item, in chunks of a size where memory lies ready, else in pieces where that repays.
pub fn ints_by_pieces(
    execution: &impl Execution,
    source: impl Source<i64>,
    row: IntRow<'_>,
    size: usize,
) -> Result<Vec<i64>, AllocError>
    requires size { 0 < size }
    requires fits { FitInts row }
    ensures items { IfOk result (λ v. v.items ≡ ints_of row.entry) }
    ensures exact { IfOk result (λ v. IsExact v) }
{
    let count = count_ints(row);
    let chunks = count.div_ceil(size).min(FEW_CHUNKS);
    let pays = count >= PIECES_PAY || size < DEFAULT_CHUNK;
    if chunks < SPARES || !pays || source.is_ready(count) {
        return ints_by_chunks(execution, source, row, size);
    }
    let piece = count.div_ceil(PIECES).max(1);
    put_pieces(execution, source, row, piece, piece.div_ceil(chunks - 1))
}

/// The integers in pieces of so many, each in chunks of a size.
fn put_pieces(
    execution: &impl Execution,
    source: impl Source<i64>,
    row: IntRow<'_>,
    piece: usize,
    size: usize,
) -> Result<Vec<i64>, AllocError>
    requires piece { 0 < piece }
    requires size { 0 < size }
    requires fits { FitInts row }
    ensures items { IfOk result (λ v. v.items ≡ ints_of row.entry) }
    ensures exact { IfOk result (λ v. IsExact v) }
{
    let count = count_ints(row);
    let mut made = source.vector(count)?;
    let alloc = *made.allocator();
    let mut last = filled(alloc, 0, piece)?;
    let mut next = filled(alloc, 0, piece)?;
    let mut held = 0;
    let mut start = 0;
    while start < count {
        let end = end_of(start, piece, count);
        put_and_write(
            execution,
            row,
            size,
            start,
            end - start,
            &mut next,
            &last[..held],
            &mut made,
        );
        mem::swap(&mut last, &mut next);
        held = end - start;
        start = end;
    }
    append_reserved(&last[..held], &mut made);
    Ok(made)
}

/// Puts the piece before behind the others, and meanwhile writes so many integers from a place on over the first items of a vector.
fn put_and_write(
    execution: &impl Execution,
    row: IntRow<'_>,
    size: usize,
    start: usize,
    many: usize,
    list: &mut Vec<i64>,
    items: &[i64],
    made: &mut Vec<i64>,
)
    requires size { 0 < size }
    requires fits { FitInts row }
    requires many { many ≤ length list.old.items }
    requires within { start + many ≤ length (ints_of row) }
    requires small { start + many < 2 ^ 64 }
    requires room { vec_len made.old + length items.now ≤ vec_capacity made.old }
    ensures list { list.new.items ≡ take many (drop start (ints_of row.entry)) ++ drop many list.old.items }
    ensures made { Appends made.old made.new items.now }
{
    put_and_write_first(execution, row, size, start, many, list, items, made)
}

/// The same over the first items of a list.
fn put_and_write_first(
    execution: &impl Execution,
    row: IntRow<'_>,
    size: usize,
    start: usize,
    many: usize,
    list: &mut [i64],
    items: &[i64],
    made: &mut Vec<i64>,
)
    requires size { 0 < size }
    requires fits { FitInts row }
    requires many { many ≤ length list.old }
    requires within { start + many ≤ length (ints_of row) }
    requires small { start + many < 2 ^ 64 }
    requires room { vec_len made.old + length items.now ≤ vec_capacity made.old }
    ensures list { list.new ≡ take many (drop start (ints_of row.entry)) ++ drop many list.old }
    ensures made { Appends made.old made.new items.now }
{
    execution.write_ints_beside(row, size, start, &mut list[..many], items, made)
}
