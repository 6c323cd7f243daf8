//! Batches that chance makes, over few names, so that their calls clash, beside the same calls one by one.

use crate::alone::come_to_the_same;
use crate::asking::book_of;
use crate::numbers::Numbers;
use crate::table::{CALLS, OPERANDS, write_call};
use batch_flatten::BATCH_LIMIT;
use scan_kernels::DEFAULT_CHUNK;
use std::alloc::Global;
use std::process::Abort;

/// Which batches chance may make.
#[derive(Clone, Copy)]
struct Shape {
    seed: u64,
    /// The calls of a batch are among so many neighbouring rows of the table.
    words: u64,
    /// The targets are among so many names.
    targets: u64,
    /// A batch has up to so many calls.
    calls: u64,
    room: u64,
}

/// Names of operands that may be targets, and two more.
const TARGETS: [&str; 16] = [
    "a0", "b0", "a3", "f0", "s0", "b3", "g0", "x0", "a1", "c0", "i3", "f3", "s3", "j0", "m0", "x1",
];

/// A call of a row of the table, behind these.
fn write_one(rt: &impl Abort, lines: &mut String, numbers: &mut Numbers, row: u64, targets: u64) {
    let call = CALLS.get((row % 97) as usize).expect(rt, "no row");
    let target = numbers.below(targets.min(16)) as usize;
    let target = TARGETS.get(target).expect(rt, "no target");
    let set = match numbers.below(8) {
        0 => '1',
        1 => '2',
        2 => '3',
        3 => '3',
        _ => '0',
    };
    write_call(rt, lines, call, target, set);
}

/// A batch of the shape.
fn batch(rt: &impl Abort, alloc: Global, numbers: &mut Numbers, shape: &Shape) -> String {
    let mut lines = String::new(alloc);
    let first = numbers.below(97);
    let more = numbers.below(shape.calls.min(BATCH_LIMIT as u64));
    for _ in 0..more.saturating_add(1) {
        let row = first.saturating_add(numbers.below(shape.words));
        write_one(rt, &mut lines, numbers, row, shape.targets);
    }
    lines
}

/// Serves batches of the shape one after the other on one pair of books.
fn serve_some(rt: &impl Abort, alloc: Global, numbers: &mut Numbers, shape: &Shape) {
    let mut one = book_of(rt, alloc, shape.room, OPERANDS);
    let mut other = book_of(rt, alloc, shape.room, OPERANDS);
    for _ in 0..4 {
        let lines = batch(rt, alloc, numbers, shape);
        come_to_the_same(rt, alloc, &mut one, &mut other, DEFAULT_CHUNK, &lines);
    }
}

/// Asserts that batches of the shape come to the same as their calls one by one.
fn all_come_to_the_same(rt: &impl Abort, alloc: Global, shape: &Shape) {
    let mut numbers = Numbers::new(shape.seed);
    for _ in 0..50 {
        serve_some(rt, alloc, &mut numbers, shape);
    }
}

#[test]
fn of_all_words(rt: HostRuntime) {
    let shape = Shape {
        seed: 1,
        words: 97,
        targets: 16,
        calls: 64,
        room: 2000,
    };
    all_come_to_the_same(&rt, rt.alloc(), &shape)
}

#[test]
fn of_one_word(rt: HostRuntime) {
    let shape = Shape {
        seed: 2,
        words: 1,
        targets: 16,
        calls: 64,
        room: 2000,
    };
    all_come_to_the_same(&rt, rt.alloc(), &shape)
}

/// Almost every call reads what an earlier one writes.
#[test]
fn of_three_words_on_two_names(rt: HostRuntime) {
    let shape = Shape {
        seed: 3,
        words: 3,
        targets: 2,
        calls: 64,
        room: 2000,
    };
    all_come_to_the_same(&rt, rt.alloc(), &shape)
}

#[test]
fn of_few_calls(rt: HostRuntime) {
    let shape = Shape {
        seed: 4,
        words: 5,
        targets: 4,
        calls: 8,
        room: 2000,
    };
    all_come_to_the_same(&rt, rt.alloc(), &shape)
}

/// The operands have 101 items, so many calls find no room.
#[test]
fn in_a_small_room(rt: HostRuntime) {
    let shape = Shape {
        seed: 5,
        words: 20,
        targets: 16,
        calls: 64,
        room: 110,
    };
    all_come_to_the_same(&rt, rt.alloc(), &shape)
}
