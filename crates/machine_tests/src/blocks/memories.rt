//! Blocks of changes in a memory. A test is a list of steps, each with what it must come to.

ghost use Rattle.std.specs.Prelude.{◌≡◌, None, IsTrue};
ghost use Rattle.vector_memory.specs.States.{MayChange};

use std::alloc::Global;
use std::process::Abort;
use vector_memory::laws::memories_are_lawful;
use vector_memory::{CHANGE_LIMIT, Memory, Name, Value};

/// What is done, and what must come of it.
#[derive(Clone, Copy, Debug)]
enum Step {
    Begin(usize),
    Undo,
    End,
    /// Integers under a name, and whether they are stored.
    Store(&'static [u8], &'static [i64], bool),
    /// A name, and whether it was there.
    Free(&'static [u8], bool),
    /// How many changes are left, and whether there is a block.
    Left(usize, bool),
    /// The names in their order, with their integers.
    Shows(&'static [(&'static [u8], &'static [i64])]),
}

fn name(rt: &impl Abort, text: &[u8]) -> Name {
    Name::read(text).expect(rt, "no name")
}

/// Whether the memory is in no block.
fn is_outside(memory: &Memory) -> bool
    ensures { IsTrue result → memory.now.block ≡ None }
{
    !memory.in_block()
}

/// Whether the memory may change.
fn may_change(memory: &Memory) -> bool
    ensures { IsTrue result → MayChange memory.now }
{
    !memory.in_block() || memory.changes_left() > 0
}

fn begin(rt: &impl Abort, memory: &mut Memory, changes: usize) {
    assert!(rt; is_outside(memory) && changes != 0 && changes <= CHANGE_LIMIT);
    memory.begin_block(changes).expect(rt, "memory");
}

fn undo(rt: &impl Abort, memory: &mut Memory) {
    assert!(rt; memory.in_block());
    memory.undo_block();
}

fn end(rt: &impl Abort, memory: &mut Memory) {
    assert!(rt; memory.in_block());
    memory.end_block();
}

/// Whether the integers were stored.
fn store(rt: &impl Abort, alloc: Global, memory: &mut Memory, text: &[u8], items: &[i64]) -> bool {
    let name = name(rt, text);
    memories_are_lawful(memory);
    assert!(rt; may_change(memory) && items.len() <= memory.limit());
    let items = Vec::from_slice(alloc, items).expect(rt, "memory");
    memory.store(name, Value::Ints(items)).is_ok()
}

/// Whether the name was there.
fn free(rt: &impl Abort, memory: &mut Memory, text: &[u8]) -> bool {
    let name = name(rt, text);
    assert!(rt; may_change(memory));
    memory.free(&name)
}

/// Whether a value is these integers.
fn is_ints(value: &Value, wanted: &[i64]) -> bool {
    match value {
        Value::Ints(items) => items.as_slice() == wanted,
        Value::Bools(_) | Value::Segs(_) => false,
    }
}

/// Whether a name has these integers, as it is gone over and as it is looked up.
fn stands_for(memory: &Memory, entry: (&Name, &Value), text: &[u8], wanted: &[i64]) -> bool {
    match (Name::read(text), memory.get(entry.0)) {
        (Some(name), Some(value)) => {
            *entry.0 == name && is_ints(entry.1, wanted) && is_ints(value, wanted)
        }
        _ => false,
    }
}

/// Whether the memory has these names in this order, with these integers.
fn shows(memory: &Memory, wanted: &[(&[u8], &[i64])]) -> bool {
    let mut cells = 0usize;
    for (_, items) in wanted {
        cells = cells.wrapping_add(items.len());
    }
    memory.len() == wanted.len()
        && memory.cells() == cells
        && memory.iter().count() == wanted.len()
        && memory.iter().zip(wanted).all(|(entry, (text, items))| stands_for(
            memory, entry, text, items,
        ))
}

/// Whether a step comes to what it must.
fn comes_true(rt: &impl Abort, alloc: Global, memory: &mut Memory, step: Step) -> bool {
    match step {
        Step::Begin(changes) => begin(rt, memory, changes),
        Step::Undo => undo(rt, memory),
        Step::End => end(rt, memory),
        Step::Store(text, items, wanted) => return store(rt, alloc, memory, text, items) == wanted,
        Step::Free(text, wanted) => return free(rt, memory, text) == wanted,
        Step::Left(left, inside) => {
            return memory.changes_left() == left && memory.in_block() == inside;
        }
        Step::Shows(wanted) => return shows(memory, wanted),
    }
    true
}

/// Takes the steps on a memory with room for ten items, and asks of each what it comes to.
fn expect(rt: &impl Abort, alloc: Global, steps: &[Step]) {
    let mut memory = Memory::new(alloc, 10).expect(rt, "memory");
    for step in steps {
        assert!(rt; comes_true(rt, alloc, &mut memory, *step), "{step:?}");
    }
}

const UNDONE: &[Step] = &[
    Step::Store(b"a", &[1], true),
    Step::Store(b"b", &[2], true),
    Step::Left(0, false),
    Step::Begin(4),
    Step::Left(4, true),
    Step::Free(b"a", true),
    Step::Store(b"a", &[3, 4], true),
    Step::Store(b"c", &[5], true),
    Step::Shows(&[(b"b", &[2]), (b"a", &[3, 4]), (b"c", &[5])]),
    Step::Undo,
    Step::Left(0, false),
    Step::Shows(&[(b"a", &[1]), (b"b", &[2])]),
];

const ENDED: &[Step] = &[
    Step::Store(b"a", &[1], true),
    Step::Store(b"b", &[2], true),
    Step::Begin(4),
    Step::Free(b"a", true),
    Step::Store(b"a", &[3, 4], true),
    Step::Store(b"c", &[5], true),
    Step::End,
    Step::Left(0, false),
    Step::Shows(&[(b"b", &[2]), (b"a", &[3, 4]), (b"c", &[5])]),
];

const COUNTED: &[Step] = &[
    Step::Store(b"a", &[1], true),
    Step::Begin(3),
    Step::Free(b"z", false),
    Step::Left(3, true),
    Step::Store(b"a", &[1, 2, 3, 4, 5, 6, 7, 8, 9, 10, 11], false),
    Step::Left(3, true),
    Step::Store(b"a", &[1, 2], true),
    Step::Left(2, true),
    Step::Store(b"a", &[3], true),
    Step::Free(b"a", true),
    Step::Left(0, true),
    Step::Shows(&[]),
    Step::Undo,
    Step::Shows(&[(b"a", &[1])]),
];

const AGAIN: &[Step] = &[
    Step::Store(b"a", &[1], true),
    Step::Begin(1024),
    Step::Store(b"b", &[2], true),
    Step::Free(b"b", true),
    Step::Store(b"b", &[3], true),
    Step::Store(b"b", &[4], true),
    Step::Shows(&[(b"a", &[1]), (b"b", &[4])]),
    Step::End,
    Step::Begin(1),
    Step::Free(b"a", true),
    Step::Shows(&[(b"b", &[4])]),
    Step::Undo,
    Step::Begin(2),
    Step::Store(b"b", &[5], true),
    Step::End,
    Step::Shows(&[(b"a", &[1]), (b"b", &[5])]),
];

#[test]
fn undoes_a_block(rt: HostRuntime) {
    expect(&rt, rt.alloc(), UNDONE)
}

#[test]
fn ends_a_block(rt: HostRuntime) {
    expect(&rt, rt.alloc(), ENDED)
}

#[test]
fn counts_changes(rt: HostRuntime) {
    expect(&rt, rt.alloc(), COUNTED)
}

#[test]
fn begins_again(rt: HostRuntime) {
    expect(&rt, rt.alloc(), AGAIN)
}
