//! Each public call once, with ample memory.

ghost use Rattle.vector_memory.specs.Contents.{content_of};
ghost use Rattle.vector_memory.specs.States.{FitsLimits, IsLawfulLimit};

use crate::changing::assert_may_change;
use segment_desc::Segd;
use std::alloc::Global;
use std::process::Abort;
use vector_memory::laws::memories_are_lawful;
use vector_memory::{ITEM_LIMIT, Memory, NAME_LIMIT, Name, ROOM_LIMIT, StoreFault, Value};

fn name(rt: &impl Abort, text: &[u8]) -> Name {
    Name::read(text).expect(rt, "no name")
}

/// What a value is made of: integers, truth values or the lengths of segments.
#[derive(Clone, Copy, Debug)]
enum Plain<'a> {
    Ints(&'a [i64]),
    Bools(&'a [bool]),
    Segs(&'a [i64]),
}

fn made(rt: &impl Abort, alloc: Global, plain: Plain<'_>, limit: usize) -> Value
    requires { IsLawfulLimit limit }
    ensures { FitsLimits limit (content_of result) }
{
    match plain {
        Plain::Ints(items) if items.len() <= limit => {
            Value::Ints(Vec::from_slice(alloc, items).expect(rt, "memory"))
        }
        Plain::Bools(items) if items.len() <= limit => {
            Value::Bools(Vec::from_slice(alloc, items).expect(rt, "memory"))
        }
        Plain::Segs(lengths) => {
            let segments = Segd::from_lengths_within(alloc, lengths, limit);
            Value::Segs(segments.ok().expect(rt, "no segment list"))
        }
        _ => panic!(rt; "too long"),
    }
}

fn is(rt: &impl Abort, alloc: Global, value: &Value, plain: Plain<'_>) -> bool {
    *value == made(rt, alloc, plain, ITEM_LIMIT)
}

/// What a store of the value under the name comes to, in a word.
fn outcome(
    rt: &impl Abort,
    alloc: Global,
    memory: &mut Memory,
    text: &[u8],
    plain: Plain<'_>,
) -> &'static str {
    let name = name(rt, text);
    memories_are_lawful(memory);
    let value = made(rt, alloc, plain, memory.limit());
    assert_may_change(rt, memory);
    match memory.store(name, value) {
        Ok(()) => "stored",
        Err(StoreFault::NoRoom) => "no room",
        Err(StoreFault::TooManyNames) => "too many names",
        Err(StoreFault::OutOfMemory) => "out of memory",
    }
}

/// Stores values under names, one after the other, and compares what each store comes to.
fn expect_outcomes(
    rt: &impl Abort,
    alloc: Global,
    memory: &mut Memory,
    stores: &[(&[u8], Plain<'_>, &str)],
) {
    for &(text, plain, wanted) in stores {
        assert_eq!(rt;
            outcome(rt, alloc, memory, text, plain),
            wanted,
            "{text:?} = {plain:?}"
        );
    }
}

fn expect_counts(rt: &impl Abort, memory: &Memory, names: usize, cells: usize) {
    assert_eq!(rt; memory.len(), names);
    assert_eq!(rt; memory.is_empty(), names == 0);
    assert_eq!(rt; memory.cells(), cells);
}

fn expect_absent(rt: &impl Abort, memory: &Memory, text: &[u8]) {
    assert!(rt; memory.get(&name(rt, text)).is_none(), "{text:?}");
}

/// Frees names, one after the other, and compares whether each was there.
fn expect_freed(rt: &impl Abort, memory: &mut Memory, names: &[(&[u8], bool)]) {
    for &(text, was) in names {
        assert_may_change(rt, memory);
        assert_eq!(rt; memory.free(&name(rt, text)), was, "{text:?}");
    }
}

/// Whether the value that a name has, and the one that its look-up finds, are this one.
fn stands_for(
    rt: &impl Abort,
    alloc: Global,
    memory: &Memory,
    entry: (&Name, &Value),
    plain: Plain<'_>,
) -> bool {
    let looked_up = memory.get(entry.0).expect(rt, "no value");
    is(rt, alloc, entry.1, plain) && is(rt, alloc, looked_up, plain)
}

/// Compares the names and values of a memory with these, one after the other and each by its look-up.
fn expect_entries(rt: &impl Abort, alloc: Global, memory: &Memory, wanted: &[(&[u8], Plain<'_>)]) {
    assert!(rt; memory.len() == wanted.len() && memory.iter().count() == wanted.len());
    for (entry, &(text, plain)) in memory.iter().zip(wanted) {
        assert!(rt; *entry.0 == name(rt, text), "{text:?}");
        assert!(rt; stands_for(rt, alloc, memory, entry, plain), "{text:?}");
    }
}

const NAMES: &[&[u8]] = &[b"a", b"z9_", b"abcdefghijklmnop", b"a123456789_bcdef", b"z"];

const NO_NAMES: &[&[u8]] = &[
    b"",
    b"abcdefghijklmnopq",
    b"1a",
    b"_a",
    b"A",
    b"aB",
    b"a-b",
    b"a b",
    b"a\0",
    b"a{",
    b"a`",
    b"`",
    b"{",
    b"a/",
    b"a:",
];

#[test]
fn reads_lawful_names_alone(rt: HostRuntime) {
    for text in NAMES {
        assert!(rt; Name::read(text).is_some(), "{text:?}");
    }
    for text in NO_NAMES {
        assert!(rt; Name::read(text).is_none(), "{text:?}");
    }
}

#[test]
fn tells_names_apart(rt: HostRuntime) {
    assert!(rt; name(&rt, b"ab") == name(&rt, b"ab"));
    assert!(rt; name(&rt, b"ab") != name(&rt, b"a"));
    assert!(rt; name(&rt, b"abcdefghijklmnop") != name(&rt, b"abcdefghijklmnoq"));
}

/// Values, each with its size and with another value.
const VALUES: &[(Plain<'_>, usize, Plain<'_>)] = &[
    (Plain::Ints(&[5, -6, 7]), 3, Plain::Ints(&[5, -6, 8])),
    (
        Plain::Bools(&[true, false, false]),
        3,
        Plain::Bools(&[true, false, true]),
    ),
    (Plain::Segs(&[2, 0, 3]), 3, Plain::Segs(&[2, 3, 0])),
    (Plain::Ints(&[]), 0, Plain::Bools(&[])),
    (Plain::Bools(&[]), 0, Plain::Segs(&[])),
    (Plain::Segs(&[]), 0, Plain::Ints(&[])),
];

/// Whether a copy of the first value has the size, and is equal to the first value and not to the other.
fn is_copied(
    rt: &impl Abort,
    alloc: Global,
    plain: Plain<'_>,
    size: usize,
    other: Plain<'_>,
) -> bool {
    let copy = made(rt, alloc, plain, ITEM_LIMIT)
        .try_copy()
        .expect(rt, "memory");
    copy.size() == size && is(rt, alloc, &copy, plain) && !is(rt, alloc, &copy, other)
}

#[test]
fn copies_values(rt: HostRuntime) {
    for &(plain, size, other) in VALUES {
        assert!(rt;
            is_copied(&rt, rt.alloc(), plain, size, other),
            "{plain:?} and {other:?}"
        );
    }
}

/// What a memory of some room holds after some stores.
#[derive(Clone, Copy)]
struct Stores<'a> {
    room: u64,
    stores: &'a [(&'a [u8], Plain<'a>, &'a str)],
    cells: usize,
    entries: &'a [(&'a [u8], Plain<'a>)],
}

/// The room is counted without the old value.
const IN_A_SMALL_ROOM: Stores<'_> = Stores {
    room: 4,
    stores: &[
        (b"a", Plain::Ints(&[1, 2, 3, 4]), "stored"),
        (b"b", Plain::Ints(&[4, 5]), "no room"),
        (b"a", Plain::Ints(&[1]), "stored"),
        (b"b", Plain::Ints(&[4, 5]), "stored"),
        (b"c", Plain::Ints(&[6]), "stored"),
        (b"d", Plain::Ints(&[7]), "no room"),
        (b"d", Plain::Ints(&[]), "stored"),
    ],
    cells: 4,
    entries: &[
        (b"a", Plain::Ints(&[1])),
        (b"b", Plain::Ints(&[4, 5])),
        (b"c", Plain::Ints(&[6])),
        (b"d", Plain::Ints(&[])),
    ],
};

/// The names keep the order in which they came.
const IN_NO_ORDER: Stores<'_> = Stores {
    room: 9,
    stores: &[
        (b"b", Plain::Ints(&[1, 2]), "stored"),
        (b"c", Plain::Ints(&[3]), "stored"),
        (b"a", Plain::Ints(&[]), "stored"),
        (b"b", Plain::Ints(&[4, 5, 6]), "stored"),
    ],
    cells: 4,
    entries: &[
        (b"b", Plain::Ints(&[4, 5, 6])),
        (b"c", Plain::Ints(&[3])),
        (b"a", Plain::Ints(&[])),
    ],
};

/// A value is replaced by one of another type.
const OF_OTHER_TYPES: Stores<'_> = Stores {
    room: 4,
    stores: &[
        (b"p", Plain::Bools(&[true, false]), "stored"),
        (b"q", Plain::Ints(&[5]), "stored"),
        (b"p", Plain::Ints(&[1, 2, 3]), "stored"),
        (b"q", Plain::Bools(&[false]), "stored"),
        (b"q", Plain::Bools(&[true, true]), "no room"),
    ],
    cells: 4,
    entries: &[
        (b"p", Plain::Ints(&[1, 2, 3])),
        (b"q", Plain::Bools(&[false])),
    ],
};

/// A segment list counts by its lengths, and not by their sum.
const OF_SEGMENTS: Stores<'_> = Stores {
    room: 4,
    stores: &[
        (b"s", Plain::Segs(&[2, 0, 3]), "stored"),
        (b"t", Plain::Segs(&[1, 1]), "no room"),
        (b"t", Plain::Segs(&[1_048_576]), "stored"),
        (b"t", Plain::Ints(&[7]), "stored"),
    ],
    cells: 4,
    entries: &[(b"s", Plain::Segs(&[2, 0, 3])), (b"t", Plain::Ints(&[7]))],
};

fn expect_held(rt: &impl Abort, alloc: Global, memory: &mut Memory, case: &Stores<'_>) {
    expect_counts(rt, memory, 0, 0);
    expect_outcomes(rt, alloc, memory, case.stores);
    expect_counts(rt, memory, case.entries.len(), case.cells);
    expect_entries(rt, alloc, memory, case.entries)
}

fn expect_stores(rt: &impl Abort, alloc: Global, case: &Stores<'_>) {
    assert!(rt; 1 <= case.room && case.room <= ROOM_LIMIT);
    let mut memory = Memory::new(alloc, case.room).expect(rt, "memory");
    expect_held(rt, alloc, &mut memory, case)
}

#[test]
fn stores_values(rt: HostRuntime) {
    expect_stores(&rt, rt.alloc(), &IN_A_SMALL_ROOM);
    expect_stores(&rt, rt.alloc(), &IN_NO_ORDER);
    expect_stores(&rt, rt.alloc(), &OF_OTHER_TYPES);
    expect_stores(&rt, rt.alloc(), &OF_SEGMENTS)
}

fn expect_limits(rt: &impl Abort, memory: &Memory) {
    assert_eq!(rt; memory.room(), 4);
    assert_eq!(rt; memory.limit(), 1_048_576);
    expect_absent(rt, memory, b"e")
}

#[test]
fn knows_its_room_its_limit_and_no_strange_name(rt: HostRuntime) {
    let memory = Memory::new(rt.alloc(), 4).expect(&rt, "memory");
    expect_limits(&rt, &memory);
}

const BEFORE_FREEING: &[(&[u8], Plain<'_>, &str)] = &[
    (b"a", Plain::Ints(&[1]), "stored"),
    (b"b", Plain::Bools(&[true, false]), "stored"),
    (b"c", Plain::Ints(&[3, 4, 5]), "stored"),
    (b"d", Plain::Bools(&[]), "stored"),
];

const AGAIN: &[(&[u8], Plain<'_>, &str)] = &[(b"b", Plain::Segs(&[0, 2]), "stored")];

const FREED: &[(&[u8], bool)] = &[(b"b", true), (b"b", false), (b"e", false), (b"d", true)];

const AFTER_FREEING: &[(&[u8], Plain<'_>)] = &[
    (b"a", Plain::Ints(&[1])),
    (b"c", Plain::Ints(&[3, 4, 5])),
    (b"b", Plain::Segs(&[0, 2])),
];

fn expect_freeing(rt: &impl Abort, alloc: Global, memory: &mut Memory) {
    expect_outcomes(rt, alloc, memory, BEFORE_FREEING);
    expect_freed(rt, memory, FREED);
    expect_counts(rt, memory, 2, 4);
    expect_absent(rt, memory, b"b");
    expect_outcomes(rt, alloc, memory, AGAIN);
    expect_counts(rt, memory, 3, 6);
    expect_entries(rt, alloc, memory, AFTER_FREEING)
}

#[test]
fn frees_a_name_and_closes_up(rt: HostRuntime) {
    let mut memory = Memory::new(rt.alloc(), 6).expect(&rt, "memory");
    expect_freeing(&rt, rt.alloc(), &mut memory)
}

/// Stores one integer under each of the names n0, n1 and so on, as many as there may be.
fn fill(rt: &impl Abort, alloc: Global, memory: &mut Memory) {
    for number in 0..NAME_LIMIT {
        let text = format!(in alloc; "n{number}").expect(rt, "memory");
        let store = [(text.as_bytes(), Plain::Ints(&[1]), "stored")];
        expect_outcomes(rt, alloc, memory, &store);
    }
}

/// Compares the names of a full memory, after n0 was freed, with n1, n2 and so on, and the last with `last`.
fn expect_numbered_names(rt: &impl Abort, alloc: Global, memory: &Memory, last: &[u8]) {
    for ((found, _), number) in memory.iter().zip(1..NAME_LIMIT) {
        let text = format!(in alloc; "n{number}").expect(rt, "memory");
        assert!(rt; *found == name(rt, text.as_bytes()), "{number}");
    }
    let found = memory.iter().last().expect(rt, "no last");
    assert!(rt; *found.0 == name(rt, last));
}

const INTO_THE_GAP: &[(&[u8], Plain<'_>, &str)] = &[(b"m", Plain::Ints(&[1]), "stored")];

const INTO_A_FULL_MEMORY: &[(&[u8], Plain<'_>, &str)] = &[
    (b"m", Plain::Ints(&[1]), "no room"),
    (b"m", Plain::Ints(&[]), "too many names"),
    (b"n0", Plain::Ints(&[]), "stored"),
    (b"m", Plain::Ints(&[1]), "too many names"),
];

fn expect_full(rt: &impl Abort, alloc: Global, memory: &mut Memory) {
    fill(rt, alloc, memory);
    expect_outcomes(rt, alloc, memory, INTO_A_FULL_MEMORY);
    expect_counts(rt, memory, NAME_LIMIT, NAME_LIMIT - 1);
    expect_freed(rt, memory, &[(b"n0", true)]);
    expect_outcomes(rt, alloc, memory, INTO_THE_GAP);
    expect_counts(rt, memory, NAME_LIMIT, NAME_LIMIT);
    expect_numbered_names(rt, alloc, memory, b"m")
}

#[test]
fn takes_so_many_names_and_no_more(rt: HostRuntime) {
    let mut memory = Memory::new(rt.alloc(), NAME_LIMIT as u64).expect(&rt, "memory");
    expect_full(&rt, rt.alloc(), &mut memory)
}

/// Puts a value at a name, and compares what stood there before.
fn expect_replaced(
    rt: &impl Abort,
    alloc: Global,
    memory: &mut Memory,
    plain: Plain<'_>,
    wanted: Option<Plain<'_>>,
) {
    memories_are_lawful(memory);
    let value = made(rt, alloc, plain, memory.limit());
    assert_may_change(rt, memory);
    let replaced = memory.replace(name(rt, b"a"), value);
    let before = replaced.ok().expect(rt, "refused");
    match (before, wanted) {
        (Some(value), Some(plain)) => assert!(rt; is(rt, alloc, &value, plain)),
        (None, None) => {}
        _ => panic!(rt; "not what stood before"),
    }
}

fn expect_each_replaced(rt: &impl Abort, alloc: Global, memory: &mut Memory) {
    let values = [
        Plain::Ints(&[1, 2]),
        Plain::Bools(&[true]),
        Plain::Segs(&[3, 0]),
        Plain::Ints(&[]),
    ];
    let mut before = None;
    for plain in values {
        expect_replaced(rt, alloc, memory, plain, before);
        before = Some(plain);
    }
    expect_counts(rt, memory, 1, 0);
}

#[test]
fn hands_back_what_stood_before(rt: HostRuntime) {
    let mut memory = Memory::new(rt.alloc(), 4).expect(&rt, "memory");
    expect_each_replaced(&rt, rt.alloc(), &mut memory);
}
