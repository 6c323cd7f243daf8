//! Replies and values as they are written.

use cvl_text::{Fault, Reply, write_value};
use segment_desc::Segd;
use vector_memory::Value;

static FAULTS: [(Fault, &[u8]); 10] = [
    (Fault::NoVector, b"fault 1"),
    (Fault::WrongType, b"fault 2"),
    (Fault::WrongLength, b"fault 3"),
    (Fault::BadSegments, b"fault 4"),
    (Fault::BadIndex, b"fault 5"),
    (Fault::ZeroDivisor, b"fault 6"),
    (Fault::BadShift, b"fault 7"),
    (Fault::TooLong, b"fault 8"),
    (Fault::NoRoom, b"fault 9"),
    (Fault::TooManyNames, b"fault 10"),
];

fn is_text_of(rt: &HostRuntime, reply: Reply, wanted: &[u8]) -> bool {
    let mut text = Vec::new(rt.alloc());
    let written = reply.write(&mut text).is_ok();
    written & (text.as_slice() == wanted)
}

/// Whether a value's text, behind another, is this.
fn is_text_of_value(rt: &HostRuntime, value: Value, wanted: &[u8]) -> bool {
    let mut text = Vec::new(rt.alloc());
    let begun = text.extend_from_slice(b"> ").is_ok();
    let written = write_value(&value, &mut text).is_ok();
    begun & written & (text.as_slice() == wanted)
}

#[test]
fn writes_replies(rt: HostRuntime) {
    for (fault, wanted) in &FAULTS {
        assert!(rt; is_text_of(&rt, Reply::Fault(*fault), wanted));
    }
    assert!(rt; is_text_of(&rt, Reply::Done, b"ok"));
    assert!(rt; is_text_of(&rt, Reply::Int(i64::MIN), b"int -9223372036854775808"));
    assert!(rt; is_text_of(&rt, Reply::Bool(true), b"bool T"));
    assert!(rt; is_text_of(&rt, Reply::Bool(false), b"bool F"));
}

#[test]
fn writes_values(rt: HostRuntime) {
    let integers = Vec::from_slice(rt.alloc(), &[0, -7]).expect(&rt, "memory");
    assert!(rt; is_text_of_value(&rt, Value::Ints(integers), b"> z 0 -7"));
    let truths = Vec::from_slice(rt.alloc(), &[false, true]).expect(&rt, "memory");
    assert!(rt; is_text_of_value(&rt, Value::Bools(truths), b"> b F T"));
    let segments = Segd::from_lengths(rt.alloc(), &[2, 0, 3]).expect(&rt, "a segment list");
    assert!(rt; is_text_of_value(&rt, Value::Segs(segments), b"> s 2 0 3"));
    let empty = Segd::from_lengths(rt.alloc(), &[]).expect(&rt, "a segment list");
    assert!(rt; is_text_of_value(&rt, Value::Segs(empty), b"> s"));
    let integers = Vec::from_slice(rt.alloc(), &[1]).expect(&rt, "memory");
    assert!(rt; is_text_of(&rt, Reply::Vector(Value::Ints(integers)), b"z 1"));
}
