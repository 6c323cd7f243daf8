//! Each public call once, with ample memory.

use segment_desc::{SegFault, Segd};
use std::process::Abort;

#[test]
fn refuses_lengths_below_zero_and_past_the_limit(rt: HostRuntime) {
    let made = |lengths: &[i64]| Segd::from_lengths(rt.alloc(), lengths).err();
    assert!(rt; made(&[2, -1]) == Some(SegFault::Negative));
    assert!(rt; made(&[1_073_741_824, 1]) == Some(SegFault::TooLong));
    assert!(rt; made(&[1_073_741_824, 1, -1]) == Some(SegFault::Negative));
    assert!(rt; made(&[i64::MAX, i64::MAX, 2]) == Some(SegFault::TooLong));
    assert!(rt; made(&[1_073_741_824, 0]) == None);
    assert!(rt; made(&[]) == None);
}

#[test]
fn refuses_lengths_past_the_limit_of_the_caller(rt: HostRuntime) {
    let made = |lengths: &[i64]| Segd::from_lengths_within(rt.alloc(), lengths, 3).err();
    assert!(rt; made(&[1, 0, 2]) == None);
    assert!(rt; made(&[1, 0, 3]) == Some(SegFault::TooLong));
    assert!(rt; made(&[0, 0, 0, 0]) == Some(SegFault::TooLong));
    assert!(rt; made(&[4, -1]) == Some(SegFault::Negative));
}

#[test]
fn copies_its_lengths(rt: HostRuntime) {
    let segments = Segd::from_lengths(rt.alloc(), &[2, 0, 3]).expect(&rt, "memory");
    let copy = segments.try_copy().expect(&rt, "memory");
    assert!(rt; copy == segments);
    assert!(rt; copy.lengths() == [2usize, 0, 3].as_slice());
    assert!(rt; copy.total() == 5);
}

#[test]
fn lists_its_lengths(rt: HostRuntime) {
    let segments = Segd::from_lengths(rt.alloc(), &[3, 0, 0, 2]).expect(&rt, "memory");
    assert!(rt; segments.count() == 4);
    assert!(rt; segments.total() == 5);
    if segments.count() == 4 {
        assert!(rt; segments.length(3) == 2);
    }
    assert!(rt; segments.lengths() == [3usize, 0, 0, 2].as_slice());
    let mut list = Vec::from_slice(rt.alloc(), &[7]).expect(&rt, "memory");
    segments.lengths_into(&mut list).expect(&rt, "memory");
    assert!(rt; list.as_slice() == [7i64, 3, 0, 0, 2].as_slice());
}

#[test]
fn joins_up_to_the_limit(rt: HostRuntime) {
    let mut segments = Segd::one(rt.alloc(), 2).expect(&rt, "memory");
    let rest = Segd::one(rt.alloc(), 1_073_741_822).expect(&rt, "memory");
    assert!(rt; segments.join(&rest) == Ok(()));
    assert!(rt; segments.join(&rest) == Err(SegFault::TooLong));
    assert!(rt; segments.lengths() == [2usize, 1_073_741_822].as_slice());
    assert!(rt; Segd::one(rt.alloc(), 1_073_741_825).err() == Some(SegFault::TooLong));
}
