//! The tests of indices in chunks of 1, 2, 7 and 4,096: in threads, and one chunk after another.

use crate::cut::cut;
use permute_kernels::{are_places_by, in_range_by, is_permutation_by, is_whole_permutation_by};
use scan_kernels::{Execution, Meter, Sequential, index, index_whole};
use segment_desc::Segd;
use std::alloc::{Alloc, Global};
use std::process::Abort;
use std::thread::Threads;

const CHUNKS: [usize; 4] = [1, 2, 7, 4_096];

/// Asserts what both policies say of an index as a permutation.
fn permutes<R: Abort + Alloc<A = Global> + Threads + Execution<Shared = R> + Sync>(
    rt: &R,
    index: &[i64],
    wanted: bool,
) {
    for chunk in CHUNKS {
        let meter = Meter::with_chunk(chunk);
        let threads = is_whole_permutation_by(rt, rt.alloc(), &meter, index);
        let alone = is_whole_permutation_by(&Sequential, rt.alloc(), &meter, index);
        assert!(rt;
            threads == Ok(wanted) && alone == Ok(wanted),
            "chunk {chunk}"
        );
        assert!(rt; meter.runs() == 0);
    }
}

#[test]
fn tells_permutations(rt: HostRuntime) {
    permutes(&rt, &[9, 0, 3, 2, 8, 1, 4, 5, 7, 6], true);
    permutes(&rt, &[9, 0, 3, 2, 8, 1, 4, 5, 7, 9], false);
    permutes(&rt, &[9, 0, 3, 2, 8, 1, 4, 5, 7, 10], false);
    permutes(&rt, &[9, 0, 3, 2, 8, 1, 4, 5, 7, -1], false);
    permutes(&rt, &[], true);
}

/// A segment that does not fit into a block of places.
#[test]
fn tells_long_permutations(rt: HostRuntime) {
    let (alloc, mut meter) = (rt.alloc(), Meter::new());
    let falling = index_whole(&Sequential, alloc, &mut meter, 4_999, -1, 5_000);
    let falling = falling.expect(&rt, "memory");
    permutes(&rt, &falling, true);
    let beyond = index_whole(&Sequential, alloc, &mut meter, 5_000, -1, 5_000);
    let beyond = beyond.expect(&rt, "memory");
    permutes(&rt, &beyond, false);
}

/// The lengths of segments, with empty ones at the beginning, between others, and where chunks of two end.
const LENGTHS: [i64; 7] = [0, 3, 1, 0, 4, 0, 2];

/// Asserts what both policies say of an index as a permutation of each segment.
fn permutes_segments<R: Abort + Alloc<A = Global> + Threads + Execution<Shared = R> + Sync>(
    rt: &R,
    segments: &Segd,
    index: &[i64],
    wanted: bool,
) {
    assert!(rt; segments.total() == index.len());
    for chunk in CHUNKS {
        let meter = Meter::with_chunk(chunk);
        let threads = is_permutation_by(rt, rt.alloc(), &meter, index, segments);
        let alone = is_permutation_by(&Sequential, rt.alloc(), &meter, index, segments);
        assert!(rt;
            threads == Ok(wanted) && alone == Ok(wanted),
            "chunk {chunk}"
        );
    }
}

#[test]
fn tells_permutations_of_segments(rt: HostRuntime) {
    let segments = cut(&rt, rt.alloc(), &LENGTHS);
    permutes_segments(&rt, &segments, &[2, 0, 1, 0, 1, 3, 0, 2, 1, 0], true);
    permutes_segments(&rt, &segments, &[2, 0, 2, 0, 1, 3, 0, 2, 1, 0], false);
    permutes_segments(&rt, &segments, &[2, 0, 1, 0, 1, 3, 0, 1, 1, 0], false);
    permutes_segments(&rt, &segments, &[2, 0, 1, 0, 1, 3, 0, 2, 1, 2], false);
    permutes_segments(&rt, &segments, &[2, 0, 1, 0, 1, 3, 0, 2, -1, 0], false);
}

/// Segments over the edges of chunks and of the blocks in them: each of 3,000 items that fall to 0, where the last begins one higher.
#[test]
fn tells_permutations_of_many_blocks(rt: HostRuntime) {
    let (alloc, mut meter) = (rt.alloc(), Meter::new());
    let lengths = vec![in alloc; 3_000i64; 200].expect(&rt, "memory");
    let mut starts = vec![in alloc; 2_999i64; 200].expect(&rt, "memory");
    let strides = vec![in alloc; -1i64; 200].expect(&rt, "memory");
    let segments = cut(&rt, alloc, &lengths);
    assert!(rt; segments.count() == starts.len() && starts.len() == strides.len());
    let falling = index(&Sequential, alloc, &mut meter, &starts, &strides, &segments);
    let falling = falling.expect(&rt, "memory");
    permutes_segments(&rt, &segments, &falling, true);
    starts[199] = 3_000;
    let beyond = index(&Sequential, alloc, &mut meter, &starts, &strides, &segments);
    let beyond = beyond.expect(&rt, "memory");
    permutes_segments(&rt, &segments, &beyond, false);
}

/// Asserts what both policies say of an index into a list of so many items.
fn has_places<R: Abort + Threads + Execution<Shared = R> + Sync>(
    rt: &R,
    index: &[i64],
    count: usize,
    wanted: bool,
) {
    for chunk in CHUNKS {
        let meter = Meter::with_chunk(chunk);
        assert!(rt;
            are_places_by(rt, &meter, index, count) == wanted,
            "chunk {chunk}"
        );
        assert!(rt;
            are_places_by(&Sequential, &meter, index, count) == wanted,
            "chunk {chunk}"
        );
    }
}

#[test]
fn tells_places(rt: HostRuntime) {
    has_places(&rt, &[9, 0, 3, 3, 8, 1, 0, 5, 5], 10, true);
    has_places(&rt, &[9, 0, 3, 3, 8, 1, 0, 5, 10], 10, false);
    has_places(&rt, &[9, 0, 3, 3, 8, 1, 0, 5, -1], 10, false);
    has_places(&rt, &[10, 0, 3, 3, 8, 1, 0, 5, 5], 10, false);
    has_places(&rt, &[0, 0], 0, false);
    has_places(&rt, &[], 0, true);
}

/// Asserts what both policies say of an index into segments of these lengths, of which each has as many indices as `BY` says.
fn lie_within<R: Abort + Alloc<A = Global> + Threads + Execution<Shared = R> + Sync>(
    rt: &R,
    index: &[i64],
    wanted: bool,
) {
    let (source, by) = (cut(rt, rt.alloc(), &LENGTHS), cut(rt, rt.alloc(), &BY));
    assert!(rt; source.count() == by.count() && by.total() == index.len());
    for chunk in CHUNKS {
        let meter = Meter::with_chunk(chunk);
        assert!(rt;
            in_range_by(rt, &meter, index, &source, &by) == wanted,
            "chunk {chunk}"
        );
        assert!(rt;
            in_range_by(&Sequential, &meter, index, &source, &by) == wanted,
            "chunk {chunk}"
        );
    }
}

const BY: [i64; 7] = [0, 2, 3, 0, 3, 0, 1];

#[test]
fn tells_places_of_segments(rt: HostRuntime) {
    lie_within(&rt, &[2, 0, 0, 0, 0, 3, 1, 1, 1], true);
    lie_within(&rt, &[2, 3, 0, 0, 0, 3, 1, 1, 1], false);
    lie_within(&rt, &[2, 0, 0, 0, 2, 3, 1, 1, 1], false);
    lie_within(&rt, &[2, 0, 0, 0, 0, 3, 1, 1, 2], false);
    lie_within(&rt, &[2, 0, 0, 0, 0, 3, 1, 1, -1], false);
}
