//! Batches with long results, which are written over what lies at their targets, or cannot be, beside the same calls one by one, and how
//! many bytes are kept for joined runs: a batch that writes over its targets leaves what is kept as it is.

use crate::alone::come_to_the_same;
use crate::asking::book_of;
use crate::kept::bytes;
use scan_kernels::DEFAULT_CHUNK;

const BEFORE: &str =
    "a = dis_vuz 3 20000\nb = dis_vuz 4 20000\nc = dis_vuz 5 18000\ni = ind_luz 19999 -1 20000\n\
    x0 = dis_vuz 0 20000\nx1 = dis_vuz 0 20000\nx2 = dis_vuz 0 20000\ne = z\n";

/// The calls of a batch, and how many bytes are kept for joined runs when it is done.
const BATCHES: &[(&str, usize)] = &[
    // Nothing is kept before.
    ("x0 = add_wuz a b\nx1 = add_wuz a b", 320_000),
    // Over the targets.
    (
        "x0 = mul_wuz a b\nx1 = mul_wuz b b\nx2 = mul_wuz i i",
        320_000,
    ),
    // Two calls have one target.
    (
        "x0 = sub_wuz a b\nx0 = sub_wuz b i\nx2 = sub_wuz i b",
        480_000,
    ),
    // A call reads the target of a later one, and one its own.
    ("x0 = max_wuz a x1\nx1 = max_wuz a i", 480_000),
    ("x0 = add_wuz i b\nx1 = add_wuz x1 i", 480_000),
    // A target is new, and then it is there.
    (
        "x0 = add_suz a\nx1 = add_suz b\nx2 = add_suz i\nx3 = add_suz a",
        480_000,
    ),
    (
        "x0 = max_suz i\nx1 = max_suz b\nx2 = max_suz a\nx3 = max_suz a",
        480_000,
    ),
    // A result has another number of items, and none.
    ("x0 = add_wuz c c\nx1 = add_wuz a b", 480_000),
    ("x0 = cpy_wuz i\nx1 = cpy_wuz e\nx2 = cpy_wuz b", 624_000),
];

#[test]
fn writes_over_the_targets(rt: HostRuntime) {
    let mut one = book_of(&rt, rt.alloc(), 400_000, BEFORE);
    let mut other = book_of(&rt, rt.alloc(), 400_000, BEFORE);
    for &(calls, kept) in BATCHES {
        let ran = come_to_the_same(&rt, rt.alloc(), &mut one, &mut other, DEFAULT_CHUNK, calls);
        assert!(rt; ran.waves == 1, "{calls}");
        assert!(rt; ran.kernels == 1, "{calls}");
        assert_eq!(rt; bytes(&mut one), kept, "{calls}");
    }
}
