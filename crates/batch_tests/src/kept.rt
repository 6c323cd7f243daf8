//! Batches whose results take vectors that were kept for joined runs, of their length or of another, beside the same calls one by
//! one, and how many bytes are kept.

use crate::alone::come_to_the_same;
use crate::asking::book_of;
use call_history::Book;
use scan_kernels::DEFAULT_CHUNK;

const BEFORE: &str = "a = dis_vuz 3 1500\nb = dis_vuz 4 1500\nc = dis_vuz 5 1200\nf = les_wuz a b\n\
    x0 = dis_vuz 0 1500\nx1 = dis_vuz 0 1200\nx2 = dis_vuz 0 1500\nu = z 1\nv = z 2 3\n";

/// The calls of a batch, and how many bytes are kept for joined runs when it is done: what was replaced, and no result took.
const BATCHES: &[(&str, usize)] = &[
    (
        "x0 = add_wuz a b\nx1 = add_wuz a b\nx2 = add_wuz c c\nx3 = add_wuz a b",
        33_600,
    ),
    (
        "x0 = mul_wuz a b\nx1 = mul_wuz c c\nx2 = mul_wuz a b\nx3 = mul_wuz a b",
        45_600,
    ),
    ("y0 = not_wub f\ny1 = not_wub f", 45_600),
    ("y0 = not_wub y1\ny1 = not_wub f\ny2 = not_wub f", 48_600),
    ("u = cpy_wuz v\nv = cpy_wuz v", 48_624),
    ("u = cpy_wuz v\nv = cpy_wuz v", 48_640),
];

/// How many bytes the book keeps for joined runs.
pub(crate) fn bytes(book: &mut Book) -> usize {
    let shelves = book.take_shelves();
    let bytes = shelves.bytes();
    book.put_shelves(shelves);
    bytes
}

#[test]
fn takes_what_was_replaced(rt: HostRuntime) {
    let mut one = book_of(&rt, rt.alloc(), 100_000, BEFORE);
    let mut other = book_of(&rt, rt.alloc(), 100_000, BEFORE);
    for &(calls, kept) in BATCHES {
        let ran = come_to_the_same(&rt, rt.alloc(), &mut one, &mut other, DEFAULT_CHUNK, calls);
        assert!(rt; ran.waves == 1, "{calls}");
        assert_eq!(rt; bytes(&mut one), kept);
    }
}
