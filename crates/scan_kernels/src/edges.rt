//! The edges between the chunks of a list that is cut into segments, and in which segment the place behind each lies.

ghost use Rattle.std.specs.Prelude.{◌≡◌, ℕ, ◌+◌, ◌*◌, ◌<◌, ◌≤◌, ◌^◌, length, sum, take};
ghost use Rattle.scan_kernels.specs.Edges.{AreEdges, IsEdge, LiesIn};

/// A segment: its number, and the place where it begins.
#[derive(Clone, Copy)]
pub struct Segment {
    pub number: usize,
    pub begin: usize,
}

/// The first segment.
pub const FIRST: Segment = Segment {
    number: 0,
    begin: 0,
};

/// Where one chunk ends and the next begins.
#[derive(Clone, Copy)]
pub struct Edge {
    /// The first place of the next chunk.
    pub place: usize,
    /// The number of the segment in which that place lies.
    pub number: usize,
    /// Where that segment begins.
    pub begin: usize,
    /// Where it begins in the chunk before the edge, or that chunk's first place if it begins earlier.
    pub from: usize,
    /// Whether it begins behind that chunk's first place, so that nothing is carried through the chunk.
    pub began: bool,
}

/// An edge before the first place.
pub const NO_EDGE: Edge = Edge {
    place: 0,
    number: 0,
    begin: 0,
    from: 0,
    began: false,
};

/// The segment in which a place lies, sought from an earlier one on.
pub fn segment_of(lengths: &[usize], earlier: Segment, place: usize) -> Segment
    requires begin { earlier.begin ≡ sum (take earlier.number lengths.now) }
    requires behind { earlier.begin ≤ place }
    requires within { place < sum lengths.now }
    ensures { LiesIn lengths.now place result.number result.begin }
{
    let Segment {
        mut number,
        mut begin,
    } = earlier;
    while lengths[number] <= place - begin {
        begin += lengths[number];
        number += 1;
    }
    Segment { number, begin }
}

/// Finds the edges behind the first chunks of a size, in one pass over the lengths.
pub fn find_edges(lengths: &[usize], size: usize, edges: &mut [Edge])
    requires within { (k : ℕ) → k < length edges.old → (k + 1) * size < sum lengths.now }
    requires small { sum lengths.now < 2 ^ 64 }
    ensures { AreEdges lengths.now size edges.new }
{
    let mut segment = FIRST;
    for k in 0..edges.len() {
        let start = k * size;
        let place = start + size;
        segment = segment_of(lengths, segment, place);
        edges[k] = Edge {
            place,
            number: segment.number,
            begin: segment.begin,
            from: start.max(segment.begin),
            began: start < segment.begin,
        };
    }
}
