use crate::operands::Vector;
use cvl_text::{B1, B2, Cmp, ScanB, ScanZ, Z1, Z2};
use segment_desc::Segd;
use vector_memory::Value;

/// A call in which no fault was found: what is left to be done, with its operation and its operands, lent from the call and
/// from the memory. A variant has the name of what `run` makes.
#[derive(Clone, Copy)]
pub enum Judged<'a> {
    /// The integers of a line.
    SetInts(&'a [i64]),
    /// The truth values of a line.
    SetBools(&'a [bool]),
    /// A value, to be replied.
    Get(&'a Value),
    /// A value, to be stored as well.
    Mov(&'a Value),
    /// The target goes.
    Free,
    /// So many zeros.
    Alo(usize),
    /// The number of items, to be replied.
    Len(i64),
    /// Lengths, with their sum.
    MakeSegs(&'a [i64], usize),
    /// A segment list, whose lengths are wanted.
    LenSegs(&'a Segd),
    MapInts(Z2, &'a [i64], &'a [i64]),
    Compare(Cmp, &'a [i64], &'a [i64]),
    MapBools(B2, &'a [bool], &'a [bool]),
    AlterInts(Z1, &'a [i64]),
    AlterBools(B1, &'a [bool]),
    TruthsOf(&'a [i64]),
    NumbersOf(&'a [bool]),
    /// The flags, and the items where they are set and where they are not.
    SelectInts(&'a [bool], &'a [i64], &'a [i64]),
    SelectBools(&'a [bool], &'a [bool], &'a [bool]),
    ScanInts(ScanZ, &'a [i64]),
    ScanBools(ScanB, &'a [bool]),
    ScanIntSegments(ScanZ, &'a [i64], &'a Segd),
    ScanBoolSegments(ScanB, &'a [bool], &'a Segd),
    /// All items, to be replied as one.
    ReduceInts(ScanZ, &'a [i64]),
    ReduceBools(ScanB, &'a [bool]),
    ReduceIntSegments(ScanZ, &'a [i64], &'a Segd),
    ReduceBoolSegments(ScanB, &'a [bool], &'a Segd),
    /// An item, and how often it stands.
    RepeatInt(i64, usize),
    RepeatBool(bool, usize),
    Distribute(Vector<'a>, &'a Segd),
    /// The first number, the step, and how many there are.
    Index(i64, i64, usize),
    /// The first number and the step of each segment.
    IndexSegments(&'a [i64], &'a [i64], &'a Segd),
    /// The items, and the place that each goes to.
    Permute(Vector<'a>, &'a [i64]),
    PermuteSegments(Vector<'a>, &'a [i64], &'a Segd),
    /// The items, and the places that are read.
    Gather(Vector<'a>, &'a [i64]),
    /// The items, their segments, the places that are read, and the segments of these.
    GatherSegments(Vector<'a>, &'a Segd, &'a [i64], &'a Segd),
    /// The items, and which are kept.
    Pack(Vector<'a>, &'a [bool]),
    PackSegments(Vector<'a>, &'a [bool], &'a Segd),
    PackLengths(&'a [bool], &'a Segd),
    /// The item that is there, to be replied.
    Ext(i64),
    /// The items, a place of theirs, and the item that it gets.
    Rep(&'a [i64], usize, i64),
}
