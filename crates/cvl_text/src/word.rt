//! Call words, by what stands behind them.

pub use item_operations::{B1, B2, Cmp, ScanB, ScanZ, Z1, Z2};

/// A type of items: integers, or truth values.
#[derive(Clone, Copy, Debug, PartialEq, Eq)]
pub enum Kind {
    Z,
    B,
}

/// A call word that stands first, with one name behind it.
#[derive(Clone, Copy, Debug, PartialEq, Eq)]
pub enum AskWord {
    Get,
    Free,
    Len,
    RedZ(ScanZ),
    RedB(ScanB),
}

/// A call word behind `=`, with one name behind it.
#[derive(Clone, Copy, Debug, PartialEq, Eq)]
pub enum OneWord {
    Mov,
    MakeSegs,
    LenSegs,
    MapZ1(Z1),
    MapB1(B1),
    Boo,
    IntOf,
    ScanZ(ScanZ),
    ScanB(ScanB),
}

/// A call word behind `=`, with two names behind it.
#[derive(Clone, Copy, Debug, PartialEq, Eq)]
pub enum TwoWord {
    MapZ2(Z2),
    CmpZ(Cmp),
    MapB2(B2),
    ScanSegZ(ScanZ),
    ScanSegB(ScanB),
    RedSegZ(ScanZ),
    RedSegB(ScanB),
    DisSeg(Kind),
    Smp(Kind),
    Bck(Kind),
    Pck(Kind),
    Pkl,
}

/// A call word behind `=`, with three names behind it.
#[derive(Clone, Copy, Debug, PartialEq, Eq)]
pub enum ThreeWord {
    Sel(Kind),
    IndSeg,
    SmpSeg(Kind),
    PckSeg(Kind),
}

/// What a line calls for: a call word, or one of the two forms of set.
#[derive(Clone, Copy, Debug, PartialEq, Eq)]
pub enum Word {
    SetInts,
    SetBools,
    Ask(AskWord),
    One(OneWord),
    Two(TwoWord),
    Three(ThreeWord),
    /// Four names.
    BckSeg(Kind),
    /// A number.
    Alo,
    /// Two numbers.
    DisZ,
    /// A truth value and a number.
    DisB,
    /// Three numbers.
    Ind,
    /// A name and a number, with no target.
    Ext,
    /// A name and two numbers.
    Rep,
}
