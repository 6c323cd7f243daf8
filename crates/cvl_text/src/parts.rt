//! The parts of a call: its word, its target and the names that it reads.

ghost use Rattle.std.specs.Prelude.{◌≡◌, ◌≢◌, ◌↔◌, [], IsTrue};
ghost use Rattle.std.specs.Option.{option_map};
ghost use Rattle.cvl_text.specs.Tasks.{task_of, reads, target, four_of};
ghost use Rattle.cvl_text.specs.Names.{listed};

use crate::call::Call;
use crate::names::NamesRead;
use crate::word::{AskWord, OneWord, ThreeWord, TwoWord, Word};
use vector_memory::Name;

/// The word of a call: all of it but the names, the numbers and the items.
#[inline(always)]
pub fn call_word(call: &Call) -> Word
    ensures { result ≡ (task_of call.now).word }
{
    match call {
        Call::SetInts { .. } => Word::SetInts,
        Call::SetBools { .. } => Word::SetBools,
        Call::Get { .. } => Word::Ask(AskWord::Get),
        Call::Mov { .. } => Word::One(OneWord::Mov),
        Call::Free { .. } => Word::Ask(AskWord::Free),
        Call::Alo { .. } => Word::Alo,
        Call::Len { .. } => Word::Ask(AskWord::Len),
        Call::MakeSegs { .. } => Word::One(OneWord::MakeSegs),
        Call::LenSegs { .. } => Word::One(OneWord::LenSegs),
        Call::MapZ2 { op, .. } => Word::Two(TwoWord::MapZ2(*op)),
        Call::MapZ1 { op, .. } => Word::One(OneWord::MapZ1(*op)),
        Call::CmpZ { op, .. } => Word::Two(TwoWord::CmpZ(*op)),
        Call::MapB2 { op, .. } => Word::Two(TwoWord::MapB2(*op)),
        Call::MapB1 { op, .. } => Word::One(OneWord::MapB1(*op)),
        Call::Sel { kind, .. } => Word::Three(ThreeWord::Sel(*kind)),
        Call::Boo { .. } => Word::One(OneWord::Boo),
        Call::IntOf { .. } => Word::One(OneWord::IntOf),
        Call::ScanOfZ { op, s: None, .. } => Word::One(OneWord::ScanZ(*op)),
        Call::ScanOfZ { op, s: Some(_), .. } => Word::Two(TwoWord::ScanSegZ(*op)),
        Call::ScanOfB { op, s: None, .. } => Word::One(OneWord::ScanB(*op)),
        Call::ScanOfB { op, s: Some(_), .. } => Word::Two(TwoWord::ScanSegB(*op)),
        Call::RedZ { op, .. } => Word::Ask(AskWord::RedZ(*op)),
        Call::RedB { op, .. } => Word::Ask(AskWord::RedB(*op)),
        Call::RedSegZ { op, .. } => Word::Two(TwoWord::RedSegZ(*op)),
        Call::RedSegB { op, .. } => Word::Two(TwoWord::RedSegB(*op)),
        Call::DisZ { .. } => Word::DisZ,
        Call::DisB { .. } => Word::DisB,
        Call::DisSeg { kind, .. } => Word::Two(TwoWord::DisSeg(*kind)),
        Call::Ind { .. } => Word::Ind,
        Call::IndSeg { .. } => Word::Three(ThreeWord::IndSeg),
        Call::Smp { kind, .. } => Word::Two(TwoWord::Smp(*kind)),
        Call::SmpSeg { kind, .. } => Word::Three(ThreeWord::SmpSeg(*kind)),
        Call::Bck { kind, .. } => Word::Two(TwoWord::Bck(*kind)),
        Call::BckSeg { kind, .. } => Word::BckSeg(*kind),
        Call::Pck { kind, .. } => Word::Two(TwoWord::Pck(*kind)),
        Call::PckSeg { kind, .. } => Word::Three(ThreeWord::PckSeg(*kind)),
        Call::Pkl { .. } => Word::Two(TwoWord::Pkl),
        Call::Ext { .. } => Word::Ext,
        Call::Rep { .. } => Word::Rep,
    }
}

/// The name that a call writes or frees; none where it only replies.
pub fn target(call: &Call) -> Option<Name>
    ensures { result ≡ target (task_of call.now) }
{
    lent_target(call).copied()
}

/// The name that a call writes or frees, lent from it.
#[inline]
fn lent_target(call: &Call) -> Option<&Name>
    ensures { option_map (λ name. name.now) result ≡ target (task_of call.now) }
{
    match call {
        Call::SetInts { to, .. } => Some(to),
        Call::SetBools { to, .. } => Some(to),
        Call::Get { .. } => None,
        Call::Mov { to, .. } => Some(to),
        Call::Free { a } => Some(a),
        Call::Alo { to, .. } => Some(to),
        Call::Len { .. } => None,
        Call::MakeSegs { to, .. } => Some(to),
        Call::LenSegs { to, .. } => Some(to),
        Call::MapZ2 { to, .. } => Some(to),
        Call::MapZ1 { to, .. } => Some(to),
        Call::CmpZ { to, .. } => Some(to),
        Call::MapB2 { to, .. } => Some(to),
        Call::MapB1 { to, .. } => Some(to),
        Call::Sel { to, .. } => Some(to),
        Call::Boo { to, .. } => Some(to),
        Call::IntOf { to, .. } => Some(to),
        Call::ScanOfZ { to, .. } => Some(to),
        Call::ScanOfB { to, .. } => Some(to),
        Call::RedZ { .. } => None,
        Call::RedB { .. } => None,
        Call::RedSegZ { to, .. } => Some(to),
        Call::RedSegB { to, .. } => Some(to),
        Call::DisZ { to, .. } => Some(to),
        Call::DisB { to, .. } => Some(to),
        Call::DisSeg { to, .. } => Some(to),
        Call::Ind { to, .. } => Some(to),
        Call::IndSeg { to, .. } => Some(to),
        Call::Smp { to, .. } => Some(to),
        Call::SmpSeg { to, .. } => Some(to),
        Call::Bck { to, .. } => Some(to),
        Call::BckSeg { to, .. } => Some(to),
        Call::Pck { to, .. } => Some(to),
        Call::PckSeg { to, .. } => Some(to),
        Call::Pkl { to, .. } => Some(to),
        Call::Ext { .. } => None,
        Call::Rep { to, .. } => Some(to),
    }
}

/// The names that a call reads, lent from it, from left to right. A name that is read twice stands twice.
#[inline]
pub fn names_read(call: &Call) -> NamesRead<'_>
    ensures { listed result ≡ reads (task_of call.now) }
{
    match call {
        Call::SetInts { .. } => NamesRead::Zero,
        Call::SetBools { .. } => NamesRead::Zero,
        Call::Get { a } => NamesRead::One(a),
        Call::Mov { a, .. } => NamesRead::One(a),
        Call::Free { a } => NamesRead::One(a),
        Call::Alo { .. } => NamesRead::Zero,
        Call::Len { a } => NamesRead::One(a),
        Call::MakeSegs { a, .. } => NamesRead::One(a),
        Call::LenSegs { s, .. } => NamesRead::One(s),
        Call::MapZ2 { a, b, .. } => NamesRead::Two(a, b),
        Call::MapZ1 { a, .. } => NamesRead::One(a),
        Call::CmpZ { a, b, .. } => NamesRead::Two(a, b),
        Call::MapB2 { a, b, .. } => NamesRead::Two(a, b),
        Call::MapB1 { a, .. } => NamesRead::One(a),
        Call::Sel { f, a, b, .. } => NamesRead::Three(f, a, b),
        Call::Boo { a, .. } => NamesRead::One(a),
        Call::IntOf { a, .. } => NamesRead::One(a),
        Call::ScanOfZ { a, s: None, .. } => NamesRead::One(a),
        Call::ScanOfZ { a, s: Some(s), .. } => NamesRead::Two(a, s),
        Call::ScanOfB { a, s: None, .. } => NamesRead::One(a),
        Call::ScanOfB { a, s: Some(s), .. } => NamesRead::Two(a, s),
        Call::RedZ { a, .. } => NamesRead::One(a),
        Call::RedB { a, .. } => NamesRead::One(a),
        Call::RedSegZ { a, s, .. } => NamesRead::Two(a, s),
        Call::RedSegB { a, s, .. } => NamesRead::Two(a, s),
        Call::DisZ { .. } => NamesRead::Zero,
        Call::DisB { .. } => NamesRead::Zero,
        Call::DisSeg { a, s, .. } => NamesRead::Two(a, s),
        Call::Ind { .. } => NamesRead::Zero,
        Call::IndSeg { a, b, s, .. } => NamesRead::Three(a, b, s),
        Call::Smp { a, i, .. } => NamesRead::Two(a, i),
        Call::SmpSeg { a, i, s, .. } => NamesRead::Three(a, i, s),
        Call::Bck { a, i, .. } => NamesRead::Two(a, i),
        Call::BckSeg { a, s, index, .. } => NamesRead::Four(a, s, &index.i, &index.t),
        Call::Pck { a, f, .. } => NamesRead::Two(a, f),
        Call::PckSeg { a, f, s, .. } => NamesRead::Three(a, f, s),
        Call::Pkl { f, s, .. } => NamesRead::Two(f, s),
        Call::Ext { a, .. } => NamesRead::One(a),
        Call::Rep { a, .. } => NamesRead::One(a),
    }
}

/// Whether two calls read a name, and both the same names in the same order.
#[inline(always)]
pub fn read_the_same(one: &Call, other: &Call) -> bool
    ensures { IsTrue result ↔ ((reads (task_of one.now) ≢ []) × (reads (task_of one.now) ≡ reads (task_of other.now))) }
{
    match (names_read(one), names_read(other)) {
        (NamesRead::One(a), NamesRead::One(x)) => *a == *x,
        (NamesRead::Two(a, b), NamesRead::Two(x, y)) => *a == *x && *b == *y,
        (NamesRead::Three(a, b, c), NamesRead::Three(x, y, z)) => {
            *a == *x && *b == *y && *c == *z
        }
        (NamesRead::Four(a, b, c, d), NamesRead::Four(w, x, y, z)) => {
            *a == *w && *b == *x && *c == *y && *d == *z
        }
        _ => false,
    }
}

/// The names that a call reads, from left to right, and None after them. A name that is read twice stands twice.
pub fn reads(call: &Call) -> [Option<Name>; 4]
    ensures { result ≡ four_of (reads (task_of call.now)) }
{
    match names_read(call) {
        NamesRead::Zero => [None, None, None, None],
        NamesRead::One(a) => [Some(*a), None, None, None],
        NamesRead::Two(a, b) => [Some(*a), Some(*b), None, None],
        NamesRead::Three(a, b, c) => [Some(*a), Some(*b), Some(*c), None],
        NamesRead::Four(a, b, c, d) => [Some(*a), Some(*b), Some(*c), Some(*d)],
    }
}
