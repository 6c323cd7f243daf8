//! Calls whose arguments are names alone: the call of a word and its names.

ghost use Rattle.std.specs.Prelude.{◌≡◌, [], ◌∷◌, Some};
ghost use Rattle.cvl_text.specs.declared.word.Word.TheVariants.{Ask, One, Two, Three, BckSeg};
ghost use Rattle.cvl_text.specs.Lines.{Reads};
ghost use Rattle.cvl_text.specs.Named.{ask_call, one_call, two_call};
ghost use Rattle.cvl_text.specs.Tasks.{asking, into, task_of, vectors};

use crate::call::{Call, SegmentedIndex};
use crate::fault::ReadFault;
use crate::word::{AskWord, Kind, OneWord, ThreeWord, TwoWord};
use std::alloc::Global;
use vector_memory::Name;

/// The call of a word that stands first, and its name.
pub fn call_of_ask(word: AskWord, a: Name) -> Call
    ensures call { result ≡ ask_call word a }
    ensures task { task_of result ≡ asking (Ask word) (vectors (a ∷ [])) }
{
    match word {
        AskWord::Get => Call::Get { a },
        AskWord::Free => Call::Free { a },
        AskWord::Len => Call::Len { a },
        AskWord::RedZ(op) => Call::RedZ { op, a },
        AskWord::RedB(op) => Call::RedB { op, a },
    }
}

/// The call of a word behind `=` with one name behind it.
pub fn call_of_one(to: Name, word: OneWord, a: Name) -> Call
    ensures call { result ≡ one_call word to a }
    ensures task { task_of result ≡ into to (One word) (vectors (a ∷ [])) }
{
    match word {
        OneWord::Mov => Call::Mov { to, a },
        OneWord::MakeSegs => Call::MakeSegs { to, a },
        OneWord::LenSegs => Call::LenSegs { to, s: a },
        OneWord::MapZ1(op) => Call::MapZ1 { to, op, a },
        OneWord::MapB1(op) => Call::MapB1 { to, op, a },
        OneWord::Boo => Call::Boo { to, a },
        OneWord::IntOf => Call::IntOf { to, a },
        OneWord::ScanZ(op) => Call::ScanOfZ { to, op, a, s: None },
        OneWord::ScanB(op) => Call::ScanOfB { to, op, a, s: None },
    }
}

/// The call of a word behind `=` with two names behind it.
pub fn call_of_two(to: Name, word: TwoWord, a: Name, b: Name) -> Call
    ensures call { result ≡ two_call word to a b }
    ensures task { task_of result ≡ into to (Two word) (vectors (a ∷ b ∷ [])) }
{
    let s = Some(b);
    match word {
        TwoWord::MapZ2(op) => Call::MapZ2 { to, op, a, b },
        TwoWord::CmpZ(op) => Call::CmpZ { to, op, a, b },
        TwoWord::MapB2(op) => Call::MapB2 { to, op, a, b },
        TwoWord::ScanSegZ(op) => Call::ScanOfZ { to, op, a, s },
        TwoWord::ScanSegB(op) => Call::ScanOfB { to, op, a, s },
        TwoWord::RedSegZ(op) => Call::RedSegZ { to, op, a, s: b },
        TwoWord::RedSegB(op) => Call::RedSegB { to, op, a, s: b },
        TwoWord::DisSeg(kind) => Call::DisSeg { to, kind, a, s: b },
        TwoWord::Smp(kind) => Call::Smp { kind, to, a, i: b },
        TwoWord::Bck(kind) => Call::Bck { to, kind, a, i: b },
        TwoWord::Pck(kind) => Call::Pck { kind, to, a, f: b },
        TwoWord::Pkl => Call::Pkl { to, f: a, s: b },
    }
}

/// A name that lies behind a pointer.
fn further(alloc: Global, name: Name) -> Result<Box<Name>, ReadFault>
    ensures { Reads (λ b. b.value) result (Some name) }
{
    Box::new(alloc, name).map_err(|_| ReadFault::OutOfMemory)
}

pub(crate) fn call_of_three(
    alloc: Global,
    to: Name,
    word: ThreeWord,
    a: Name,
    b: Name,
    c: Name,
) -> Result<Call, ReadFault>
    ensures { Reads task_of result (Some (into to (Three word) (vectors (a ∷ b ∷ c ∷ [])))) }
{
    let c = further(alloc, c)?;
    Ok(match word {
        ThreeWord::Sel(kind) => Call::Sel {
            kind,
            to,
            f: a,
            a: b,
            b: c,
        },
        ThreeWord::IndSeg => Call::IndSeg { to, a, b, s: c },
        ThreeWord::SmpSeg(kind) => Call::SmpSeg {
            kind,
            to,
            a,
            i: b,
            s: c,
        },
        ThreeWord::PckSeg(kind) => Call::PckSeg {
            kind,
            to,
            a,
            f: b,
            s: c,
        },
    })
}

pub(crate) fn call_of_four(
    alloc: Global,
    to: Name,
    kind: Kind,
    a: Name,
    s: Name,
    i: Name,
    t: Name,
) -> Result<Call, ReadFault>
    ensures { Reads task_of result (Some (into to (BckSeg kind) (vectors (a ∷ s ∷ i ∷ t ∷ [])))) }
{
    let index = SegmentedIndex { i, t };
    let index = Box::new(alloc, index).map_err(|_| ReadFault::OutOfMemory)?;
    Ok(Call::BckSeg {
        kind,
        to,
        a,
        s,
        index,
    })
}
