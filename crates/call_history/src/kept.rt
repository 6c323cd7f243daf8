//! Calls as a history keeps them: in few bytes where their names are short and few, as in most.

ghost use Rattle.std.specs.Prelude.{◌≡◌, ◌≤◌, None, IfSome, IsTrue, false, length};
ghost use Rattle.cvl_text.specs.Named.{ask_call, one_call, two_call};
ghost use Rattle.cvl_calls.specs.Runs.{has_own_step};
ghost use Rattle.cvl_text.specs.Tasks.{task_of};
ghost use Rattle.call_history.specs.Kept.{FitsFew, IsBrief, call_of, is_named, is_whole};

use cvl_text::{AskWord, Call, OneWord, TwoWord, call_of_ask, call_of_one, call_of_two};
use vector_memory::{Name, ShortName};

/// A call as a history keeps it: by its names in one word each, or else the place where it lies whole.
#[derive(Clone, Copy)]
pub(crate) enum Kept {
    Ask {
        word: AskWord,
        a: ShortName,
    },
    One {
        word: OneWord,
        to: ShortName,
        a: ShortName,
    },
    Two {
        word: TwoWord,
        to: ShortName,
        a: ShortName,
        b: ShortName,
    },
    Alo {
        to: ShortName,
        n: i64,
    },
    DisZ {
        to: ShortName,
        x: i64,
        n: i64,
    },
    DisB {
        to: ShortName,
        x: bool,
        n: i64,
    },
    Ext {
        a: ShortName,
        p: i64,
    },
    /// The call of this number among those that lie whole.
    Whole {
        place: usize,
    },
}

/// A row of a history is this, with caller and ticket.
const _: () = prove!(size_of::<Kept>() == 32);

/// A call that only replies, if its name is short.
fn ask(word: AskWord, a: &Name) -> Option<Kept>
    ensures brief { IfSome result (IsBrief (ask_call word a.now)) }
    ensures long { result ≡ None → length a.now ≤ 12 → ⊥ }
{
    let a = a.short()?;
    Some(Kept::Ask { word, a })
}

/// A call of one operand, if its names are short.
fn one(word: OneWord, to: &Name, a: &Name) -> Option<Kept>
    ensures brief { IfSome result (IsBrief (one_call word to.now a.now)) }
    ensures long { result ≡ None → length to.now ≤ 12 → length a.now ≤ 12 → ⊥ }
{
    let (to, a) = (to.short()?, a.short()?);
    Some(Kept::One { word, to, a })
}

/// A call of two operands, if its names are short.
fn two(word: TwoWord, to: &Name, a: &Name, b: &Name) -> Option<Kept>
    ensures brief { IfSome result (IsBrief (two_call word to.now a.now b.now)) }
    ensures long { result ≡ None → length to.now ≤ 12 → length a.now ≤ 12 → length b.now ≤ 12 → ⊥ }
{
    let (to, a, b) = (to.short()?, a.short()?, b.short()?);
    Some(Kept::Two { word, to, a, b })
}

/// A call with numbers, if its names are short and few.
#[inline(never)]
fn numbered(call: &Call) -> Option<Kept>
    requires { is_named (task_of call.now).word ≡ false }
    ensures brief { IfSome result (IsBrief call.now) }
    ensures long { result ≡ None → FitsFew (task_of call.now) → ⊥ }
{
    match call {
        Call::Alo { to, n } => {
            let (to, n) = (to.short()?, *n);
            Some(Kept::Alo { to, n })
        }
        Call::DisZ { to, x, n } => {
            let (to, x, n) = (to.short()?, *x, *n);
            Some(Kept::DisZ { to, x, n })
        }
        Call::DisB { to, x, n } => {
            let (to, x, n) = (to.short()?, *x, *n);
            Some(Kept::DisB { to, x, n })
        }
        Call::Ext { a, p } => {
            let (a, p) = (a.short()?, *p);
            Some(Kept::Ext { a, p })
        }
        _ => None,
    }
}

/// `brief` of a call that has a step of its own.
#[inline(always)]
pub(crate) fn own_brief(call: &Call) -> Option<Kept>
    requires { IsTrue (has_own_step (task_of call.now).word) }
    ensures brief { IfSome result (IsBrief call.now) }
    ensures long { result ≡ None → FitsFew (task_of call.now) → ⊥ }
{
    match call {
        Call::MapZ2 { op, to, a, b } => two(TwoWord::MapZ2(*op), to, a, b),
        Call::MapZ1 { op, to, a } => one(OneWord::MapZ1(*op), to, a),
        Call::ScanOfZ { op, to, a, s: None } => one(OneWord::ScanZ(*op), to, a),
        _ => unreachable!(),
    }
}

/// The call in few bytes, if it has at most three names and numbers, each name is short, and it has no items of its own.
#[inline(always)]
pub(crate) fn brief(call: &Call) -> Option<Kept>
    ensures brief { IfSome result (IsBrief call.now) }
    ensures long { result ≡ None → FitsFew (task_of call.now) → ⊥ }
{
    match call {
        Call::Get { a } => ask(AskWord::Get, a),
        Call::Free { a } => ask(AskWord::Free, a),
        Call::Len { a } => ask(AskWord::Len, a),
        Call::RedZ { op, a } => ask(AskWord::RedZ(*op), a),
        Call::RedB { op, a } => ask(AskWord::RedB(*op), a),
        Call::Mov { to, a } => one(OneWord::Mov, to, a),
        Call::MakeSegs { to, a } => one(OneWord::MakeSegs, to, a),
        Call::LenSegs { to, s } => one(OneWord::LenSegs, to, s),
        Call::MapZ1 { op, to, a } => one(OneWord::MapZ1(*op), to, a),
        Call::MapB1 { op, to, a } => one(OneWord::MapB1(*op), to, a),
        Call::Boo { to, a } => one(OneWord::Boo, to, a),
        Call::IntOf { to, a } => one(OneWord::IntOf, to, a),
        Call::ScanOfZ { op, to, a, s: None } => one(OneWord::ScanZ(*op), to, a),
        Call::ScanOfZ {
            op,
            to,
            a,
            s: Some(s),
        } => two(TwoWord::ScanSegZ(*op), to, a, s),
        Call::ScanOfB { op, to, a, s: None } => one(OneWord::ScanB(*op), to, a),
        Call::ScanOfB {
            op,
            to,
            a,
            s: Some(s),
        } => two(TwoWord::ScanSegB(*op), to, a, s),
        Call::MapZ2 { op, to, a, b } => two(TwoWord::MapZ2(*op), to, a, b),
        Call::CmpZ { op, to, a, b } => two(TwoWord::CmpZ(*op), to, a, b),
        Call::MapB2 { op, to, a, b } => two(TwoWord::MapB2(*op), to, a, b),
        Call::RedSegZ { op, to, a, s } => two(TwoWord::RedSegZ(*op), to, a, s),
        Call::RedSegB { op, to, a, s } => two(TwoWord::RedSegB(*op), to, a, s),
        Call::DisSeg { kind, to, a, s } => two(TwoWord::DisSeg(*kind), to, a, s),
        Call::Smp { kind, to, a, i } => two(TwoWord::Smp(*kind), to, a, i),
        Call::Bck { kind, to, a, i } => two(TwoWord::Bck(*kind), to, a, i),
        Call::Pck { kind, to, a, f } => two(TwoWord::Pck(*kind), to, a, f),
        Call::Pkl { to, f, s } => two(TwoWord::Pkl, to, f, s),
        _ => numbered(call),
    }
}

/// The call again, of one that does not lie whole.
pub(crate) fn call_again(kept: Kept) -> Call
    requires { is_whole kept ≡ false }
    ensures { result ≡ call_of kept }
{
    match kept {
        Kept::Ask { word, a } => call_of_ask(word, a.name()),
        Kept::One { word, to, a } => call_of_one(to.name(), word, a.name()),
        Kept::Two { word, to, a, b } => call_of_two(to.name(), word, a.name(), b.name()),
        Kept::Alo { to, n } => Call::Alo { to: to.name(), n },
        Kept::DisZ { to, x, n } => Call::DisZ {
            to: to.name(),
            x,
            n,
        },
        Kept::DisB { to, x, n } => Call::DisB {
            to: to.name(),
            x,
            n,
        },
        Kept::Ext { a, p } => Call::Ext { a: a.name(), p },
        Kept::Whole { .. } => unreachable!(),
    }
}
