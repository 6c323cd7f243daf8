//! Copies of calls. Each family has a function of its own, which makes places for its own calls alone: one for all of them
//! took a sixth of the time of a short call.

ghost use Rattle.std.specs.Prelude.{◌≡◌, IfOk, IsTrue, false};
ghost use Rattle.cvl_text.specs.Tasks.{task_of};
ghost use Rattle.call_history.specs.Owning.{is_owning};
ghost use Rattle.cvl_port.specs.Families.{is_map, is_move, is_plain, is_scan};

use call_history::is_owning;
use cvl_text::Call;
use std::alloc::Global;
use vector_memory::OutOfMemory;

/// A call that asks for the same, of one with nothing behind a pointer. It takes no memory.
#[inline(always)]
pub(crate) fn copy_flat(call: &Call) -> Call
    requires { is_owning call.now ≡ false }
    ensures { task_of result ≡ task_of call.now }
{
    match call {
        Call::MapZ2 { .. }
        | Call::MapZ1 { .. }
        | Call::CmpZ { .. }
        | Call::MapB2 { .. }
        | Call::MapB1 { .. }
        | Call::Boo { .. }
        | Call::IntOf { .. } => copy_map(call),
        Call::ScanOfZ { .. }
        | Call::ScanOfB { .. }
        | Call::RedZ { .. }
        | Call::RedB { .. }
        | Call::RedSegZ { .. }
        | Call::RedSegB { .. } => copy_scan(call),
        Call::DisZ { .. }
        | Call::DisB { .. }
        | Call::DisSeg { .. }
        | Call::Ind { .. }
        | Call::Smp { .. }
        | Call::Bck { .. }
        | Call::Pck { .. }
        | Call::Pkl { .. } => copy_move(call),
        Call::Get { .. }
        | Call::Mov { .. }
        | Call::Free { .. }
        | Call::Alo { .. }
        | Call::Len { .. }
        | Call::MakeSegs { .. }
        | Call::LenSegs { .. }
        | Call::Ext { .. }
        | Call::Rep { .. } => copy_plain(call),
        _ => unreachable!(),
    }
}

/// A call that asks for the same.
pub(crate) fn copy(alloc: Global, call: &Call) -> Result<Call, OutOfMemory>
    ensures { IfOk result (λ copy. task_of copy ≡ task_of call.now) }
{
    if is_owning(call) {
        return copy_owning(alloc, call);
    }
    Ok(copy_flat(call))
}

/// An elementwise call that asks for the same.
#[inline(never)]
fn copy_map(call: &Call) -> Call
    requires { IsTrue (is_map call.now) }
    ensures { task_of result ≡ task_of call.now }
{
    match call {
        Call::MapZ2 { op, to, a, b } => Call::MapZ2 {
            op: *op,
            to: *to,
            a: *a,
            b: *b,
        },
        Call::MapZ1 { op, to, a } => Call::MapZ1 {
            op: *op,
            to: *to,
            a: *a,
        },
        Call::CmpZ { op, to, a, b } => Call::CmpZ {
            op: *op,
            to: *to,
            a: *a,
            b: *b,
        },
        Call::MapB2 { op, to, a, b } => Call::MapB2 {
            op: *op,
            to: *to,
            a: *a,
            b: *b,
        },
        Call::MapB1 { op, to, a } => Call::MapB1 {
            op: *op,
            to: *to,
            a: *a,
        },
        Call::Boo { to, a } => Call::Boo { to: *to, a: *a },
        Call::IntOf { to, a } => Call::IntOf { to: *to, a: *a },
        _ => unreachable!(),
    }
}

/// A scan or a reduction that asks for the same.
#[inline(never)]
fn copy_scan(call: &Call) -> Call
    requires { IsTrue (is_scan call.now) }
    ensures { task_of result ≡ task_of call.now }
{
    match call {
        Call::ScanOfZ { op, to, a, s } => Call::ScanOfZ {
            op: *op,
            to: *to,
            a: *a,
            s: *s,
        },
        Call::ScanOfB { op, to, a, s } => Call::ScanOfB {
            op: *op,
            to: *to,
            a: *a,
            s: *s,
        },
        Call::RedZ { op, a } => Call::RedZ { op: *op, a: *a },
        Call::RedB { op, a } => Call::RedB { op: *op, a: *a },
        Call::RedSegZ { op, to, a, s } => Call::RedSegZ {
            op: *op,
            to: *to,
            a: *a,
            s: *s,
        },
        Call::RedSegB { op, to, a, s } => Call::RedSegB {
            op: *op,
            to: *to,
            a: *a,
            s: *s,
        },
        _ => unreachable!(),
    }
}

/// A call that distributes, counts up or moves items, and names no more than three, that asks for the same.
#[inline(never)]
fn copy_move(call: &Call) -> Call
    requires { IsTrue (is_move call.now) }
    ensures { task_of result ≡ task_of call.now }
{
    match call {
        Call::DisZ { to, x, n } => Call::DisZ {
            to: *to,
            x: *x,
            n: *n,
        },
        Call::DisB { to, x, n } => Call::DisB {
            to: *to,
            x: *x,
            n: *n,
        },
        Call::DisSeg { kind, to, a, s } => Call::DisSeg {
            kind: *kind,
            to: *to,
            a: *a,
            s: *s,
        },
        Call::Ind { to, u, v, n } => Call::Ind {
            to: *to,
            u: *u,
            v: *v,
            n: *n,
        },
        Call::Smp { kind, to, a, i } => Call::Smp {
            kind: *kind,
            to: *to,
            a: *a,
            i: *i,
        },
        Call::Bck { kind, to, a, i } => Call::Bck {
            kind: *kind,
            to: *to,
            a: *a,
            i: *i,
        },
        Call::Pck { kind, to, a, f } => Call::Pck {
            kind: *kind,
            to: *to,
            a: *a,
            f: *f,
        },
        Call::Pkl { to, f, s } => Call::Pkl {
            to: *to,
            f: *f,
            s: *s,
        },
        _ => unreachable!(),
    }
}

/// A call of another family, without items of its own, that asks for the same.
#[inline(never)]
fn copy_plain(call: &Call) -> Call
    requires { IsTrue (is_plain call.now) }
    ensures { task_of result ≡ task_of call.now }
{
    match call {
        Call::Get { a } => Call::Get { a: *a },
        Call::Mov { to, a } => Call::Mov { to: *to, a: *a },
        Call::Free { a } => Call::Free { a: *a },
        Call::Alo { to, n } => Call::Alo { to: *to, n: *n },
        Call::Len { a } => Call::Len { a: *a },
        Call::MakeSegs { to, a } => Call::MakeSegs { to: *to, a: *a },
        Call::LenSegs { to, s } => Call::LenSegs { to: *to, s: *s },
        Call::Ext { a, p } => Call::Ext { a: *a, p: *p },
        Call::Rep { to, a, p, x } => Call::Rep {
            to: *to,
            a: *a,
            p: *p,
            x: *x,
        },
        _ => unreachable!(),
    }
}

/// A call with items or names behind a pointer that asks for the same.
#[inline(never)]
fn copy_owning(alloc: Global, call: &Call) -> Result<Call, OutOfMemory>
    requires { IsTrue (is_owning call.now) }
    ensures { IfOk result (λ copy. task_of copy ≡ task_of call.now) }
{
    match call {
        Call::SetInts { to, items } => Ok(Call::SetInts {
            to: *to,
            items: items.clone()?,
        }),
        Call::SetBools { to, items } => Ok(Call::SetBools {
            to: *to,
            items: items.clone()?,
        }),
        Call::Sel { kind, to, f, a, b } => Ok(Call::Sel {
            kind: *kind,
            to: *to,
            f: *f,
            a: *a,
            b: Box::new(alloc, **b)?,
        }),
        Call::IndSeg { to, a, b, s } => Ok(Call::IndSeg {
            to: *to,
            a: *a,
            b: *b,
            s: Box::new(alloc, **s)?,
        }),
        Call::SmpSeg { kind, to, a, i, s } => Ok(Call::SmpSeg {
            kind: *kind,
            to: *to,
            a: *a,
            i: *i,
            s: Box::new(alloc, **s)?,
        }),
        Call::BckSeg {
            kind,
            to,
            a,
            s,
            index,
        } => Ok(Call::BckSeg {
            kind: *kind,
            to: *to,
            a: *a,
            s: *s,
            index: Box::new(alloc, **index)?,
        }),
        Call::PckSeg { kind, to, a, f, s } => Ok(Call::PckSeg {
            kind: *kind,
            to: *to,
            a: *a,
            f: *f,
            s: Box::new(alloc, **s)?,
        }),
        _ => unreachable!(),
    }
}
