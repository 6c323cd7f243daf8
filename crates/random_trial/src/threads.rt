//! Scripts by threads that share a machine, one for each caller.

ghost use Rattle.std.specs.Prelude.{◌≡◌, All, IfSome};
ghost use Rattle.combiner.specs.Standing.{IsIdle};

use crate::replay::{Told, is_told_right, note};
use crate::script::{CALLERS, Script};
use crate::texts::call_text;
use combiner::{Caller, Shared};
use cvl_text::Call;
use std::alloc::Global;
use std::sync::Wait;
use std::thread;
use std::thread::Threads;
use vector_memory::Edition;

/// A machine for the callers of a script, and one caller more, which opens and closes it.
fn machine(alloc: Global, room: u64, edition: Edition) -> Option<(Shared, Vec<Caller>, Caller)>
    ensures workers { IfSome result (λ m. All (λ c. (c.machine ≡ m.0) × IsIdle c) m.1.items) }
    ensures last { IfSome result (λ m. (m.2.machine ≡ m.0) × IsIdle m.2) }
{
    let (shared, mut callers) = Shared::with_edition(
        alloc,
        CALLERS as u64 + 1,
        room,
        edition,
    ).ok()?;
    let last = callers.pop()?;
    Some((shared, callers, last))
}

/// Calls what a line says, and notes what is told. None where the line is no call, too.
fn call_line(
    rt: &(impl Threads + Wait + Sync),
    alloc: Global,
    shared: &Shared,
    caller: &mut Caller,
    line: &str,
    told: &mut Vec<Told>,
) -> Option<()>
    requires machine { caller.old.machine ≡ shared.now }
    requires idle { IsIdle caller.old }
    ensures machine { caller.new.machine ≡ shared.now }
    ensures idle { IsIdle caller.new }
{
    let call = Call::read_in(alloc, line.as_bytes(), Edition::Two).ok()?;
    let text = call_text(alloc, &call)?;
    let (place, reply) = shared.call(rt, alloc, caller, call).ok()?;
    note(alloc, told, caller.number() as u64, text, place, &reply)
}

/// Calls what every so manyeth of these lines says, from this one on.
fn call_lines(
    rt: &(impl Threads + Wait + Sync),
    alloc: Global,
    shared: &Shared,
    caller: &mut Caller,
    lines: &str,
    first: usize,
    every: usize,
) -> Option<Vec<Told>>
    requires machine { caller.old.machine ≡ shared.now }
    requires idle { IsIdle caller.old }
    ensures machine { caller.new.machine ≡ shared.now }
{
    let mut told = Vec::new(alloc);
    for (i, line) in lines.lines().enumerate() {
        if i % every.max(1) == first {
            call_line(rt, alloc, shared, caller, line, &mut told)?;
        }
    }
    Some(told)
}

/// Has the callers call their lines, each in a thread of its own.
fn work<R: Threads + Wait + Sync>(
    rt: &R,
    alloc: Global,
    shared: &Shared,
    callers: Vec<Caller>,
    lines: &str,
) -> Option<Vec<Option<Vec<Told>>>>
    requires { All (λ c. (c.machine ≡ shared.now) × IsIdle c) callers.items }
{
    thread::map_vec(
        rt,
        callers,
        &|caller: Caller| -> Option<Vec<Told>>
            requires { (caller.machine ≡ shared.now) × IsIdle caller }
        {
            let mut caller = caller;
            let number = caller.number();
            call_lines(rt, alloc, shared, &mut caller, lines, number, CALLERS)
        },
    )
    .ok()
}

/// Adds what one caller was told.
fn add(told: &mut Vec<Told>, one: Option<Vec<Told>>) -> Option<()> {
    let mut one = one?;
    told.append(&mut one).ok()
}

/// Adds what each caller was told.
fn add_all(told: &mut Vec<Told>, parts: Vec<Option<Vec<Told>>>) -> Option<()> {
    for one in parts {
        add(told, one)?;
    }
    Some(())
}

/// Has the last caller call the opening of a script, and the others the calls behind it. What they are told.
fn call_script<R: Threads + Wait + Sync>(
    rt: &R,
    alloc: Global,
    shared: &Shared,
    callers: Vec<Caller>,
    last: &mut Caller,
    script: &Script,
) -> Option<Vec<Told>>
    requires workers { All (λ c. (c.machine ≡ shared.now) × IsIdle c) callers.items }
    requires machine { last.old.machine ≡ shared.now }
    requires idle { IsIdle last.old }
    ensures machine { last.new.machine ≡ shared.now }
{
    let mut told = call_lines(rt, alloc, shared, last, &script.opening, 0, 1)?;
    let parts = work(rt, alloc, shared, callers, &script.calls)?;
    add_all(&mut told, parts)?;
    Some(told)
}

/// Whether what the callers are told is borne out by the machine's book.
pub(crate) fn is_right<R: Threads + Wait + Sync>(
    rt: &R,
    alloc: Global,
    script: &Script,
) -> Option<bool> {
    let (shared, callers, mut last) = machine(alloc, script.room, script.edition)?;
    let told = call_script(rt, alloc, &shared, callers, &mut last, script)?;
    let book = shared.close(last).ok()?;
    is_told_right(alloc, &book, &told)
}
