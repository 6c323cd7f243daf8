//! Two threads share one vector machine: each adds a vector of its own to a total that both write. What is printed is the
//! same, whatever calls of the one came between those of the other.
#![tactic(auto)]

ghost use Rattle.std.specs.Prelude.{◌≡◌, IfSome};
ghost use Rattle.combiner.specs.Standing.{IsIdle};

use combiner::{Caller, Shared};
use cvl_text::{Call, Reply};
use std::alloc::{Alloc, Global};
use std::io;
use std::sync::Wait;
use std::thread::{Threads, join};

/// The reply to the call of a line, once it was served. None where memory is refused.
fn ask<R: Alloc<A = Global> + Threads + Wait + Sync>(
    rt: &R,
    shared: &Shared,
    caller: &mut Caller,
    line: &str,
) -> Option<Reply>
    requires { (caller.old.machine ≡ shared.now) × IsIdle caller.old }
    ensures { (caller.new.machine ≡ shared.now) × IsIdle caller.new }
{
    let call = Call::read(rt.alloc(), line.as_bytes()).ok()?;
    let (_, reply) = shared.call(rt, rt.alloc(), caller, call).ok()?;
    Some(reply)
}

/// What each thread does, and whether all was done: `y0` is 0 1, `y1` is 1 1, and each is added to `total` a hundred times.
fn work<R: Alloc<A = Global> + Threads + Wait + Sync>(
    rt: &R,
    shared: &Shared,
    mut caller: Caller,
) -> (Caller, bool)
    requires { (caller.machine ≡ shared.now) × IsIdle caller }
    ensures { (result.0.machine ≡ shared.now) × IsIdle result.0 }
{
    let k = caller.number();
    let set = format!(in rt.alloc(); "y{k} = z {k} 1");
    let add = format!(in rt.alloc(); "total = add_wuz total y{k}");
    let (Ok(set), Ok(add)) = (set, add) else {
        return (caller, false);
    };
    let mut all_done = ask(rt, shared, &mut caller, &set).is_some();
    for _ in 0..100 {
        let added = ask(rt, shared, &mut caller, &add);
        all_done = all_done && added.is_some();
    }
    (caller, all_done)
}

/// Has the callers work, each in a thread of its own: the sum of the total's items, and a caller that has met the other.
fn work_both<R: Alloc<A = Global> + Threads + Wait + Sync>(
    rt: &R,
    shared: &Shared,
    mut first: Caller,
    second: Caller,
) -> Option<(i64, Caller)>
    requires first { (first.machine ≡ shared.now) × IsIdle first }
    requires second { (second.machine ≡ shared.now) × IsIdle second }
    ensures { IfSome result (λ done. done.1.machine ≡ shared.now) }
{
    ask(rt, shared, &mut first, "total = z 0 0")?;
    let ((mut first, true), (mut second, true)) = join(
        rt,
        move || -> (Caller, bool)
            requires { (first.machine ≡ shared.now) × IsIdle first }
            ensures { (result.0.machine ≡ shared.entry.now) × IsIdle result.0 }
        { work(rt, shared, first) },
        move || -> (Caller, bool)
            requires { (second.machine ≡ shared.now) × IsIdle second }
            ensures { (result.0.machine ≡ shared.entry.now) × IsIdle result.0 }
        { work(rt, shared, second) },
    ) else {
        return None;
    };
    shared.meet(&mut first, &mut second);
    let Reply::Int(sum) = ask(rt, shared, &mut second, "add_ruz total")? else {
        return None;
    };
    Some((sum, second))
}

/// Runs the two threads: the sum of the total's items, and how many calls the history has.
fn run<R: Alloc<A = Global> + Threads + Wait + Sync>(rt: &R) -> Option<(i64, usize)> {
    let (machine, mut callers) = Shared::new(rt.alloc(), 2, 1000).ok()?;
    let (second, first) = (callers.pop()?, callers.pop()?);
    let (sum, last) = work_both(rt, &machine, first, second)?;
    Some((sum, machine.close(last).ok()?.len()))
}

fn main(rt: HostRuntime) -> io::Result<()> {
    match run(&rt) {
        Some((sum, calls)) => println!(rt; "sum {sum}, history {calls}"),
        None => println!(rt; "not all was done"),
    }
}
