//! Passes and machines of which a growth is refused. `refused/calls.sh` runs these tests once for each growth between the lines
//! `begin` and `end`, and has it refused. By themselves the tests see none refused.

ghost use Rattle.std.specs.Prelude.{◌≡◌};

use crate::asking::{posts, read, serves};
use crate::table::three;
use combiner::{Caller, Combined, MakeFault, Polled, Shared};
use cvl_text::{Call, call_word, target};
use scan_kernels::Sequential;
use std::alloc::{Alloc, Global};
use std::process::Abort;

/// From here on growths are counted.
pub(crate) fn begin(rt: &(impl Abort + Print)) {
    println!(rt; "begin").expect(rt, "no output");
}

/// And up to here.
pub(crate) fn end(rt: &(impl Abort + Print)) {
    println!(rt; "end").expect(rt, "no output");
}

/// Whether this call, or one of its word and target, came back.
fn is_back(polled: &Polled, call: &Call) -> bool {
    matches!(polled, Polled::OutOfMemory(back) if call_word(back) == call_word(call) && target(back) == target(call))
}

/// Whether the call of this line was answered. If not, it must have come back, and be this call.
fn is_answered(
    rt: &impl Abort,
    alloc: Global,
    shared: &Shared,
    caller: &mut Caller,
    line: &str,
) -> bool
    requires { caller.old.machine ≡ shared.now }
    ensures { caller.new.machine ≡ shared.now }
{
    let call = read(rt, alloc, line.as_bytes());
    let polled = shared.poll(caller);
    let answered = matches!(&polled, Polled::Answered { .. });
    assert!(rt;
        answered || is_back(&polled, &call),
        "neither answered nor back"
    );
    answered
}

/// How a pass served the calls that were left: how many, in how many waves, by how many kernel runs.
fn serve<R: Abort + Alloc<A = Global> + Print>(
    rt: &R,
    shared: &Shared,
    caller: &mut Caller,
) -> (u64, u64, u64)
    requires { caller.old.machine ≡ shared.now }
    ensures { caller.new.machine ≡ shared.now }
{
    begin(rt);
    let combined = shared.combine(&Sequential, rt.alloc(), caller);
    end(rt);
    let Combined::Served {
        calls,
        waves,
        kernels,
    } = combined
    else {
        panic!(rt; "busy");
    };
    (calls, waves, kernels)
}

/// Runs the calls of these lines, each before the next is left. Each must be answered.
fn run_all<R: Abort + Alloc<A = Global>>(
    rt: &R,
    shared: &Shared,
    caller: &mut Caller,
    lines: &[&str],
)
    requires { caller.old.machine ≡ shared.now }
    ensures { caller.new.machine ≡ shared.now }
{
    for line in lines {
        assert!(rt; posts(rt, rt.alloc(), shared, caller, line.as_bytes()));
        assert!(rt; serves(rt, rt.alloc(), shared, caller, (1, 1, 0)));
        assert!(rt; is_answered(rt, rt.alloc(), shared, caller, line));
    }
}

/// How a pass served the calls of three callers, and how many of them came back. The second serves.
fn serve_three<R: Abort + Alloc<A = Global> + Print>(
    rt: &R,
    shared: &Shared,
    first: &mut Caller,
    second: &mut Caller,
    third: &mut Caller,
    lines: [&str; 3],
) -> ((u64, u64, u64), usize)
    requires first { first.old.machine ≡ shared.now }
    requires second { second.old.machine ≡ shared.now }
    requires third { third.old.machine ≡ shared.now }
    ensures third { third.new.machine ≡ shared.now }
{
    assert!(rt; posts(rt, rt.alloc(), shared, first, lines[0].as_bytes()));
    assert!(rt; posts(rt, rt.alloc(), shared, second, lines[1].as_bytes()));
    assert!(rt; posts(rt, rt.alloc(), shared, third, lines[2].as_bytes()));
    let served = serve(rt, shared, second);
    let answered = [
        is_answered(rt, rt.alloc(), shared, first, lines[0]),
        is_answered(rt, rt.alloc(), shared, second, lines[1]),
        is_answered(rt, rt.alloc(), shared, third, lines[2]),
    ];
    (served, answered.iter().filter(|told| !**told).count())
}

/// Three callers leave these calls, and the second serves them behind those of `before`. Asserts that at most one of them comes
/// back, or all do and nothing was run, that the machine goes on, and that its book is right. Prints how they were served.
fn serves_the_others<R: Abort + Alloc<A = Global> + Print>(
    rt: &R,
    before: &[&str],
    lines: [&str; 3],
) {
    let (shared, mut first, mut second, mut third) = three(rt, rt.alloc(), 100);
    run_all(rt, &shared, &mut first, before);
    let (served, back) = serve_three(rt, &shared, &mut first, &mut second, &mut third, lines);
    let (calls, waves, kernels) = served;
    assert!(rt; calls == 3 && (back <= 1 || back == 3 && waves == 0 && kernels == 0));
    assert!(rt; serves(rt, rt.alloc(), &shared, &mut third, (0, 0, 0)));
    let book = shared.close(third).expect(rt, "no book");
    assert!(rt; book.len() + back == before.len() + 3);
    assert!(rt; book.audit(&Sequential, rt.alloc()) == Ok(true));
    println!(rt; "{waves} waves, {kernels} kernels, {back} back").expect(rt, "no output");
}

#[test]
fn joins_with_an_empty_vector(rt: HostRuntime) {
    serves_the_others(
        &rt,
        &["e = z", "a = z 1 2 3", "b = z 10 20 30"],
        ["p = add_wuz e e", "q = add_wuz a b", "len_fov a"],
    )
}

#[test]
fn reads_what_the_wave_writes(rt: HostRuntime) {
    serves_the_others(
        &rt,
        &["a = z 5", "b = z 1"],
        ["b = add_wuz a a", "get b", "c = add_wuz b b"],
    )
}

#[test]
fn reads_before_the_wave_writes(rt: HostRuntime) {
    serves_the_others(
        &rt,
        &["a = z 5", "b = z 1"],
        ["get b", "b = add_wuz a a", "c = add_wuz b b"],
    )
}

#[test]
fn divides_by_zero_in_a_group(rt: HostRuntime) {
    serves_the_others(
        &rt,
        &["p = z 6", "q = z 2", "r = z 1", "s = z 0"],
        ["x = div_wuz p q", "y = div_wuz r s", "z = div_wuz q q"],
    )
}

#[test]
fn three_callers_on_one_name(rt: HostRuntime) {
    serves_the_others(&rt, &["a = z 1"], ["b = z 1", "c = cpy_wuz b", "b = z 2"])
}

/// A new machine is made, or wants memory.
#[test]
fn makes_a_machine(rt: HostRuntime) {
    begin(&rt);
    let made = Shared::new(rt.alloc(), 3, 10);
    end(&rt);
    let right = match &made {
        Ok(made) => made.1.len() == 3,
        Err(fault) => *fault == MakeFault::OutOfMemory,
    };
    assert!(rt; right);
    println!(rt; "made or refused").expect(&rt, "no output");
}
