//! Each public function with ample memory. What each call replies is tested as scripts, above this crate.

use crate::changing::assert_may_change;
use cvl_calls::{
    Call, Fault, Judged, Product, Reply, Spare, Stop, alike, apply, call_word, check, judge, run,
    runs_kernel, step, step_with, work,
};
use scan_kernels::{Execution, Meter, Sequential};
use std::alloc::{Alloc, Global};
use std::process::Abort;
use std::thread::Threads;
use vector_memory::{Memory, Name, Value};

const ROOM: u64 = 1000;

fn name(rt: &impl Abort, text: &[u8]) -> Name {
    Name::read(text).expect(rt, "no name")
}

/// Whether a line, run on the memory, is replied to so.
fn replies<R: Abort + Threads + Execution<Shared = R> + Sync>(
    rt: &R,
    alloc: Global,
    memory: &mut Memory,
    line: &[u8],
    wanted: &[u8],
) -> bool {
    let call = Call::read(alloc, line).expect(rt, "a call");
    let mut text = Vec::new(alloc);
    assert_may_change(rt, memory);
    let reply = step(rt, alloc, memory, &call).expect(rt, "memory");
    reply.write(&mut text).expect(rt, "memory");
    text.as_slice() == wanted
}

/// How many kernels the work of a line runs.
fn kernel_runs<R: Abort + Threads + Execution<Shared = R> + Sync>(
    rt: &R,
    alloc: Global,
    memory: &Memory,
    line: &[u8],
) -> u64 {
    let call = Call::read(alloc, line).expect(rt, "a call");
    let mut meter = Meter::new();
    let worked = work(rt, alloc, &mut meter, memory, &call).is_ok();
    if worked {
        meter.runs()
    } else {
        100 + meter.runs()
    }
}

/// Lines, and what is replied to each, one after the other.
const STEPS: [(&[u8], &[u8]); 9] = [
    (b"a = z 3 1 4", b"ok"),
    (b"add_ruz a", b"int 8"),
    (b"a = add_suz a", b"ok"),
    (b"get a", b"z 0 3 4"),
    (b"s = mke_fov a", b"ok"),
    (b"get s", b"s 0 3 4"),
    (b"b = add_sez a s", b"fault 4"),
    (b"fre_fov a", b"ok"),
    (b"len_fov a", b"fault 1"),
];

fn expect_steps<R: Abort + Alloc<A = Global> + Threads + Execution<Shared = R> + Sync>(
    rt: &R,
    memory: &mut Memory,
) {
    for &(line, reply) in &STEPS {
        assert!(rt; replies(rt, rt.alloc(), memory, line, reply), "{line:?}");
    }
}

#[test]
fn steps_from_memory_to_memory(rt: HostRuntime) {
    let mut memory = Memory::new(rt.alloc(), ROOM).expect(&rt, "memory");
    expect_steps(&rt, &mut memory);
}

/// How many kernels each line runs; 100 more where it has a fault.
const RUNS: [(&[u8], u64); 10] = [
    (b"b = z 1", 0),
    (b"get a", 0),
    (b"b = rep_vuz a 0 1", 0),
    (b"ext_vuz a 2", 0),
    (b"b = mke_fov a", 0),
    (b"b = add_wuz a a", 1),
    (b"add_ruz a", 1),
    (b"b = dis_vuz 7 3", 1),
    (b"b = smp_puz a a", 100),
    (b"b = lsh_wuz a c", 100),
];

fn expect_runs<R: Abort + Alloc<A = Global> + Threads + Execution<Shared = R> + Sync>(
    rt: &R,
    memory: &mut Memory,
) {
    assert!(rt; replies(rt, rt.alloc(), memory, b"a = z 3 1 4", b"ok"));
    for &(line, runs) in &RUNS {
        assert!(rt;
            kernel_runs(rt, rt.alloc(), memory, line) == runs,
            "{line:?}"
        );
    }
}

#[test]
fn counts_the_kernels_that_ran(rt: HostRuntime) {
    let mut memory = Memory::new(rt.alloc(), ROOM).expect(&rt, "memory");
    expect_runs(&rt, &mut memory);
}

/// More items than a line can hold: whether `step` finds so many truth values too long.
fn is_too_long<R: Abort + Threads + Execution<Shared = R> + Sync>(
    rt: &R,
    alloc: Global,
    memory: &mut Memory,
    items: usize,
) -> bool {
    let call = Call::SetBools {
        to: name(rt, b"a"),
        items: vec![in alloc; true; items].expect(rt, "memory"),
    };
    assert_may_change(rt, memory);
    let reply = step(rt, alloc, memory, &call).expect(rt, "memory");
    matches!(reply, Reply::Fault(Fault::TooLong))
}

fn expect_limit<R: Abort + Alloc<A = Global> + Threads + Execution<Shared = R> + Sync>(
    rt: &R,
    memory: &mut Memory,
) {
    assert!(rt; !is_too_long(rt, rt.alloc(), memory, 1_048_576));
    assert!(rt; memory.cells() == 1_048_576);
    assert!(rt; is_too_long(rt, rt.alloc(), memory, 1_048_577));
    assert!(rt; memory.cells() == 1_048_576);
}

#[test]
fn limits_what_is_set(rt: HostRuntime) {
    let mut memory = Memory::new(rt.alloc(), 2_000_000).expect(&rt, "memory");
    expect_limit(&rt, &mut memory);
}

fn expect_a_stop<R: Abort + Alloc<A = Global> + Threads + Execution<Shared = R> + Sync>(
    rt: &R,
    memory: &Memory,
) {
    let call = Call::Get { a: name(rt, b"a") };
    let worked = work(rt, rt.alloc(), &mut Meter::new(), memory, &call);
    assert!(rt; matches!(worked, Err(Stop::Fault(Fault::NoVector))));
}

#[test]
fn stops_at_a_fault(rt: HostRuntime) {
    let memory = Memory::new(rt.alloc(), ROOM).expect(&rt, "memory");
    expect_a_stop(&rt, &memory);
}

fn expect_stored<R: Abort + Alloc<A = Global> + Threads + Execution<Shared = R> + Sync>(
    rt: &R,
    memory: &mut Memory,
) {
    assert!(rt; memory.limit() >= 2, "no value fits");
    let items = Vec::from_slice(rt.alloc(), &[4, 5]).expect(rt, "memory");
    assert_may_change(rt, memory);
    let stored = apply(
        memory,
        Some(name(rt, b"a")),
        Product::Store(Value::Ints(items)),
    )
    .expect(rt, "memory");
    assert!(rt; matches!(stored, Reply::Done) && memory.cells() == 2);
}

fn expect_freed<R: Abort + Alloc<A = Global> + Threads + Execution<Shared = R> + Sync>(
    rt: &R,
    memory: &mut Memory,
) {
    assert_may_change(rt, memory);
    let freed = apply(memory, Some(name(rt, b"a")), Product::Free).expect(rt, "memory");
    assert!(rt; matches!(freed, Reply::Done) && memory.is_empty());
}

#[test]
fn applies_a_product(rt: HostRuntime) {
    let mut memory = Memory::new(rt.alloc(), 2).expect(&rt, "memory");
    expect_stored(&rt, &mut memory);
    expect_freed(&rt, &mut memory);
}

/// Lines, and the fault that is found before anything is made.
const CHECKS: [(&[u8], Option<Fault>); 9] = [
    (b"c = add_wuz a a", None),
    (b"c = add_wuz a b", Some(Fault::WrongLength)),
    (b"c = div_wuz b c", Some(Fault::NoVector)),
    (b"c = div_wuz a a", Some(Fault::ZeroDivisor)),
    (b"c = bck_puz b a", Some(Fault::BadIndex)),
    (b"c = bck_puz a a", None),
    (b"c = smp_puz a b", Some(Fault::WrongLength)),
    (b"c = smp_puz a a", None),
    (b"c = alo_foz 2000", None),
];

fn expect_checks<R: Abort + Alloc<A = Global> + Threads + Execution<Shared = R> + Sync>(
    rt: &R,
    memory: &mut Memory,
) {
    assert!(rt; replies(rt, rt.alloc(), memory, b"a = z 2 0 1", b"ok"));
    assert!(rt; replies(rt, rt.alloc(), memory, b"b = z 0 3", b"ok"));
    for &(line, fault) in &CHECKS {
        let call = Call::read(rt.alloc(), line).expect(rt, "a call");
        let found = check(rt.alloc(), memory, &call).expect(rt, "memory");
        assert!(rt; found == fault, "{line:?}");
    }
}

#[test]
fn checks_before_anything_is_made(rt: HostRuntime) {
    let mut memory = Memory::new(rt.alloc(), ROOM).expect(&rt, "memory");
    expect_checks(&rt, &mut memory);
}

fn expect_a_run<R: Abort + Alloc<A = Global> + Threads + Execution<Shared = R> + Sync>(
    rt: &R,
    memory: &mut Memory,
) {
    assert!(rt; replies(rt, rt.alloc(), memory, b"a = z 2 0 1", b"ok"));
    let call = Call::read(rt.alloc(), b"add_ruz a").expect(rt, "a call");
    let mut meter = Meter::new();
    let Ok(judged) = judge(rt.alloc(), memory, &call) else {
        panic!(rt; "a fault");
    };
    assert!(rt; matches!(judged, Judged::ReduceInts(_, [2, 0, 1])));
    let product = run(&Sequential, rt.alloc(), &mut meter, judged).expect(rt, "memory");
    assert!(rt; matches!(product, Product::Reply(Reply::Int(3))) && meter.runs() == 1);
}

#[test]
fn runs_what_was_judged(rt: HostRuntime) {
    let mut memory = Memory::new(rt.alloc(), ROOM).expect(&rt, "memory");
    expect_a_run(&rt, &mut memory);
}

/// Two lines, and whether their calls are alike.
const PAIRS: [(&[u8], &[u8], bool); 7] = [
    (b"a = add_wuz b c", b"d = add_wuz e f", true),
    (b"a = add_wuz b c", b"d = sub_wuz e f", false),
    (b"a = add_suz b", b"d = add_suz e", true),
    (b"a = add_suz b", b"d = add_sez e f", false),
    (b"a = pck_puz b c", b"d = pck_pub e f", false),
    (b"a = mov_fov b", b"d = mov_fov e", false),
    (b"a = z 1", b"d = z 1", false),
];

#[test]
fn knows_alike_calls(rt: HostRuntime) {
    for &(one, other, are_alike) in &PAIRS {
        let one = Call::read(rt.alloc(), one).expect(&rt, "a call");
        let other = Call::read(rt.alloc(), other).expect(&rt, "a call");
        assert!(rt; alike(&one, &other) == are_alike, "{one:?}");
        assert!(rt; !are_alike || runs_kernel(call_word(&one)), "{one:?}");
    }
}

/// The reply to a line that is run on the memory with what was kept.
fn replied_with<R: Abort + Threads + Execution<Shared = R> + Sync>(
    rt: &R,
    alloc: Global,
    spare: &mut Spare,
    memory: &mut Memory,
    line: &[u8],
) -> Vec<u8> {
    let call = Call::read(alloc, line).expect(rt, "a call");
    let mut text = Vec::new(alloc);
    let mut meter = Meter::new();
    assert_may_change(rt, memory);
    let reply = step_with(rt, alloc, &mut meter, spare, memory, &call).expect(rt, "memory");
    reply.write(&mut text).expect(rt, "memory");
    text
}

/// Lines, their replies, and how many bytes are kept behind each.
const KEPT: &[(&[u8], &[u8], usize)] = &[
    (b"a = z 1 2 3", b"ok", 0),
    (b"b = z 10 20 30", b"ok", 0),
    (b"c = b T F T", b"ok", 0),
    (b"a = add_wuz a b", b"ok", 24),
    (b"a = add_wuz a b", b"ok", 24),
    (b"c = not_wub c", b"ok", 27),
    (b"d = add_wuz a b", b"ok", 3),
    (b"a = eql_wuz a b", b"ok", 24),
    (b"a = dis_vuz 7 9000", b"ok", 3),
    (b"a = dis_vuz 7 2", b"ok", 72_003),
    (b"get a", b"z 7 7", 72_003),
    (b"get c", b"b F T F", 72_003),
    (b"get d", b"z 31 62 93", 72_003),
];

fn expect_kept<R: Abort + Alloc<A = Global> + Threads + Execution<Shared = R> + Sync>(
    rt: &R,
    spare: &mut Spare,
    memory: &mut Memory,
) {
    for &(line, reply, bytes) in KEPT {
        let said = replied_with(rt, rt.alloc(), spare, memory, line);
        assert!(rt; said.as_slice() == reply);
        assert_eq!(rt; spare.bytes(), bytes);
    }
}

#[test]
fn keeps_what_stores_replace(rt: HostRuntime) {
    let mut memory = Memory::new(rt.alloc(), 20_000).expect(&rt, "memory");
    let mut spare = Spare::new(rt.alloc());
    expect_kept(&rt, &mut spare, &mut memory);
}
