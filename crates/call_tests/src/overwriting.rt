//! Calls whose result is written over an operand, since that has many items and lies at the target, beside calls that look alike.

use crate::changing::assert_may_change;
use cvl_calls::{Call, Reply, Spare, step_metered, step_with};
use scan_kernels::{Meter, Sequential};
use std::alloc::{Alloc, Global};
use std::process::Abort;
use vector_memory::Memory;

const ROOM: u64 = 1_000_000;

/// The reply to a line, by a step with a meter.
fn reply<R: Abort + Alloc<A = Global>>(
    rt: &R,
    meter: &mut Meter,
    memory: &mut Memory,
    line: &[u8],
) -> Reply {
    let call = Call::read(rt.alloc(), line).expect(rt, "a call");
    assert_may_change(rt, memory);
    step_metered(&Sequential, rt.alloc(), meter, memory, &call).expect(rt, "memory")
}

/// Asserts that each line is replied to so.
fn are_replied<R: Abort + Alloc<A = Global>>(
    rt: &R,
    meter: &mut Meter,
    memory: &mut Memory,
    lines: &[(&[u8], &[u8])],
) {
    for (line, wanted) in lines {
        let mut text = Vec::new(rt.alloc());
        let reply = reply(rt, meter, memory, line);
        reply.write(&mut text).expect(rt, "memory");
        assert!(rt; text.as_slice() == *wanted, "{line:?}");
    }
}

/// `a` is 0, 1 and so on, `b` is 7s, `z` is 0s: 20,000 each.
const OPENING: [(&[u8], &[u8]); 3] = [
    (b"a = ind_luz 0 1 20000", b"ok"),
    (b"b = dis_vuz 7 20000", b"ok"),
    (b"z = alo_foz 20000", b"ok"),
];

/// Over the first vector, over the second, over neither where both are the target, and over the only one. Each is a kernel run.
const WRITTEN: [(&[u8], &[u8]); 15] = [
    (b"a = sub_wuz a b", b"ok"),
    (b"ext_vuz a 5", b"int -2"),
    (b"add_ruz a", b"int 199850000"),
    (b"a = sub_wuz b a", b"ok"),
    (b"ext_vuz a 5", b"int 9"),
    (b"add_ruz a", b"int -199710000"),
    (b"a = mul_wuz a a", b"ok"),
    (b"ext_vuz a 5", b"int 81"),
    (b"ext_vuz b 19999", b"int 7"),
    (b"len_fov a", b"int 20000"),
    (b"b = not_wuz b", b"ok"),
    (b"ext_vuz b 19999", b"int -8"),
    (b"b = add_suz b", b"ok"),
    (b"ext_vuz b 0", b"int 0"),
    (b"ext_vuz b 19999", b"int -159992"),
];

/// Asserts that the calls of the opening and those behind it are replied to so, with so many kernel runs in all.
fn runs_kernels<R: Abort + Alloc<A = Global>>(
    rt: &R,
    meter: &mut Meter,
    memory: &mut Memory,
    runs: u64,
) {
    are_replied(rt, meter, memory, &OPENING);
    are_replied(rt, meter, memory, &WRITTEN);
    assert_eq!(rt; meter.runs(), runs);
}

#[test]
fn writes_over_an_operand(rt: HostRuntime) {
    let mut memory = Memory::new(rt.alloc(), ROOM).expect(&rt, "memory");
    runs_kernels(&rt, &mut Meter::new(), &mut memory, 9);
    assert!(rt; memory.cells() == 60_000);
}

/// By chunks of 1,000 items there is no call that is written over an operand, and each reply is the same.
#[test]
fn replies_alike_by_chunks(rt: HostRuntime) {
    let mut memory = Memory::new(rt.alloc(), ROOM).expect(&rt, "memory");
    runs_kernels(&rt, &mut Meter::with_chunk(1_000), &mut memory, 9);
}

/// A call with a fault leaves the operand as it was.
const FAULTY: [(&[u8], &[u8]); 8] = [
    (b"a = div_wuz a z", b"fault 6"),
    (b"a = lsh_wuz a a", b"fault 7"),
    (b"c = z 1 2 3", b"ok"),
    (b"a = add_wuz a c", b"fault 3"),
    (b"a = add_wuz c a", b"fault 3"),
    (b"a = add_wuz a nothing", b"fault 1"),
    (b"ext_vuz a 19999", b"int 19999"),
    (b"add_ruz a", b"int 199990000"),
];

fn are_kept<R: Abort + Alloc<A = Global>>(rt: &R, meter: &mut Meter, memory: &mut Memory) {
    are_replied(rt, meter, memory, &OPENING);
    are_replied(rt, meter, memory, &FAULTY);
}

#[test]
fn keeps_the_operand_of_a_faulty_call(rt: HostRuntime) {
    let mut memory = Memory::new(rt.alloc(), ROOM).expect(&rt, "memory");
    are_kept(&rt, &mut Meter::new(), &mut memory);
}

/// The names of a memory, in their order.
fn names<R: Abort + Alloc<A = Global>>(rt: &R, memory: &Memory) -> Vec<u8> {
    let mut text = Vec::new(rt.alloc());
    for (name, _) in memory.iter() {
        text.extend_from_slice(name.text().bytes())
            .expect(rt, "memory");
        text.push(b' ').expect(rt, "memory");
    }
    text
}

fn are_in_order<R: Abort + Alloc<A = Global>>(rt: &R, meter: &mut Meter, memory: &mut Memory) {
    are_replied(rt, meter, memory, &OPENING);
    reply(rt, meter, memory, b"b = max_wuz b z");
    assert!(rt; names(rt, memory).as_slice() == b"a b z ".as_slice());
}

/// The names keep their order.
#[test]
fn keeps_the_order_of_names(rt: HostRuntime) {
    let mut memory = Memory::new(rt.alloc(), ROOM).expect(&rt, "memory");
    are_in_order(&rt, &mut Meter::new(), &mut memory);
}

/// Runs a line, with vectors that were kept.
fn runs_with<R: Abort + Alloc<A = Global>>(
    rt: &R,
    meter: &mut Meter,
    spare: &mut Spare,
    memory: &mut Memory,
    line: &[u8],
) {
    let call = Call::read(rt.alloc(), line).expect(rt, "a call");
    assert_may_change(rt, memory);
    step_with(&Sequential, rt.alloc(), meter, spare, memory, &call).expect(rt, "memory");
}

fn keeps_vectors<R: Abort + Alloc<A = Global>>(
    rt: &R,
    meter: &mut Meter,
    spare: &mut Spare,
    memory: &mut Memory,
) {
    are_replied(rt, meter, memory, &OPENING);
    runs_with(rt, meter, spare, memory, b"a = add_wuz a b");
    assert_eq!(rt; spare.bytes(), 0);
    runs_with(rt, meter, spare, memory, b"a = add_wuz b b");
    assert_eq!(rt; spare.bytes(), 160_000);
}

/// What was kept for the next results stays kept: a result over an operand takes none of it.
#[test]
fn takes_no_kept_vector(rt: HostRuntime) {
    let mut memory = Memory::new(rt.alloc(), ROOM).expect(&rt, "memory");
    let mut spare = Spare::new(rt.alloc());
    keeps_vectors(&rt, &mut Meter::new(), &mut spare, &mut memory);
}
