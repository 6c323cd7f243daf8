//! Calls of which a growth is refused, each public call that takes memory by itself. `refused/run.sh` runs these tests once for
//! each growth that they ask for between the lines `begin` and `end`, and has it refused. By themselves the tests see none refused.
//!
//! A refused growth comes to a want of memory, what was lent stands as it did, and the same call made again goes well.

mod books;
mod calls;
mod machines;
mod parts;
mod texts;
mod values;

use crate::changing::assert_may_change;
use cvl_calls::step;
use cvl_text::{Call, Reply, write_value};
use scan_kernels::Sequential;
use std::alloc::{Alloc, Global};
use std::process::Abort;
use vector_memory::{Memory, Name, Value};

/// The room of each memory.
const ROOM: u64 = 1000;

/// Calls that set a name of each kind: numbers (z), small ones (d), two permutations (p, and q by segments), a number for each
/// segment (l), flags (b), a flag for each segment (c) and a segment list (s).
fn opening() -> &'static str {
    "z = z 5 -2 7 0 9 4
d = z 1 2 3 1 2 3
p = z 2 0 1 5 3 4
q = z 1 0 3 0 1 2
l = z 2 0 4
b = b T F T T F T
c = b T F T
s = mke_fov l"
}

/// A call of each word and of each way of setting a name, all to the name x.
fn each_word() -> &'static str {
    "x = z 1 2 3
x = b T F
get z
get b
get s
len_fov z
x = mov_fov z
x = mov_fov s
x = alo_foz 4
x = mke_fov l
x = len_fos s
ext_vuz z 2
x = rep_vuz z 2 9
fre_fov x
x = add_wuz z d
x = sub_wuz z d
x = mul_wuz z d
x = div_wuz z d
x = mod_wuz z d
x = max_wuz z d
x = min_wuz z d
x = and_wuz z d
x = ior_wuz z d
x = xor_wuz z d
x = lsh_wuz z d
x = rsh_wuz z d
x = not_wuz z
x = cpy_wuz z
x = eql_wuz z d
x = neq_wuz z d
x = les_wuz z d
x = leq_wuz z d
x = grt_wuz z d
x = geq_wuz z d
x = and_wub b b
x = ior_wub b b
x = xor_wub b b
x = not_wub b
x = cpy_wub b
x = sel_wuz b z d
x = sel_wub b b b
x = boo_wuz z
x = int_wub b
x = add_suz z
x = mul_suz z
x = max_suz z
x = min_suz z
x = and_suz z
x = ior_suz z
x = xor_suz z
x = and_sub b
x = ior_sub b
x = xor_sub b
x = add_sez z s
x = mul_sez z s
x = max_sez z s
x = min_sez z s
x = and_sez z s
x = ior_sez z s
x = xor_sez z s
x = and_seb b s
x = ior_seb b s
x = xor_seb b s
add_ruz z
mul_ruz z
max_ruz z
min_ruz z
and_ruz z
ior_ruz z
xor_ruz z
and_rub b
ior_rub b
xor_rub b
x = add_rez z s
x = mul_rez z s
x = max_rez z s
x = min_rez z s
x = and_rez z s
x = ior_rez z s
x = xor_rez z s
x = and_reb b s
x = ior_reb b s
x = xor_reb b s
x = dis_vuz 7 3
x = dis_vub T 3
x = dis_vez l s
x = dis_veb c s
x = ind_luz 0 2 5
x = ind_lez l l s
x = smp_puz z p
x = smp_pub b p
x = smp_pez z q s
x = smp_peb b q s
x = bck_puz z p
x = bck_pub b p
x = bck_pez z s q s
x = bck_peb b s q s
x = pck_puz z b
x = pck_pub b b
x = pck_pez z b s
x = pck_peb b b s
x = pkl_leb b s"
}

/// The growths of what comes next are counted, and one may be refused.
fn begin<R: Abort + Print>(rt: &R) {
    println!(rt; "begin").expect(rt, "output");
}

/// And those of what comes next are not.
fn end<R: Abort + Print>(rt: &R) {
    println!(rt; "end").expect(rt, "output");
}

/// The text of a reply.
fn text_of<R: Abort + Alloc<A = Global>>(rt: &R, reply: &Reply) -> Vec<u8> {
    let mut text = Vec::new(rt.alloc());
    reply.write(&mut text).expect(rt, "memory");
    text
}

/// Puts the text of a name and its value behind another.
fn write_entry(rt: &impl Abort, name: &Name, value: &Value, text: &mut Vec<u8>) {
    text.extend_from_slice(name.text().bytes())
        .expect(rt, "memory");
    text.push(b' ').expect(rt, "memory");
    write_value(value, text).expect(rt, "memory");
    text.push(b'\n').expect(rt, "memory");
}

/// All that a memory holds, as text: a line for each name, in their order.
fn memory_text<R: Abort + Alloc<A = Global>>(rt: &R, memory: &Memory) -> Vec<u8> {
    let mut text = Vec::new(rt.alloc());
    for (name, value) in memory.iter() {
        write_entry(rt, name, value, &mut text);
    }
    text
}

/// Asserts that a memory holds what this text says.
fn holds<R: Abort + Alloc<A = Global>>(rt: &R, memory: &Memory, text: &[u8]) {
    let found = memory_text(rt, memory);
    assert!(rt; found.as_slice() == text);
}

/// What a memory that is refused nothing replies to a line, as text.
fn replied<R: Abort + Alloc<A = Global>>(rt: &R, memory: &mut Memory, line: &str) -> Vec<u8> {
    let call = Call::read(rt.alloc(), line.as_bytes()).expect(rt, "a call");
    assert_may_change(rt, memory);
    let reply = step(&Sequential, rt.alloc(), memory, &call).expect(rt, "memory");
    text_of(rt, &reply)
}

/// A memory that has what the opening sets.
fn opened<R: Abort + Alloc<A = Global>>(rt: &R) -> Memory {
    let mut memory = Memory::new(rt.alloc(), ROOM).expect(rt, "memory");
    for line in opening().lines() {
        replied(rt, &mut memory, line);
    }
    memory
}
