//! A call of every call word, and the operands for all of them.

use cvl_calls::runs_kernel;
use cvl_text::{Call, Word, call_word};
use std::alloc::Global;
use std::process::Abort;

/// How many of the calls run no kernel: the first ones.
pub(crate) const ALONE: usize = 9;

/// A call of each word. For `@` its target stands, and for `?` the number of a set of operands.
pub(crate) const CALLS: [&str; 97] = [
    "get a?",
    "fre_fov @",
    "len_fov f?",
    "@ = mov_fov s?",
    "@ = alo_foz ?",
    "@ = mke_fov l?",
    "@ = len_fos s?",
    "ext_vuz a? 1",
    "@ = rep_vuz a? 1 5",
    "@ = add_wuz a? b?",
    "@ = sub_wuz a? b?",
    "@ = mul_wuz a? b?",
    "@ = div_wuz a? b?",
    "@ = mod_wuz a? b?",
    "@ = max_wuz a? b?",
    "@ = min_wuz a? b?",
    "@ = and_wuz a? b?",
    "@ = ior_wuz a? b?",
    "@ = xor_wuz a? b?",
    "@ = lsh_wuz a? b?",
    "@ = rsh_wuz a? b?",
    "@ = not_wuz a?",
    "@ = cpy_wuz a?",
    "@ = eql_wuz a? b?",
    "@ = neq_wuz a? b?",
    "@ = les_wuz a? b?",
    "@ = leq_wuz a? b?",
    "@ = grt_wuz a? b?",
    "@ = geq_wuz a? b?",
    "@ = sel_wuz f? a? b?",
    "@ = and_wub f? g?",
    "@ = ior_wub f? g?",
    "@ = xor_wub f? g?",
    "@ = not_wub f?",
    "@ = cpy_wub f?",
    "@ = sel_wub f? g? h?",
    "@ = boo_wuz j?",
    "@ = int_wub f?",
    "@ = add_suz a?",
    "@ = mul_suz a?",
    "@ = max_suz a?",
    "@ = min_suz a?",
    "@ = and_suz a?",
    "@ = ior_suz a?",
    "@ = xor_suz a?",
    "@ = and_sub g?",
    "@ = ior_sub g?",
    "@ = xor_sub g?",
    "@ = add_sez a? s?",
    "@ = mul_sez a? s?",
    "@ = max_sez a? s?",
    "@ = min_sez a? s?",
    "@ = and_sez a? s?",
    "@ = ior_sez a? s?",
    "@ = xor_sez a? s?",
    "@ = and_seb g? s?",
    "@ = ior_seb g? s?",
    "@ = xor_seb g? s?",
    "add_ruz a?",
    "mul_ruz a?",
    "max_ruz a?",
    "min_ruz a?",
    "and_ruz a?",
    "ior_ruz a?",
    "xor_ruz a?",
    "and_rub g?",
    "ior_rub g?",
    "xor_rub g?",
    "@ = add_rez a? s?",
    "@ = mul_rez a? s?",
    "@ = max_rez a? s?",
    "@ = min_rez a? s?",
    "@ = and_rez a? s?",
    "@ = ior_rez a? s?",
    "@ = xor_rez a? s?",
    "@ = and_reb g? s?",
    "@ = ior_reb g? s?",
    "@ = xor_reb g? s?",
    "@ = dis_vuz 7 ?",
    "@ = dis_vub T ?",
    "@ = dis_vez c? s?",
    "@ = dis_veb k? s?",
    "@ = ind_luz 5 -2 ?",
    "@ = ind_lez c? e? s?",
    "@ = smp_puz a? i?",
    "@ = smp_pub f? i?",
    "@ = smp_pez a? j? s?",
    "@ = smp_peb f? j? s?",
    "@ = bck_puz a? i?",
    "@ = bck_pub f? i?",
    "@ = bck_pez a? s? m? t?",
    "@ = bck_peb f? s? m? t?",
    "@ = pck_puz a? f?",
    "@ = pck_pub g? f?",
    "@ = pck_pez a? f? s?",
    "@ = pck_peb g? f? s?",
    "@ = pkl_leb f? s?",
];

/// The operands: four sets of them. In set 0 no vector is empty, and one segment is. In set 1 each is empty. In set 2 there
/// are three segments, and each is empty. Set 3 is shorter than set 0, and its first segment is empty.
pub(crate) const OPERANDS: &str = "a0 = z 7 -7 9 2\n\
    b0 = z 2 3 1 2\n\
    f0 = b T F F T\n\
    g0 = b T T F F\n\
    h0 = b F T F T\n\
    l0 = z 3 0 1\n\
    s0 = mke_fov l0\n\
    c0 = z 10 20 30\n\
    e0 = z 1 2 -3\n\
    k0 = b T F F\n\
    i0 = z 2 0 3 1\n\
    j0 = z 1 2 0 0\n\
    m0 = z 2 0 0\n\
    n0 = z 2 0 1\n\
    t0 = mke_fov n0\n\
    a1 = z\n\
    b1 = z\n\
    f1 = b\n\
    g1 = b\n\
    h1 = b\n\
    l1 = z\n\
    s1 = mke_fov l1\n\
    c1 = z\n\
    e1 = z\n\
    k1 = b\n\
    i1 = z\n\
    j1 = z\n\
    m1 = z\n\
    t1 = mke_fov l1\n\
    a2 = z\n\
    b2 = z\n\
    f2 = b\n\
    g2 = b\n\
    h2 = b\n\
    l2 = z 0 0 0\n\
    s2 = mke_fov l2\n\
    c2 = z 10 20 30\n\
    e2 = z 1 2 -3\n\
    k2 = b T F T\n\
    i2 = z\n\
    j2 = z\n\
    m2 = z\n\
    t2 = mke_fov l2\n\
    a3 = z 5 6\n\
    b3 = z 1 3\n\
    f3 = b F T\n\
    g3 = b T T\n\
    h3 = b F F\n\
    l3 = z 0 2\n\
    s3 = mke_fov l3\n\
    c3 = z 4 -5\n\
    e3 = z 3 3\n\
    k3 = b F T\n\
    i3 = z 1 0\n\
    j3 = z 1 0\n\
    m3 = z 1 0 1\n\
    n3 = z 0 3\n\
    t3 = mke_fov n3\n";

/// Writes a call of the table behind the text, on a set of operands.
pub(crate) fn write_call(rt: &impl Abort, text: &mut String, call: &str, target: &str, set: char) {
    for c in call.chars() {
        match c {
            '@' => text.push_str(target).expect(rt, "memory"),
            '?' => text.push(set).expect(rt, "memory"),
            other => text.push(other).expect(rt, "memory"),
        }
    }
    text.push('\n').expect(rt, "memory");
}

/// The call words of the table, and whether each runs a kernel.
fn words(rt: &impl Abort, alloc: Global) -> Vec<(Word, bool)> {
    let mut found = Vec::new(alloc);
    for call in &CALLS {
        let mut line = String::new(alloc);
        write_call(rt, &mut line, call, "x", '0');
        let call = Call::read(alloc, line.trim_end().as_bytes()).expect(rt, "no call");
        let word = call_word(&call);
        found.push((word, runs_kernel(word))).expect(rt, "memory");
    }
    found
}

#[test]
fn has_every_word_once(rt: HostRuntime) {
    let words = words(&rt, rt.alloc());
    for (i, word) in words.iter().enumerate() {
        assert!(rt; words.iter().take(i).all(|other| other.0 != word.0));
    }
    assert!(rt; words.len() == 97);
    assert!(rt; words.iter().filter(|word| word.1).count() == 88);
}
