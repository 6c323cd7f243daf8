//! Every call word: the names that its call reads, and the name that it writes or frees.

use super::name;
use cvl_text::{Call, Kind, OneWord, ScanZ, ThreeWord, TwoWord, Word, call_word, reads, target};
use std::alloc::Global;
use vector_memory::Name;

/// Lines that write `d`, and how many of the names `a`, `b`, `c` and `e` they read.
static WRITING: [(&[u8], usize); 85] = [
    (b"d = z 1 -2", 0),
    (b"d = b T F", 0),
    (b"d = mov_fov a", 1),
    (b"d = alo_foz 3", 0),
    (b"d = mke_fov a", 1),
    (b"d = len_fos a", 1),
    (b"d = add_wuz a b", 2),
    (b"d = sub_wuz a b", 2),
    (b"d = mul_wuz a b", 2),
    (b"d = div_wuz a b", 2),
    (b"d = mod_wuz a b", 2),
    (b"d = max_wuz a b", 2),
    (b"d = min_wuz a b", 2),
    (b"d = and_wuz a b", 2),
    (b"d = ior_wuz a b", 2),
    (b"d = xor_wuz a b", 2),
    (b"d = lsh_wuz a b", 2),
    (b"d = rsh_wuz a b", 2),
    (b"d = eql_wuz a b", 2),
    (b"d = neq_wuz a b", 2),
    (b"d = les_wuz a b", 2),
    (b"d = leq_wuz a b", 2),
    (b"d = grt_wuz a b", 2),
    (b"d = geq_wuz a b", 2),
    (b"d = not_wuz a", 1),
    (b"d = cpy_wuz a", 1),
    (b"d = sel_wuz a b c", 3),
    (b"d = and_wub a b", 2),
    (b"d = ior_wub a b", 2),
    (b"d = xor_wub a b", 2),
    (b"d = not_wub a", 1),
    (b"d = cpy_wub a", 1),
    (b"d = sel_wub a b c", 3),
    (b"d = boo_wuz a", 1),
    (b"d = int_wub a", 1),
    (b"d = add_suz a", 1),
    (b"d = mul_suz a", 1),
    (b"d = max_suz a", 1),
    (b"d = min_suz a", 1),
    (b"d = and_suz a", 1),
    (b"d = ior_suz a", 1),
    (b"d = xor_suz a", 1),
    (b"d = and_sub a", 1),
    (b"d = ior_sub a", 1),
    (b"d = xor_sub a", 1),
    (b"d = add_sez a b", 2),
    (b"d = mul_sez a b", 2),
    (b"d = max_sez a b", 2),
    (b"d = min_sez a b", 2),
    (b"d = and_sez a b", 2),
    (b"d = ior_sez a b", 2),
    (b"d = xor_sez a b", 2),
    (b"d = and_seb a b", 2),
    (b"d = ior_seb a b", 2),
    (b"d = xor_seb a b", 2),
    (b"d = add_rez a b", 2),
    (b"d = mul_rez a b", 2),
    (b"d = max_rez a b", 2),
    (b"d = min_rez a b", 2),
    (b"d = and_rez a b", 2),
    (b"d = ior_rez a b", 2),
    (b"d = xor_rez a b", 2),
    (b"d = and_reb a b", 2),
    (b"d = ior_reb a b", 2),
    (b"d = xor_reb a b", 2),
    (b"d = dis_vuz 7 3", 0),
    (b"d = dis_vub T 3", 0),
    (b"d = dis_vez a b", 2),
    (b"d = dis_veb a b", 2),
    (b"d = ind_luz 5 -2 4", 0),
    (b"d = ind_lez a b c", 3),
    (b"d = smp_puz a b", 2),
    (b"d = smp_pub a b", 2),
    (b"d = smp_pez a b c", 3),
    (b"d = smp_peb a b c", 3),
    (b"d = bck_puz a b", 2),
    (b"d = bck_pub a b", 2),
    (b"d = bck_pez a b c e", 4),
    (b"d = bck_peb a b c e", 4),
    (b"d = pck_puz a b", 2),
    (b"d = pck_pub a b", 2),
    (b"d = pck_pez a b c", 3),
    (b"d = pck_peb a b c", 3),
    (b"d = pkl_leb a b", 2),
    (b"d = rep_vuz a 1 9", 1),
];

/// Lines that read `a` and write nothing.
static ASKING: [&[u8]; 13] = [
    b"get a",
    b"len_fov a",
    b"ext_vuz a 3",
    b"add_ruz a",
    b"mul_ruz a",
    b"max_ruz a",
    b"min_ruz a",
    b"and_ruz a",
    b"ior_ruz a",
    b"xor_ruz a",
    b"and_rub a",
    b"ior_rub a",
    b"xor_rub a",
];

/// Whether the call of a line reads these names and has this target.
fn is_read(alloc: Global, line: &[u8], wanted: [Option<Name>; 4], to: Option<Name>) -> bool {
    match Call::read(alloc, line) {
        Ok(call) => (reads(&call) == wanted) & (target(&call) == to),
        Err(_) => false,
    }
}

/// The first of the names, as `reads` tells them.
fn first(names: [Name; 4], count: usize) -> [Option<Name>; 4] {
    let mut kept = [None, None, None, None];
    for i in 0..count.min(4) {
        kept[i] = Some(names[i]);
    }
    kept
}

#[test]
fn reads_every_word(rt: HostRuntime) {
    let names = [
        name(&rt, b"a"),
        name(&rt, b"b"),
        name(&rt, b"c"),
        name(&rt, b"e"),
    ];
    let to = name(&rt, b"d");
    for (line, count) in &WRITING {
        assert!(rt; is_read(rt.alloc(), line, first(names, *count), Some(to)));
    }
    for line in &ASKING {
        assert!(rt; is_read(rt.alloc(), line, first(names, 1), None));
    }
    let a = Some(names[0]);
    assert!(rt; is_read(rt.alloc(), b"fre_fov a", first(names, 1), a));
}

/// Lines, and the words of their calls.
static WORDS: [(&[u8], Word); 6] = [
    (b"d = b T F", Word::SetBools),
    (b"d = max_suz a", Word::One(OneWord::ScanZ(ScanZ::Max))),
    (b"d = max_sez a s", Word::Two(TwoWord::ScanSegZ(ScanZ::Max))),
    (b"d = smp_pub a i", Word::Two(TwoWord::Smp(Kind::B))),
    (
        b"d = smp_peb a i s",
        Word::Three(ThreeWord::SmpSeg(Kind::B)),
    ),
    (b"ext_vuz a 3", Word::Ext),
];

/// Whether the call of a line has this word.
fn has_word(alloc: Global, line: &[u8], wanted: Word) -> bool {
    match Call::read(alloc, line) {
        Ok(call) => call_word(&call) == wanted,
        Err(_) => false,
    }
}

#[test]
fn tells_the_words_of_calls(rt: HostRuntime) {
    for (line, word) in &WORDS {
        assert!(rt; has_word(rt.alloc(), line, *word));
    }
}
