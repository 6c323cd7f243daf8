//! Lines that are calls, with what they set, and lines that are none.

use cvl_text::{Call, ReadFault, laws, next_word};

/// Lines that are no calls.
static BAD: [&[u8]; 58] = [
    // no call word, or not in its place
    b"",
    b"   ",
    b"=",
    b"a",
    b"a =",
    b"a = c",
    b"get = a",
    b"a = = get a",
    // a target where none may stand, and none where one must
    b"a = get a",
    b"a = fre_fov b",
    b"a = len_fov b",
    b"a = ext_vuz b 1",
    b"a = add_ruz b",
    b"a = and_rub b",
    b"alo_foz 3",
    b"mov_fov a",
    b"add_wuz a b",
    b"ind_luz 1 2 3",
    b"bck_pez a s i t",
    b"rep_vuz a 1 2",
    // too few words, and too many
    b"get",
    b"get a b",
    b"a = add_wuz a",
    b"a = add_wuz a b c",
    b"a = sel_wub f a",
    b"a = pck_peb a f s t",
    b"a = bck_peb a s i",
    b"a = bck_peb a s i t u",
    b"a = dis_vuz 7",
    b"a = ind_luz 1 2 3 4",
    b"a = rep_vuz b 1",
    b"ext_vuz a",
    // an argument of another kind
    b"a = alo_foz b",
    b"a = dis_vub 1 3",
    b"a = dis_vuz T 3",
    b"a = dis_vub F a",
    b"a = rep_vuz 1 2 3",
    b"ext_vuz a b",
    b"a = b 1",
    b"a = b t",
    b"a = b TF",
    b"a = z T",
    // a word of no shape, in capitals, or of an operation that its shape lacks
    b"a = add_wux a b",
    b"a = ADD_WUZ a b",
    b"a = add_wub a b",
    b"a = sub_suz a",
    b"a = mul_seb a s",
    b"a = pkl_lez f s",
    b"a = dis_vezz a s",
    b"Get a",
    // names that are none
    b"A = z 1",
    b"1a = z 1",
    b"_a = z 1",
    b"aaaaaaaaaaaaaaaaa = z 1",
    b"get A",
    b"a\t= z 1",
    b"a\xc8 = z 1",
    b"a = z 1\t2",
];

/// Words that are no numbers.
static BAD_NUMBERS: [&[u8]; 12] = [
    b"a = z 1 -",
    b"a = z -0",
    b"a = z +1",
    b"a = z 01",
    b"a = z -01",
    b"a = z --1",
    b"a = z 1a",
    b"a = z 9223372036854775808",
    b"a = z -9223372036854775809",
    b"a = z 18446744073709551617",
    b"a = z 99999999999999999999",
    b"a = alo_foz 00",
];

fn is_bad(rt: &HostRuntime, line: &[u8]) -> bool {
    matches!(Call::read(rt.alloc(), line), Err(ReadFault::BadCall))
}

fn sets(rt: &HostRuntime, line: &[u8], wanted: &[i64]) -> bool {
    match Call::read(rt.alloc(), line) {
        Ok(Call::SetInts { items, .. }) => items.as_slice() == wanted,
        _ => false,
    }
}

fn sets_truths(rt: &HostRuntime, line: &[u8], wanted: &[bool]) -> bool {
    match Call::read(rt.alloc(), line) {
        Ok(Call::SetBools { items, .. }) => items.as_slice() == wanted,
        _ => false,
    }
}

fn counts_from(rt: &HostRuntime, line: &[u8], start: i64, step: i64, count: i64) -> bool {
    match Call::read(rt.alloc(), line) {
        Ok(Call::Ind { u, v, n, .. }) => (u == start) & (v == step) & (n == count),
        _ => false,
    }
}

#[test]
fn refuses_bad_lines(rt: HostRuntime) {
    for line in &BAD {
        assert!(rt; is_bad(&rt, line));
    }
    for line in &BAD_NUMBERS {
        assert!(rt; is_bad(&rt, line));
    }
}

#[test]
fn reads_items(rt: HostRuntime) {
    assert!(rt; sets(&rt, b"a = z", &[]));
    assert!(rt; sets(&rt, b"  z =   z  1 ", &[1]));
    assert!(rt; sets(&rt, b"get = z 0 -1 10 -10", &[0, -1, 10, -10]));
    assert!(rt; sets(&rt, b"a = z 9223372036854775807", &[i64::MAX]));
    assert!(rt; sets(&rt, b"a = z -9223372036854775808", &[i64::MIN]));
    assert!(rt; sets_truths(&rt, b"a = b", &[]));
    assert!(rt; sets_truths(&rt, b" b =  b  T F   F ", &[true, false, false]));
    assert!(rt; counts_from(&rt, b"i = ind_luz 5 -2 4", 5, -2, 4));
}

#[test]
fn cuts_words(rt: HostRuntime) {
    assert!(rt; next_word(b"  ").is_none());
    assert!(rt; next_word(b"  ab cd") == Some((b"ab".as_slice(), b" cd".as_slice())));
    laws::lines_read_back();
}
