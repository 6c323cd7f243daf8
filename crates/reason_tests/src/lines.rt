//! Lines and what is wrong with them.

use crate::telling::{expect_good, expect_told};
use bad_lines::{Kind, Place, Why, why_no_call};
use std::test::Fail;
use vector_memory::Edition;

/// First lines of scripts, where their reasons begin, and the texts of these.
static FIRST_LINES: [(&[u8], usize, &[u8]); 36] = [
    (
        b"get a",
        0,
        b"`get` names no caller: a line begins with 0: to 63: and a space",
    ),
    (
        b"64: get a",
        0,
        b"`64:` names no caller: a line begins with 0: to 63: and a space; the greatest is 63, and no zero is needless",
    ),
    (
        b"00: get a",
        0,
        b"`00:` names no caller: a line begins with 0: to 63: and a space; the greatest is 63, and no zero is needless",
    ),
    (
        b"0 : get a",
        0,
        b"`0` names no caller: a line begins with 0: to 63: and a space; the colon is missing, or a space stands before it",
    ),
    (
        b"0:get a",
        0,
        b"`0:get` names no caller: a line begins with 0: to 63: and a space; the colon or the space behind it is missing",
    ),
    (b"0:", 2, b"the line ends where a call is expected"),
    (
        b"0: d = sum_wuz a b",
        7,
        b"`sum_wuz` is no call word; nearest: sub_wuz",
    ),
    (
        b"0: d = ADD_wuz a b",
        7,
        b"`ADD_wuz` is no call word: words are written small; nearest: add_wuz",
    ),
    (
        b"0: d = add_wub a b",
        7,
        b"`add_wub` is no call word; nearest: add_wuz",
    ),
    (
        b"0: d = add_wuz a",
        16,
        b"the line ends where a name is expected for add_wuz",
    ),
    (b"0: get a b", 9, b"`b` is one word too many for get"),
    (
        b"0: get a # the sum",
        9,
        b"`#` is one word too many for get; a comment has a line of its own",
    ),
    (
        b"0: add_wuz a b",
        3,
        b"`add_wuz` wants a target: d = add_wuz ..",
    ),
    (
        b"0: n = add_ruz a",
        7,
        b"`add_ruz` has no target, since it only replies",
    ),
    (
        b"0: a=z 1 2",
        3,
        b"`a=z` is no call word; = is a word of its own, with spaces round it",
    ),
    (
        b"0: a = 1 2",
        7,
        b"`1` is no call word; integers are set by z, as a = z 1 2",
    ),
    (b"0: a =", 6, b"the line ends where a call is expected"),
    (
        b"0: s = s 1 2",
        7,
        b"`s` is no call word; segment lists are made by mke_fov",
    ),
    (
        b"0: a = z 1,2",
        9,
        b"`1,2` is no number: an integer from -9223372036854775808 to 9223372036854775807, without + and needless zeros; spaces part words",
    ),
    (
        b"0: a = z 1.5",
        9,
        b"`1.5` is no number: an integer from -9223372036854775808 to 9223372036854775807, without + and needless zeros",
    ),
    (
        b"0: a = z +1",
        9,
        b"`+1` is no number: an integer from -9223372036854775808 to 9223372036854775807, without + and needless zeros",
    ),
    (
        b"0: a = z 01",
        9,
        b"`01` is no number: an integer from -9223372036854775808 to 9223372036854775807, without + and needless zeros",
    ),
    (
        b"0: a = z -0",
        9,
        b"`-0` is no number: an integer from -9223372036854775808 to 9223372036854775807, without + and needless zeros",
    ),
    (
        b"0: a = z 9223372036854775808",
        9,
        b"`9223372036854775808` is no number: an integer from -9223372036854775808 to 9223372036854775807, without + and needless zeros",
    ),
    (
        b"0: f = b true false",
        9,
        b"`true` is no truth value: T or F",
    ),
    (b"0: f = b T 1", 11, b"`1` is no truth value: T or F"),
    (
        b"0: d = alo_foz n",
        15,
        b"`n` is no number: an integer from -9223372036854775808 to 9223372036854775807, without + and needless zeros",
    ),
    (
        b"0: d = add_wuz a 1",
        17,
        b"`1` is no name: 1 to 16 of a-z, 0-9 and _, a letter first; a number is made a vector by dis_vuz",
    ),
    (
        b"0: Sum = z 1",
        3,
        b"`Sum` is no name: 1 to 16 of a-z, 0-9 and _, a letter first",
    ),
    (
        b"0: 2nd = z 1",
        3,
        b"`2nd` is no name: 1 to 16 of a-z, 0-9 and _, a letter first",
    ),
    (
        b"0: my-sum = z 1",
        3,
        b"`my-sum` is no name: 1 to 16 of a-z, 0-9 and _, a letter first",
    ),
    (
        b"0: abcdefghijklmnopq = z 1",
        3,
        b"`abcdefghijklmnopq` is no name: 1 to 16 of a-z, 0-9 and _, a letter first",
    ),
    (
        b"0: {",
        3,
        b"`{` is for blocks, which a script has whose first line is cvl 2",
    ),
    (
        b"cvl 2 ",
        0,
        b"`cvl` begins no head: the only one is cvl 2, the whole first line with no space round it",
    ),
    (
        b"cvl 3",
        0,
        b"`cvl` begins no head: the only one is cvl 2, the whole first line with no space round it",
    ),
    (
        b" cvl 2",
        1,
        b"`cvl` begins no head: the only one is cvl 2, the whole first line with no space round it",
    ),
];

/// The same of other lines, with the places where they stand.
static LINES: [(&[u8], Place, usize, &[u8]); 41] = [
    (
        b"0: a =z 1",
        Place::First,
        5,
        b"`=z` is no call word; = is a word of its own, with spaces round it",
    ),
    (
        b"0: a := z 1",
        Place::First,
        5,
        b"`:=` is no call word; = is a word of its own, with spaces round it",
    ),
    (
        b"0: a= z 1",
        Place::First,
        3,
        b"`a=` is no call word; = is a word of its own, with spaces round it",
    ),
    (
        b"0: d = add_wuz a, b",
        Place::First,
        15,
        b"`a,` is no name: 1 to 16 of a-z, 0-9 and _, a letter first; spaces part words",
    ),
    (
        b"0: a = z 1 # one",
        Place::First,
        11,
        b"`#` is no number: an integer from -9223372036854775808 to 9223372036854775807, without + and needless zeros; a comment has a line of its own",
    ),
    (
        b"0: get a\r",
        Place::First,
        7,
        b"`a?` has a carriage return, which tr -d '\\r' takes away: byte 13",
    ),
    (
        b"0: a = z 1\t2",
        Place::Outside(Edition::One),
        9,
        b"`1?2` has a tab, where only spaces part words: byte 9",
    ),
    (
        b"help",
        Place::Outside(Edition::One),
        0,
        b"`help` names no caller: a line begins with 0: to 63: and a space; cvl --help tells what there is",
    ),
    (
        b"--help",
        Place::Outside(Edition::One),
        0,
        b"`--help` names no caller: a line begins with 0: to 63: and a space; cvl --help tells what there is",
    ),
    (
        b"quit",
        Place::Outside(Edition::One),
        0,
        b"`quit` names no caller: a line begins with 0: to 63: and a space; the end of the input ends the run: Ctrl-D",
    ),
    (
        b"exit",
        Place::Outside(Edition::One),
        0,
        b"`exit` names no caller: a line begins with 0: to 63: and a space; the end of the input ends the run: Ctrl-D",
    ),
    (
        b"cvl 2",
        Place::Outside(Edition::Two),
        0,
        b"`cvl` begins no head: the only one is cvl 2, the whole first line with no space round it",
    ),
    (
        b"cvl 2",
        Place::Outside(Edition::One),
        0,
        b"`cvl` begins no head: the only one is cvl 2, the whole first line with no space round it",
    ),
    (
        b"0: get abcdefghijklmnopqrstuvwxyz0123456",
        Place::Outside(Edition::Two),
        7,
        b"`abcdefghijklmnopqrstuvwxyz0123456` is no name: 1 to 32 of a-z, 0-9 and _, a letter first",
    ),
    (
        b"0: {",
        Place::Inside {
            caller: 0,
            calls: 1,
        },
        3,
        b"`{` begins a block in a block: the } of the first is missing before it",
    ),
    (
        b"0: }",
        Place::Outside(Edition::Two),
        3,
        b"`}` ends a block, and none is open",
    ),
    (
        b"1: get a",
        Place::Inside {
            caller: 0,
            calls: 1,
        },
        0,
        b"`1:` comes before the } of the block that is open, of caller 0",
    ),
    (
        b"0: }",
        Place::Inside {
            caller: 0,
            calls: 0,
        },
        3,
        b"`}` ends a block that has no call",
    ),
    (
        b"0:{",
        Place::Outside(Edition::Two),
        0,
        b"`0:{` names no caller: a line begins with 0: to 63: and a space; the colon or the space behind it is missing",
    ),
    (
        b"0: { get a",
        Place::Outside(Edition::Two),
        3,
        b"`{` has words behind it, but a brace stands alone behind its caller",
    ),
    (
        b"0: } get a",
        Place::Inside {
            caller: 0,
            calls: 1,
        },
        3,
        b"`}` has words behind it, but a brace stands alone behind its caller",
    ),
    (
        b"0: get a",
        Place::Inside {
            caller: 0,
            calls: 1024,
        },
        3,
        b"`get` is one call too many: a block has at most 1024",
    ),
    (
        b"0:",
        Place::Inside {
            caller: 0,
            calls: 1024,
        },
        2,
        b"the line ends where a call is expected",
    ),
    (
        b"0: get 1",
        Place::Inside {
            caller: 0,
            calls: 1024,
        },
        7,
        b"`1` is no name: 1 to 32 of a-z, 0-9 and _, a letter first; a number is made a vector by dis_vuz",
    ),
    (
        b"0: }",
        Place::Outside(Edition::One),
        3,
        b"`}` is for blocks, which a script has whose first line is cvl 2",
    ),
    (
        b"\xc3\xa9: get a",
        Place::Outside(Edition::One),
        0,
        b"`??:` has a byte that is no printable character: 195",
    ),
    (
        b"0: d = dis_vub 1 3",
        Place::Outside(Edition::One),
        15,
        b"`1` is no truth value: T or F",
    ),
    (
        b"0: d = dis_vub T",
        Place::Outside(Edition::One),
        16,
        b"the line ends where a number is expected for dis_vub",
    ),
    (
        b"0: d = dis_vub",
        Place::Outside(Edition::One),
        14,
        b"the line ends where T or F is expected for dis_vub",
    ),
    (
        b"0: d = rep_vuz a 1",
        Place::Outside(Edition::One),
        18,
        b"the line ends where a number is expected for rep_vuz",
    ),
    (
        b"0: GET a",
        Place::Outside(Edition::One),
        3,
        b"`GET` is no call word: words are written small; nearest: get",
    ),
    (
        b"0: aaaaaaaaaaaaaaaaaaaaaaaaaaaaaaaaaaaaaaaaaaaaaaaaaaaaaaaaaaaaaaaaaaaaaaaaaaaaaaaa",
        Place::Outside(Edition::One),
        3,
        b"`aaaaaaaaaaaaaaaaaaaaaaaaaaaaaaaaaaaaaaaa..` is no call word",
    ),
    (
        b"0: xyz a",
        Place::Outside(Edition::One),
        3,
        b"`xyz` is no call word",
    ),
    (
        b"0: d = T F",
        Place::Outside(Edition::One),
        7,
        b"`T` is no call word; truth values are set by b, as f = b T F",
    ),
    (
        b"0: = z 1",
        Place::Outside(Edition::One),
        3,
        b"`=` is no call word; a name is missing before it",
    ),
    (
        b"0: a = -5",
        Place::Outside(Edition::One),
        7,
        b"`-5` is no call word; integers are set by z, as a = z 1 2",
    ),
    (
        b"7: a = ext_vuz a 1",
        Place::Outside(Edition::One),
        7,
        b"`ext_vuz` has no target, since it only replies",
    ),
    (
        b"7: ext_vuz a 1 2",
        Place::Outside(Edition::One),
        15,
        b"`2` is one word too many for ext_vuz",
    ),
    (
        b"0: d = add a b",
        Place::Outside(Edition::One),
        7,
        b"`add` is no call word; nearest: add_wuz",
    ),
    (
        b"0: d = addwuz a b",
        Place::Outside(Edition::One),
        7,
        b"`addwuz` is no call word; nearest: add_wuz",
    ),
    (
        b"0: d = bck_pez a b c",
        Place::Outside(Edition::One),
        20,
        b"the line ends where a name is expected for bck_pez",
    ),
];

/// Lines that are good at their places.
static GOOD_LINES: [(&[u8], Place); 11] = [
    (b"cvl 2", Place::First),
    (
        b"0: get abcdefghijklmnopqrstuvwxyz012345",
        Place::Outside(Edition::Two),
    ),
    (
        b"0: }",
        Place::Inside {
            caller: 0,
            calls: 1,
        },
    ),
    (b"0: {", Place::Outside(Edition::Two)),
    (
        b"0: }",
        Place::Inside {
            caller: 0,
            calls: 1024,
        },
    ),
    (
        b"0: get a",
        Place::Inside {
            caller: 0,
            calls: 1,
        },
    ),
    (b"# anything \xc3\xa9", Place::Outside(Edition::One)),
    (b"", Place::Outside(Edition::One)),
    (b"   ", Place::Outside(Edition::One)),
    (b"63: get a", Place::Outside(Edition::One)),
    (b"0: d = pck_peb f g h", Place::Outside(Edition::One)),
];

#[test]
fn tells_first_lines(rt: HostRuntime) {
    for (line, at, text) in &FIRST_LINES {
        expect_told(&rt, rt.alloc(), line, Place::First, *at, text);
    }
}

#[test]
fn tells_lines_by_their_places(rt: HostRuntime) {
    for (line, place, at, text) in &LINES {
        expect_told(&rt, rt.alloc(), line, *place, *at, text);
    }
}

#[test]
fn tells_nothing_of_good_lines(rt: HostRuntime) {
    for (line, place) in &GOOD_LINES {
        expect_good(&rt, line, *place);
    }
}

#[test]
fn tells_that_a_line_is_too_long(rt: HostRuntime) -> Result<(), Fail> {
    let line = vec![in rt.alloc(); b' '; 1_048_577]?;
    let text = b"the line has more than 1048576 bytes";
    expect_told(&rt, rt.alloc(), &line, Place::First, line.len(), text);
    expect_good(&rt, &line[1..], Place::First);
    Ok(())
}

#[test]
fn tells_why_a_text_is_no_call(rt: HostRuntime) -> Result<(), Fail> {
    let reason = why_no_call(b" a = add_wuz  b ", Edition::Two).ok_or("a reason")?;
    assert_eq!(rt; reason.why, Why::Ends(Kind::Name));
    assert_eq!(rt; reason.at, 16);
    assert!(rt; reason.found.is_empty());
    assert!(rt; reason.call == b"add_wuz".as_slice());
    assert!(rt; why_no_call(b" a = add_wuz  b b", Edition::Two).is_none());
    Ok(())
}
