//! Operations item by item, and the choice between two vectors.

use super::{assert_choices, assert_divisible, assert_paired};
use crate::joined_parts::{gives_bools, gives_ints};
use scan_kernels::joined::{Number, Select, Truth};
use scan_kernels::{B1, B2, Cmp, Z1, Z2};

#[test]
fn alters_the_items_of_each_part(rt: HostRuntime) {
    let parts: [&[i64]; 3] = [&[0, 5], &[], &[i64::MIN]];
    let turned: [&[i64]; 3] = [&[-1, -6], &[], &[i64::MAX]];
    assert!(rt; gives_ints(&rt, rt.alloc(), Z1::Not, &parts, &turned));
    assert!(rt; gives_ints(&rt, rt.alloc(), Z1::Cpy, &parts, &parts));
    let parts: [&[bool]; 2] = [&[true, false], &[]];
    assert!(rt; gives_bools(&rt, rt.alloc(), B1::Not, &parts, &[&[false, true], &[]]));
}

#[test]
fn converts_the_items_of_each_part(rt: HostRuntime) {
    let parts: [&[i64]; 3] = [&[0, -3], &[], &[1]];
    let wanted: [&[bool]; 3] = [&[false, true], &[], &[true]];
    assert!(rt; gives_bools(&rt, rt.alloc(), Truth, &parts, &wanted));
    let parts: [&[bool]; 3] = [&[], &[true, false], &[true]];
    assert!(rt; gives_ints(&rt, rt.alloc(), Number, &parts, &[&[], &[1, 0], &[1]]));
}

#[test]
fn combines_the_pairs_of_each_part(rt: HostRuntime) {
    let parts: [(&[i64], &[i64]); 3] = [(&[-7, 9], &[2, -4]), (&[], &[]), (&[i64::MIN], &[-1])];
    assert_divisible(&rt, &parts);
    let quotients: [&[i64]; 3] = [&[-3, -2], &[], &[i64::MIN]];
    assert!(rt; gives_ints(&rt, rt.alloc(), Z2::Div, &parts, &quotients));
    let parts: [(&[bool], &[bool]); 3] = [
        (&[true, true], &[true, false]),
        (&[], &[]),
        (&[false], &[true]),
    ];
    assert_paired(&rt, &parts);
    let differ: [&[bool]; 3] = [&[false, true], &[], &[true]];
    assert!(rt; gives_bools(&rt, rt.alloc(), B2::Xor, &parts, &differ));
}

#[test]
fn compares_the_pairs_of_each_part(rt: HostRuntime) {
    let parts: [(&[i64], &[i64]); 3] = [(&[1, 2, 3], &[2, 2, 2]), (&[], &[]), (&[0], &[-1])];
    assert_paired(&rt, &parts);
    let less: [&[bool]; 3] = [&[true, false, false], &[], &[false]];
    assert!(rt; gives_bools(&rt, rt.alloc(), Cmp::Les, &parts, &less));
    let not_less: [&[bool]; 3] = [&[false, true, true], &[], &[true]];
    assert!(rt; gives_bools(&rt, rt.alloc(), Cmp::Geq, &parts, &not_less));
}

#[test]
fn chooses_by_the_flags_of_each_part(rt: HostRuntime) {
    let parts: [(&[bool], &[i64], &[i64]); 3] = [
        (&[true, false], &[1, 2], &[3, 4]),
        (&[], &[], &[]),
        (&[false], &[5], &[6]),
    ];
    assert_choices(&rt, &parts);
    assert!(rt; gives_ints(&rt, rt.alloc(), Select, &parts, &[&[1, 4], &[], &[6]]));
    let parts: [(&[bool], &[bool], &[bool]); 2] = [
        (&[], &[], &[]),
        (&[true, false], &[true, true], &[false, false]),
    ];
    assert_choices(&rt, &parts);
    assert!(rt; gives_bools(&rt, rt.alloc(), Select, &parts, &[&[], &[true, false]]));
}

/// By chunks of two parts, of which the last is one.
#[test]
fn alters_parts_of_several_lengths(rt: HostRuntime) {
    let parts: [&[i64]; 5] = [
        &[1, 2, 3],
        &[],
        &[4, 5, 6, 7],
        &[0, 1, 2, 3, 4, 5, 6, 7, 8],
        &[9],
    ];
    let turned: [&[i64]; 5] = [
        &[-2, -3, -4],
        &[],
        &[-5, -6, -7, -8],
        &[-1, -2, -3, -4, -5, -6, -7, -8, -9],
        &[-10],
    ];
    assert!(rt; gives_ints(&rt, rt.alloc(), Z1::Not, &parts, &turned));
}
