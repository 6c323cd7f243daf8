ghost use Rattle.std.specs.Prelude.{◌≡◌, length, All};
ghost use Rattle.item_operations.specs.IntegerOps.{IsAllowed};

use crate::made::is_made;
use scan_kernels::{
    B1, B2, Cmp, Execution, Meter, Z1, Z2, compare2, divisors_ok, map1_b, map1_z, map2_b, map2_z,
    number, select_b, select_z, shifts_ok, truth,
};
use std::alloc::{Alloc, Global};
use std::process::Abort;

/// Whether the operation gives the items wanted, in one run.
fn makes(
    rt: &(impl Abort + Alloc<A = Global>),
    threads: &impl Execution,
    op: Z2,
    a: &[i64],
    b: &[i64],
    wanted: &[i64],
) -> bool
    requires same_length { length a.now ≡ length b.now }
    requires allowed { All (IsAllowed op) b.now }
{
    let mut meter = Meter::new();
    let made = map2_z(threads, rt.alloc(), &mut meter, op, a, b).expect(rt, "memory");
    made.as_slice() == wanted && meter.runs() == 1
}

/// Whether the comparison gives the truth values wanted, in one run.
fn compares(
    rt: &(impl Abort + Alloc<A = Global>),
    threads: &impl Execution,
    op: Cmp,
    a: &[i64],
    b: &[i64],
    wanted: &[bool],
) -> bool
    requires { length a.now ≡ length b.now }
{
    let mut meter = Meter::new();
    let made = compare2(threads, rt.alloc(), &mut meter, op, a, b).expect(rt, "memory");
    made.as_slice() == wanted && meter.runs() == 1
}

/// Whether the operation gives the truth values wanted, in one run.
fn makes_b(
    rt: &(impl Abort + Alloc<A = Global>),
    threads: &impl Execution,
    op: B2,
    a: &[bool],
    b: &[bool],
    wanted: &[bool],
) -> bool
    requires { length a.now ≡ length b.now }
{
    let mut meter = Meter::new();
    let made = map2_b(threads, rt.alloc(), &mut meter, op, a, b).expect(rt, "memory");
    made.as_slice() == wanted && meter.runs() == 1
}

#[test]
fn sums_and_products_wrap(rt: HostRuntime) {
    let a = [i64::MAX, i64::MIN, i64::MAX, i64::MIN];
    let b = [1i64, -1, -1, i64::MIN];
    assert!(rt;
        makes(
            &rt,
            &rt,
            Z2::Add,
            &a,
            &b,
            &[i64::MIN, i64::MAX, i64::MAX - 1, 0]
        )
    );
    assert!(rt;
        makes(
            &rt,
            &rt,
            Z2::Sub,
            &a,
            &b,
            &[i64::MAX - 1, i64::MIN + 1, i64::MIN, 0]
        )
    );
    assert!(rt;
        makes(
            &rt,
            &rt,
            Z2::Mul,
            &a,
            &b,
            &[i64::MAX, i64::MIN, i64::MIN + 1, 0]
        )
    );
    assert!(rt; makes(&rt, &rt, Z2::Add, &[], &[], &[]));
}

#[test]
fn quotients_go_towards_zero(rt: HostRuntime) {
    let a = [-7i64, 7, i64::MIN, i64::MAX, i64::MIN];
    let b = [2i64, -2, -1, i64::MIN, i64::MAX];
    assert!(rt; divisors_ok(&b));
    if divisors_ok(&b) {
        assert!(rt; makes(&rt, &rt, Z2::Div, &a, &b, &[-3, -3, i64::MIN, 0, -1]));
        assert!(rt; makes(&rt, &rt, Z2::Mod, &a, &b, &[-1, 1, 0, i64::MAX, -1]));
    }
}

#[test]
fn shifts_drop_bits_and_keep_the_sign(rt: HostRuntime) {
    let a = [1i64, i64::MAX, i64::MIN, i64::MIN, -5];
    let b = [63i64, 1, 1, 63, 0];
    assert!(rt; shifts_ok(&b));
    if shifts_ok(&b) {
        assert!(rt; makes(&rt, &rt, Z2::Lsh, &a, &b, &[i64::MIN, -2, 0, 0, -5]));
        let halved = [0i64, 4611686018427387903, -4611686018427387904, -1, -5];
        assert!(rt; makes(&rt, &rt, Z2::Rsh, &a, &b, &halved));
    }
}

#[test]
fn greater_lesser_and_bits(rt: HostRuntime) {
    let a = [i64::MAX, -1, 12, 0];
    let b = [i64::MIN, i64::MIN, 10, -1];
    assert!(rt; makes(&rt, &rt, Z2::Max, &a, &b, &[i64::MAX, -1, 12, 0]));
    assert!(rt; makes(&rt, &rt, Z2::Min, &a, &b, &[i64::MIN, i64::MIN, 10, -1]));
    assert!(rt; makes(&rt, &rt, Z2::And, &a, &b, &[0, i64::MIN, 8, 0]));
    assert!(rt; makes(&rt, &rt, Z2::Ior, &a, &b, &[-1, -1, 14, -1]));
    assert!(rt; makes(&rt, &rt, Z2::Xor, &a, &b, &[-1, i64::MAX, 6, -1]));
}

#[test]
fn compares_the_ends(rt: HostRuntime) {
    let a = [1i64, 2, i64::MIN];
    let b = [2i64, 2, i64::MAX];
    assert!(rt; compares(&rt, &rt, Cmp::Eql, &a, &b, &[false, true, false]));
    assert!(rt; compares(&rt, &rt, Cmp::Neq, &a, &b, &[true, false, true]));
    assert!(rt; compares(&rt, &rt, Cmp::Les, &a, &b, &[true, false, true]));
    assert!(rt; compares(&rt, &rt, Cmp::Leq, &a, &b, &[true, true, true]));
    assert!(rt; compares(&rt, &rt, Cmp::Grt, &a, &b, &[false, false, false]));
    assert!(rt; compares(&rt, &rt, Cmp::Geq, &a, &b, &[false, true, false]));
}

#[test]
fn truth_tables(rt: HostRuntime) {
    let a = [true, true, false, false];
    let b = [true, false, true, false];
    assert!(rt; makes_b(&rt, &rt, B2::And, &a, &b, &[true, false, false, false]));
    assert!(rt; makes_b(&rt, &rt, B2::Ior, &a, &b, &[true, true, true, false]));
    assert!(rt; makes_b(&rt, &rt, B2::Xor, &a, &b, &[false, true, true, false]));
}

#[test]
fn alters_single_items(rt: HostRuntime) {
    let mut meter = Meter::new();
    let not = map1_z(&rt, rt.alloc(), &mut meter, Z1::Not, &[0, 5, i64::MAX]);
    assert!(rt; is_made(not, &[-1i64, -6, i64::MIN]));
    assert!(rt; meter.runs() == 1);
    let same = map1_z(&rt, rt.alloc(), &mut meter, Z1::Cpy, &[3, i64::MIN]);
    assert!(rt; is_made(same, &[3i64, i64::MIN]));
    assert!(rt; meter.runs() == 2);
    let not = map1_b(&rt, rt.alloc(), &mut meter, B1::Not, &[true, false]);
    assert!(rt; is_made(not, &[false, true]));
    assert!(rt; meter.runs() == 3);
    let same = map1_b(&rt, rt.alloc(), &mut meter, B1::Cpy, &[true, false]);
    assert!(rt; is_made(same, &[true, false]));
    assert!(rt; meter.runs() == 4);
}

#[test]
fn selects_by_flags(rt: HostRuntime) {
    let mut meter = Meter::new();
    let items = select_z(
        &rt,
        rt.alloc(),
        &mut meter,
        &[true, false],
        &[1, 2],
        &[3, 4],
    );
    assert!(rt; is_made(items, &[1i64, 4]));
    assert!(rt; meter.runs() == 1);
    let flags = select_b(
        &rt,
        rt.alloc(),
        &mut meter,
        &[true, false],
        &[true, true],
        &[false, false],
    );
    assert!(rt; is_made(flags, &[true, false]));
    assert!(rt; meter.runs() == 2);
}

#[test]
fn converts_both_ways(rt: HostRuntime) {
    let mut meter = Meter::new();
    let flags = truth(&rt, rt.alloc(), &mut meter, &[0, -3, 1]);
    assert!(rt; is_made(flags, &[false, true, true]));
    assert!(rt; meter.runs() == 1);
    let items = number(&rt, rt.alloc(), &mut meter, &[true, false]);
    assert!(rt; is_made(items, &[1i64, 0]));
    assert!(rt; meter.runs() == 2);
}

#[test]
fn judges_second_operands(rt: HostRuntime) {
    assert!(rt; divisors_ok(&[]));
    assert!(rt; divisors_ok(&[1, -1, i64::MIN, i64::MAX]));
    assert!(rt; !divisors_ok(&[1, 0, 2]));
    assert!(rt; shifts_ok(&[]));
    assert!(rt; shifts_ok(&[0, 63]));
    assert!(rt; !shifts_ok(&[0, 64]));
    assert!(rt; !shifts_ok(&[-1]));
    assert!(rt; !shifts_ok(&[i64::MIN, 1]));
}
