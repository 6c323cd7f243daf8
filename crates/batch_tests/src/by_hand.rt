//! Small batches whose waves, kernel runs, replies and memories were worked out by hand.

use crate::case::{Case, comes_about};

#[test]
fn joins_empty_operands_with_others(rt: HostRuntime) {
    let case = Case {
        room: 1000,
        before: "e = z\na = z 1 2 3\nb = z 10 20 30",
        calls: "p = add_wuz e e\nq = add_wuz a b",
        waves: 1,
        kernels: 1,
        answers: "3 ok\n4 ok\n",
        after: "e z\na z 1 2 3\nb z 10 20 30\np z\nq z 11 22 33\n",
    };
    comes_about(&rt, rt.alloc(), &case)
}

#[test]
fn a_later_reader_waits_for_the_target(rt: HostRuntime) {
    let case = Case {
        room: 1000,
        before: "a = z 5\nb = z 1",
        calls: "b = add_wuz a a\nget b",
        waves: 2,
        kernels: 1,
        answers: "2 ok\n3 z 10\n",
        after: "a z 5\nb z 10\n",
    };
    comes_about(&rt, rt.alloc(), &case)
}

#[test]
fn an_earlier_reader_sees_the_old_value(rt: HostRuntime) {
    let case = Case {
        room: 1000,
        before: "a = z 5\nb = z 1",
        calls: "get b\nb = add_wuz a a",
        waves: 1,
        kernels: 1,
        answers: "2 z 1\n3 ok\n",
        after: "a z 5\nb z 10\n",
    };
    comes_about(&rt, rt.alloc(), &case)
}

/// Where each call of a word has a fault there is nothing to run.
#[test]
fn faults_alone_run_no_kernel(rt: HostRuntime) {
    let case = Case {
        room: 1000,
        before: "a = z 1\nz = z 0",
        calls: "x = div_wuz a z\ny = div_wuz a z",
        waves: 1,
        kernels: 0,
        answers: "2 fault 6\n3 fault 6\n",
        after: "a z 1\nz z 0\n",
    };
    comes_about(&rt, rt.alloc(), &case)
}

#[test]
fn a_fault_stays_with_its_call(rt: HostRuntime) {
    let case = Case {
        room: 1000,
        before: "p = z 6\nq = z 2\nr = z 1\ns = z 0",
        calls: "x = div_wuz p q\ny = div_wuz r s",
        waves: 1,
        kernels: 1,
        answers: "4 ok\n5 fault 6\n",
        after: "p z 6\nq z 2\nr z 1\ns z 0\nx z 3\n",
    };
    comes_about(&rt, rt.alloc(), &case)
}

/// The third call reads nothing and joins the first wave, so it stands before the second in the history.
#[test]
fn the_order_is_that_of_the_waves(rt: HostRuntime) {
    let case = Case {
        room: 1000,
        before: "",
        calls: "b = z 1\nc = cpy_wuz b\nb = z 2",
        waves: 2,
        kernels: 1,
        answers: "0 ok\n2 ok\n1 ok\n",
        after: "b z 2\nc z 2\n",
    };
    comes_about(&rt, rt.alloc(), &case)
}

#[test]
fn segments_of_two_calls_stay_apart(rt: HostRuntime) {
    let case = Case {
        room: 1000,
        before: "a = z 1 2\nl = z 2\ns = mke_fov l\nb = z 3 4 5\nm = z 1 0 2\nt = mke_fov m",
        calls: "p = add_rez a s\nq = add_rez b t",
        waves: 1,
        kernels: 1,
        answers: "6 ok\n7 ok\n",
        after: "a z 1 2\nl z 2\ns s 2\nb z 3 4 5\nm z 1 0 2\nt s 1 0 2\np z 3\nq z 3 0 9\n",
    };
    comes_about(&rt, rt.alloc(), &case)
}

#[test]
fn packs_each_call_by_itself(rt: HostRuntime) {
    let case = Case {
        room: 1000,
        before: "a = z 5 6\nf = b T F\ng = b F F",
        calls: "p = pck_puz a f\nq = pck_puz a g",
        waves: 1,
        kernels: 1,
        answers: "3 ok\n4 ok\n",
        after: "a z 5 6\nf b T F\ng b F F\np z 5\nq z\n",
    };
    comes_about(&rt, rt.alloc(), &case)
}

#[test]
fn joins_calls_of_numbers_alone(rt: HostRuntime) {
    let case = Case {
        room: 1000,
        before: "",
        calls: "p = dis_vuz 7 2\nq = dis_vuz 9 0",
        waves: 1,
        kernels: 1,
        answers: "0 ok\n1 ok\n",
        after: "p z 7 7\nq z\n",
    };
    comes_about(&rt, rt.alloc(), &case)
}

#[test]
fn two_words_run_two_kernels(rt: HostRuntime) {
    let case = Case {
        room: 1000,
        before: "a = z 2",
        calls: "p = add_wuz a a\nq = mul_wuz a a",
        waves: 1,
        kernels: 2,
        answers: "1 ok\n2 ok\n",
        after: "a z 2\np z 4\nq z 4\n",
    };
    comes_about(&rt, rt.alloc(), &case)
}

#[test]
fn the_second_of_two_finds_no_room(rt: HostRuntime) {
    let case = Case {
        room: 4,
        before: "a = z 1 2",
        calls: "p = add_wuz a a\nq = add_wuz a a",
        waves: 1,
        kernels: 1,
        answers: "1 ok\n2 fault 9\n",
        after: "a z 1 2\np z 2 4\n",
    };
    comes_about(&rt, rt.alloc(), &case)
}

/// What is freed is a target too.
#[test]
fn frees_between_two_readers(rt: HostRuntime) {
    let case = Case {
        room: 1000,
        before: "a = z 1",
        calls: "get a\nfre_fov a\nget a",
        waves: 2,
        kernels: 0,
        answers: "1 z 1\n2 ok\n3 fault 1\n",
        after: "",
    };
    comes_about(&rt, rt.alloc(), &case)
}

#[test]
fn serves_no_call_at_all(rt: HostRuntime) {
    let case = Case {
        room: 1000,
        before: "a = z 1",
        calls: "",
        waves: 0,
        kernels: 0,
        answers: "",
        after: "a z 1\n",
    };
    comes_about(&rt, rt.alloc(), &case)
}
