use crate::asking::{answers, opened, replies, told};
use combiner::{Combined, MakeFault};
use cvl_port::{Closing, Port, PostFault, Told, open};
use cvl_text::ReadFault;
use std::alloc::Global;

/// Whether a port of a machine of its own is told all that one caller can be told.
fn is_told(port: &mut Port, alloc: Global) -> bool {
    port.poll() == Told::Idle
        && port.post_line(alloc, b"a = zz") == Err(PostFault::BadCall)
        && port.post_line(alloc, b"a = z 1 2") == Ok(())
        && port.post_get(b"a") == Err(PostFault::Occupied)
        && port.poll() == Told::Waiting
        && matches!(
            &port.serve(alloc),
            Combined::Served {
                calls: 1,
                waves: 1,
                kernels: 0
            }
        )
        && port.poll() == Told::Answered
        && port.place == 0
        && port.look() == 1
        && answers(port, alloc, b"add_ruz a", b"int 3")
        && answers(port, alloc, b"add_ruz b", b"fault 1")
        && port.look() == 3
}

/// Whether calls that are begun with nobody else about are answered at once.
fn begins(port: &mut Port, alloc: Global) -> bool {
    port.begin_line(alloc, b"g = zz") == Err(PostFault::BadCall)
        && port.begin_prepared(alloc, 0) == Err(PostFault::NotPrepared)
        && port.begin_line(alloc, b"g = z 4 5") == Ok(true)
        && port.place == 3
        && replies(port, alloc, 0, b"ok")
        && port.poll() == Told::Idle
        && port.begin_line(alloc, b"add_ruz g") == Ok(true)
        && replies(port, alloc, 0, b"int 9")
        && port.prepare(alloc, b"g = add_wuz g g") == Ok(0)
        && port.begin_prepared(alloc, 0) == Ok(true)
        && port.post_line(alloc, b"add_ruz g") == Ok(())
        && port.begin_prepared(alloc, 0) == Err(PostFault::Occupied)
        && told(port, alloc, Told::Answered)
        && replies(port, alloc, 0, b"int 18")
}

/// Whether arrays are set and got.
fn sets(port: &mut Port, alloc: Global) -> bool {
    port.post_ints(alloc, b"A", &[1]) == Err(PostFault::BadName)
        && port.post_ints(alloc, b"i", &[1, -2]) == Ok(())
        && told(port, alloc, Told::Answered)
        && port.post_bools(alloc, b"t", &[true, false]) == Ok(())
        && told(port, alloc, Told::Answered)
        && port.post_lengths(alloc, b"s", &[2, 0]) == Ok(())
        && told(port, alloc, Told::AnsweredBlock)
        && port.post_get(b"s") == Ok(())
        && told(port, alloc, Told::Answered)
        && replies(port, alloc, 0, b"s 2 0")
        && answers(port, alloc, b"get i", b"z 1 -2")
        && answers(port, alloc, b"get t", b"b T F")
}

/// Whether a block takes effect, and none of too few calls or with a bad line.
fn blocks(port: &mut Port, alloc: Global) -> bool {
    port.post_lines(alloc, b"") == Err(PostFault::BadCount)
        && port.post_lines(alloc, b"p = z 1\nq = what") == Err(PostFault::BadCall)
        && port.post_lines(alloc, b"p = z 1\nq = add_wuz p p\nadd_ruz q\n") == Ok(())
        && told(port, alloc, Told::AnsweredBlock)
        && port.last.count() == 3
        && replies(port, alloc, 1, b"ok")
        && replies(port, alloc, 2, b"int 2")
        && !replies(port, alloc, 3, b"ok")
}

/// Whether prepared calls are left again and again, one and as a block.
fn prepares(port: &mut Port, alloc: Global) -> bool {
    port.prepare(alloc, b"x = what") == Err(ReadFault::BadCall)
        && port.prepare(alloc, b"x = z 1") == Ok(0)
        && port.prepare(alloc, b"x = add_wuz x x") == Ok(1)
        && port.post_prepared(alloc, 2) == Err(PostFault::NotPrepared)
        && port.post_prepared_block(alloc, &[0, 1, 1]) == Ok(())
        && told(port, alloc, Told::AnsweredBlock)
        && port.post_prepared(alloc, 1) == Ok(())
        && told(port, alloc, Told::Answered)
        && answers(port, alloc, b"add_ruz x", b"int 8")
}

#[test]
fn one_port(rt: HostRuntime) {
    let mut ports = opened(&rt, rt.alloc(), 1);
    let mut port = ports.pop().expect(&rt, "a port");
    assert!(rt; is_told(&mut port, rt.alloc()));
    assert!(rt; begins(&mut port, rt.alloc()));
    port.forget();
    assert!(rt; sets(&mut port, rt.alloc()));
    assert!(rt; blocks(&mut port, rt.alloc()));
    assert!(rt; prepares(&mut port, rt.alloc()));
    port.forget();
    assert!(rt; port.post_prepared(rt.alloc(), 0) == Err(PostFault::NotPrepared));
    assert!(rt; matches!(&port.close(), Closing::Closed(_)));
}

#[test]
fn two_ports(rt: HostRuntime) {
    let mut ports = opened(&rt, rt.alloc(), 2);
    let mut second = ports.pop().expect(&rt, "a port");
    let mut first = ports.pop().expect(&rt, "a port");
    assert!(rt; first.post_line(rt.alloc(), b"a = z 5") == Ok(()));
    assert!(rt; answers(&mut second, rt.alloc(), b"b = z 6", b"ok"));
    assert!(rt; first.poll() == Told::Answered && second.look() == 2);
    assert!(rt; matches!(&first.close(), Closing::OthersOpen));
    assert!(rt; matches!(&second.close(), Closing::Closed(_)));
}

#[test]
fn no_machine(rt: HostRuntime) {
    assert!(rt; matches!(&open(rt.alloc(), 0, 1000), Err(MakeFault::BadCallers)));
    assert!(rt; matches!(&open(rt.alloc(), 1, 0), Err(MakeFault::BadRoom)));
}
