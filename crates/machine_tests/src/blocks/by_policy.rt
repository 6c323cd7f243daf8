//! Calls and blocks by an execution policy: kernels over large vectors go in threads of the runtime.

ghost use Rattle.std.specs.Prelude.{◌≡◌, ◌≤◌, length};
ghost use Rattle.call_history.specs.Blocks.{block_limit};
ghost use Rattle.combiner.specs.Standing.{IsIdle, HasLeftABlock};

use super::machines::{block_of, text_of};
use crate::asking::read;
use crate::table::two_with;
use combiner::{Caller, Shared};
use cvl_text::{Call, Reply};

/// As many items as a vector may have, from which on a reduction goes in threads; and room for three of them.
const LINE: &[u8] = b"a = dis_vuz 3 1048576";

const ROOM: u64 = 3_145_728;

#[test]
fn a_call_by_a_runtime(rt: HostRuntime) {
    let alloc = rt.alloc();
    let (shared, mut first, _) = two_with(&rt, alloc, ROOM);
    let set = shared.call_by(&rt, &rt, alloc, &mut first, read(&rt, alloc, LINE));
    let (place, reply) = set.ok().expect(&rt, "memory");
    assert!(rt; place == 0 && matches!(&reply, Reply::Done));
    let sum = shared.call_by(&rt, &rt, alloc, &mut first, read(&rt, alloc, b"add_ruz a"));
    let (place, reply) = sum.ok().expect(&rt, "memory");
    assert!(rt; place == 1 && matches!(&reply, Reply::Int(3_145_728)));
}

/// Leaves a block of an idle caller.
fn leave(shared: &Shared, caller: &mut Caller, calls: Vec<Call>)
    requires machine { caller.old.machine ≡ shared.now }
    requires idle { IsIdle caller.old }
    requires few { (1 ≤ length calls.items) × (length calls.items ≤ block_limit) }
    ensures machine { caller.new.machine ≡ shared.now }
    ensures left { HasLeftABlock caller.new }
{
    let Ok(()) = shared.post_block(caller, calls) else {
        unreachable!()
    };
}

#[test]
fn a_block_by_a_runtime(rt: HostRuntime) {
    let alloc = rt.alloc();
    let (shared, mut first, mut second) = two_with(&rt, alloc, ROOM);
    let block = block_of(&rt, alloc, &[LINE, b"b = add_wuz a a", b"add_ruz b"]);
    let ran = shared.call_block_by(&rt, &rt, alloc, &mut first, block);
    let (place, replies) = ran.ok().expect(&rt, "memory");
    assert!(rt; place == 0);
    assert!(rt; text_of(&rt, alloc, &replies).as_slice() == b"ok\nok\nint 6291456\n".as_slice());
    leave(&shared, &mut second, block_of(&rt, alloc, &[b"max_ruz b"]));
    let waited = shared.wait_block_by(&rt, &rt, alloc, &mut second);
    let (place, replies) = waited.ok().expect(&rt, "memory");
    assert!(rt; place == 3);
    assert!(rt; text_of(&rt, alloc, &replies).as_slice() == b"int 6\n".as_slice());
}
