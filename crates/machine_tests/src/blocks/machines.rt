//! Blocks on the shared machine: left and served in a pass beside what others left, and at once.

ghost use Rattle.std.specs.Prelude.{◌≡◌, ◌≤◌, length};
ghost use Rattle.call_history.specs.Blocks.{block_limit};

use crate::asking::{polls, polls_idle, polls_waiting, posts, read, serves};
use crate::table::three;
use call_history::BLOCK_LIMIT;
use combiner::{Caller, OccupiedBlock, Polled, Shared};
use cvl_text::{Call, Reply};
use std::alloc::Global;
use std::process::Abort;

/// The block of these lines, which must be calls, no fewer and no more than a block may have.
pub(crate) fn block_of(rt: &impl Abort, alloc: Global, lines: &[&[u8]]) -> Vec<Call>
    ensures few { (1 ≤ length result.items) × (length result.items ≤ block_limit) }
{
    let mut calls = Vec::new(alloc);
    for line in lines {
        calls.push(read(rt, alloc, line)).ok().expect(rt, "memory");
    }
    assert!(rt; !calls.is_empty() && calls.len() <= BLOCK_LIMIT);
    calls
}

/// The texts of replies, each with a line feed.
pub(crate) fn text_of(rt: &impl Abort, alloc: Global, replies: &[Reply]) -> Vec<u8> {
    let mut text = Vec::new(alloc);
    for reply in replies {
        reply.write(&mut text).expect(rt, "memory");
        text.push(b'\n').expect(rt, "memory");
    }
    text
}

/// Whether the block of these lines is left.
fn posts_block(
    rt: &impl Abort,
    alloc: Global,
    shared: &Shared,
    caller: &mut Caller,
    lines: &[&[u8]],
) -> bool
    requires { caller.old.machine ≡ shared.now }
    ensures { caller.new.machine ≡ shared.now }
{
    shared
        .post_block(caller, block_of(rt, alloc, lines))
        .is_ok()
}

/// Whether a poll answers this place, with replies of these texts, to a block.
fn polls_block(
    rt: &impl Abort,
    alloc: Global,
    shared: &Shared,
    caller: &mut Caller,
    place: u64,
    wanted: &[u8],
) -> bool
    requires { caller.old.machine ≡ shared.now }
    ensures { caller.new.machine ≡ shared.now }
{
    let Polled::AnsweredBlock { place: at, replies } = shared.poll(caller) else {
        panic!(rt; "no block is answered");
    };
    at == place && text_of(rt, alloc, &replies).as_slice() == wanted
}

/// A call that reads what a block writes is of the next wave, and no call comes between those of the block.
#[test]
fn a_block_stands_in_one_piece(rt: HostRuntime) {
    let alloc = rt.alloc();
    let (shared, mut first, mut second, _) = three(&rt, alloc, 4);
    let block: &[&[u8]] = &[b"a = z 1 2", b"b = z 3 4 5", b"get a"];
    assert!(rt; posts_block(&rt, alloc, &shared, &mut first, block));
    assert!(rt; posts(&rt, alloc, &shared, &mut second, b"get a"));
    assert!(rt; serves(&rt, alloc, &shared, &mut second, (2, 2, 0)));
    assert!(rt; polls_block(&rt, alloc, &shared, &mut first, 0, b"ok\nfault 9\nz 1 2\n"));
    assert!(rt; polls(&rt, alloc, &shared, &mut second, 3, b"z 1 2"));
}

/// And one before it, that reads the same, is of its wave.
#[test]
fn a_block_behind_what_it_writes(rt: HostRuntime) {
    let alloc = rt.alloc();
    let (shared, mut first, mut second, _) = three(&rt, alloc, 100);
    assert!(rt; posts(&rt, alloc, &shared, &mut first, b"get a"));
    assert!(rt; posts_block(&rt, alloc, &shared, &mut second, &[b"a = z 1", b"get a"]));
    assert!(rt; serves(&rt, alloc, &shared, &mut first, (2, 1, 0)));
    assert!(rt; polls(&rt, alloc, &shared, &mut first, 0, b"fault 1"));
    assert!(rt; polls_block(&rt, alloc, &shared, &mut second, 1, b"ok\nz 1\n"));
}

#[test]
fn a_block_counts_as_one(rt: HostRuntime) {
    let alloc = rt.alloc();
    let (shared, mut first, mut second, mut third) = three(&rt, alloc, 100);
    assert!(rt; posts_block(&rt, alloc, &shared, &mut first, &[b"x = z 1", b"get x"]));
    assert!(rt; posts_block(&rt, alloc, &shared, &mut second, &[b"y = z 2"]));
    assert!(rt; posts(&rt, alloc, &shared, &mut third, b"get y"));
    assert!(rt; serves(&rt, alloc, &shared, &mut third, (3, 2, 0)));
    assert!(rt; polls_block(&rt, alloc, &shared, &mut first, 0, b"ok\nz 1\n"));
    assert!(rt; polls_block(&rt, alloc, &shared, &mut second, 2, b"ok\n"));
    assert!(rt; polls(&rt, alloc, &shared, &mut third, 3, b"z 2"));
}

/// The calls of a block are not joined, though their words are one.
#[test]
fn a_block_runs_a_kernel_for_each_call(rt: HostRuntime) {
    let alloc = rt.alloc();
    let (shared, mut first, mut second, _) = three(&rt, alloc, 100);
    assert!(rt; posts(&rt, alloc, &shared, &mut second, b"a = z 1"));
    assert!(rt; serves(&rt, alloc, &shared, &mut second, (1, 1, 0)));
    let block: &[&[u8]] = &[b"x = add_wuz a a", b"y = add_wuz a a"];
    assert!(rt; posts_block(&rt, alloc, &shared, &mut first, block));
    assert!(rt; serves(&rt, alloc, &shared, &mut first, (1, 1, 2)));
    assert!(rt; polls_block(&rt, alloc, &shared, &mut first, 1, b"ok\nok\n"));
    assert!(rt; polls(&rt, alloc, &shared, &mut second, 0, b"ok"));
}

/// Whether the block of this line is handed back, since something is left.
fn comes_back(
    rt: &impl Abort,
    alloc: Global,
    shared: &Shared,
    caller: &mut Caller,
    line: &[u8],
) -> bool
    requires { caller.old.machine ≡ shared.now }
    ensures { caller.new.machine ≡ shared.now }
{
    let refused = shared.post_block(caller, block_of(rt, alloc, &[line]));
    matches!(&refused, Err(OccupiedBlock(back)) if back.len() == 1)
}

/// What is left hands a second block back, and a second call.
#[test]
fn one_job_is_left_at_a_time(rt: HostRuntime) {
    let alloc = rt.alloc();
    let (shared, mut first, _, _) = three(&rt, alloc, 100);
    assert!(rt; posts_block(&rt, alloc, &shared, &mut first, &[b"x = z 1", b"get x"]));
    assert!(rt; comes_back(&rt, alloc, &shared, &mut first, b"get y"));
    assert!(rt; !posts(&rt, alloc, &shared, &mut first, b"get x"));
    assert!(rt; polls_waiting(&shared, &mut first));
    assert!(rt; serves(&rt, alloc, &shared, &mut first, (1, 1, 0)));
    assert!(rt; polls_block(&rt, alloc, &shared, &mut first, 0, b"ok\nz 1\n"));
    assert!(rt; polls_idle(&shared, &mut first));
}
