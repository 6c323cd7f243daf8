//! Worker threads with gates that hold them or stop them.

ghost use Rattle.std.specs.Prelude.{◌≤◌, vec_len};
ghost use Rattle.call_history.specs.Callers.{caller_limit};
ghost use Rattle.script_lines.specs.Readings.{AreLawful, lists_of};

use crate::program::whole;
use cvl_text::Reply;
use scan_kernels::Sequential;
use script_main::{Gate, ReadSource, RunFault, Script, Settled, read_script, run_threads};
use std::alloc::{Alloc, Global};
use std::process::Abort;
use std::sync::Wait;
use std::sync::atomic::{AtomicU64, Ordering};
use std::thread;
use std::thread::Threads;

/// How often a gate looks before it gives up.
const TURNS: u64 = 1_000_000;

/// Waits until the word is set, and hands the processor on in the meantime. False where that takes too long.
fn waits_for(word: &AtomicU64) -> bool {
    for _ in 0..TURNS {
        if word.load(Ordering::SeqCst) > 0 {
            return true;
        }
        thread::yield_now();
    }
    false
}

/// The script of these bytes.
fn script_of(rt: &impl Abort, alloc: Global, bytes: &[u8]) -> Script
    ensures few { vec_len result.workers ≤ caller_limit }
    ensures lawful { AreLawful (lists_of result.workers) }
{
    let mut source = ReadSource::new(whole(bytes, 1000));
    read_script(alloc, &mut source).expect(rt, "no script")
}

/// How many replies each worker had, the length of the history, and the texts of all replies, each with a line feed.
#[derive(Drop)]
struct Came {
    replies: Vec<usize>,
    history: usize,
    said: Vec<u8>,
}

/// Puts the texts of replies behind others, a line for each.
fn say_all(rt: &impl Abort, said: &mut Vec<u8>, replies: &[Reply]) {
    for reply in replies {
        reply.write(said).expect(rt, "memory");
        said.push(b'\n').expect(rt, "memory");
    }
}

/// What is kept of a run that settled, whose history is audited.
fn came_of(rt: &impl Abort, alloc: Global, settled: Settled) -> Came {
    let audited = settled.book.audit(&Sequential, alloc);
    assert!(rt; audited.expect(rt, "memory"));
    let mut replies = Vec::new(alloc);
    let mut said = Vec::new(alloc);
    for own in &settled.replies {
        replies.push(own.len()).expect(rt, "memory");
        say_all(rt, &mut said, own);
    }
    Came {
        replies,
        history: settled.book.len(),
        said,
    }
}

/// Runs a script through a gate.
fn run_through<G: Gate + Sync>(
    rt: &(impl Alloc<A = Global> + Threads + Wait + Abort + Sync),
    script: &[u8],
    gate: &G,
) -> Result<Came, RunFault> {
    let script = script_of(rt, rt.alloc(), script);
    let settled = run_threads(rt, rt.alloc(), script, 100, gate)?;
    Ok(came_of(rt, rt.alloc(), settled))
}

/// Runs a script through a gate that lets all calls pass.
fn settle<G: Gate + Sync>(
    rt: &(impl Alloc<A = Global> + Threads + Wait + Abort + Sync),
    script: &[u8],
    gate: &G,
) -> Came {
    run_through(rt, script, gate).expect(rt, "a run that settles")
}

/// Three workers: the first has no call, the others one each.
const ONE_EACH: &[u8] = b"1: a = z 1\n2: b = z 2\n";

/// Asserts that the run had both calls.
fn expect_both(rt: &impl Abort, came: &Came) {
    assert!(rt; came.history == 2);
    assert!(rt; came.replies.as_slice() == [0, 1, 1].as_slice());
}

/// Holds worker 1 before its call until worker 2 has been answered.
#[derive(Drop)]
struct Follows {
    answered: AtomicU64,
}

impl Gate for Follows {
    fn before(&self, worker: u64, turn: u64) -> bool {
        if worker == 2 && turn == 1 {
            self.answered.fetch_add(1, Ordering::SeqCst);
        }
        worker != 1 || turn != 0 || waits_for(&self.answered)
    }
}

#[test]
fn two_under_way(rt: HostRuntime) {
    let gate = Follows {
        answered: AtomicU64::new(0),
    };
    expect_both(&rt, &settle(&rt, ONE_EACH, &gate));
}

/// Holds workers 1 and 2 before their calls until both have been asked.
#[derive(Drop)]
struct Meets {
    first: AtomicU64,
    second: AtomicU64,
}

impl Gate for Meets {
    fn before(&self, worker: u64, turn: u64) -> bool {
        if turn > 0 || worker == 0 {
            return true;
        }
        if worker == 1 {
            self.first.fetch_add(1, Ordering::SeqCst);
            return waits_for(&self.second);
        }
        self.second.fetch_add(1, Ordering::SeqCst);
        waits_for(&self.first)
    }
}

#[test]
fn both_posted(rt: HostRuntime) {
    let gate = Meets {
        first: AtomicU64::new(0),
        second: AtomicU64::new(0),
    };
    expect_both(&rt, &settle(&rt, ONE_EACH, &gate));
}

/// Holds worker 0 before its call until worker 1 was answered, and worker 1 before its call until worker 0 is held.
#[derive(Drop)]
struct LeavesFirst {
    held: AtomicU64,
    answered: AtomicU64,
}

impl Gate for LeavesFirst {
    fn before(&self, worker: u64, turn: u64) -> bool {
        if worker == 0 && turn == 0 {
            self.held.fetch_add(1, Ordering::SeqCst);
            return waits_for(&self.answered);
        }
        if worker == 1 && turn == 0 {
            return waits_for(&self.held);
        }
        if worker == 1 {
            self.answered.fetch_add(1, Ordering::SeqCst);
        }
        true
    }
}

/// The call of worker 0 lies there while its gate holds it, so the pass of worker 1 serves it, before its own.
#[test]
fn asked_with_the_call_left(rt: HostRuntime) {
    let gate = LeavesFirst {
        held: AtomicU64::new(0),
        answered: AtomicU64::new(0),
    };
    let came = settle(&rt, b"0: a = z 1\n1: get a\n", &gate);
    assert!(rt; came.said.as_slice() == b"ok\nz 1\n".as_slice());
}

/// Stops some of two workers at one turn.
#[derive(Clone, Copy)]
struct Stops {
    first: bool,
    second: bool,
    turn: u64,
}

impl Gate for Stops {
    fn before(&self, worker: u64, turn: u64) -> bool {
        turn != self.turn || !(worker == 0 && self.first || worker == 1 && self.second)
    }
}

#[test]
fn the_lowest_worker_that_is_stopped(rt: HostRuntime) {
    let script = b"0: a = z 1\n1: b = z 2\n";
    let cases = [(true, false, 0), (false, true, 1), (true, true, 0)];
    for (first, second, lowest) in cases {
        let gate = Stops {
            first,
            second,
            turn: 0,
        };
        let came = run_through(&rt, script, &gate);
        assert!(rt; came.err() == Some(RunFault::Stopped(lowest)));
    }
}

/// What a gate says behind the last call changes nothing.
#[test]
fn the_last_answer_is_ignored(rt: HostRuntime) {
    let gate = Stops {
        first: true,
        second: true,
        turn: 1,
    };
    let came = settle(&rt, b"0: a = z 1\n1: b = z 2\n", &gate);
    assert!(rt; came.history == 2);
}

/// Adds up the turns that it is asked for, each with 1 more.
#[derive(Drop)]
struct Counts {
    asked: AtomicU64,
    turns: AtomicU64,
}

impl Gate for Counts {
    fn before(&self, _worker: u64, turn: u64) -> bool {
        self.asked.fetch_add(1, Ordering::SeqCst);
        self.turns.fetch_add(turn, Ordering::SeqCst);
        true
    }
}

/// Workers of 2, 0 and 3 calls are asked 3, 1 and 4 times: for turns 0 to 2, 0, and 0 to 3.
#[test]
fn one_more_turn_than_calls(rt: HostRuntime) {
    let gate = Counts {
        asked: AtomicU64::new(0),
        turns: AtomicU64::new(0),
    };
    let script = b"0: a = z 1\n2: b = z 2\n0: get a\n2: get b\n2: fre_fov b\n";
    let came = settle(&rt, script, &gate);
    assert!(rt; came.history == 5);
    assert!(rt; gate.asked.load(Ordering::SeqCst) == 8);
    assert!(rt; gate.turns.load(Ordering::SeqCst) == 9);
}

/// A block is one turn: the workers are asked for it, and once more behind it.
#[test]
fn a_block_is_a_turn(rt: HostRuntime) {
    let gate = Counts {
        asked: AtomicU64::new(0),
        turns: AtomicU64::new(0),
    };
    let script = b"cvl 2\n0: {\n0: a = z 1\n0: get a\n0: }\n1: b = z 2\n";
    let came = settle(&rt, script, &gate);
    assert!(rt; came.history == 3);
    assert!(rt; came.replies.as_slice() == [2, 1].as_slice());
    assert!(rt; gate.asked.load(Ordering::SeqCst) == 4);
    assert!(rt; gate.turns.load(Ordering::SeqCst) == 2);
}

/// For no scripts there is no worker, and no gate is asked.
#[test]
fn no_worker_without_scripts(rt: HostRuntime) {
    let gate = Counts {
        asked: AtomicU64::new(0),
        turns: AtomicU64::new(0),
    };
    let came = settle(&rt, b"# nothing\n", &gate);
    assert!(rt; came.history == 0 && came.replies.is_empty());
    assert!(rt; gate.asked.load(Ordering::SeqCst) == 0);
}
