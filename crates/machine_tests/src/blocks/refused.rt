//! Blocks of which a growth is refused. `refused/calls.sh` runs these tests once for each growth that they ask for between the lines
//! `begin` and `end`, and has it refused. By themselves the tests see none refused.
//!
//! A block that finds no memory comes back with all its calls, list and history are as before, and run again it goes well.

ghost use Rattle.std.specs.Prelude.{◌≡◌};
ghost use Rattle.combiner.specs.Standing.{IsIdle};

use super::machines::block_of;
use crate::asking::{answer, read};
use crate::refused::{begin, end};
use crate::table::one;
use call_history::Book;
use combiner::{Caller, Combined, Polled, Shared};
use cvl_text::{Call, Reply, write_value};
use scan_kernels::{Meter, Sequential};
use std::alloc::{Alloc, Global};
use std::process::Abort;
use std::sync::Wait;
use std::thread::Threads;
use vector_memory::OutOfMemory;

/// What is there before the block.
const BEFORE: &[&[u8]] = &[b"a = z 1", b"b = z 2"];

/// It frees a name, sets it again and makes another.
const BLOCK: &[&[u8]] = &[b"fre_fov a", b"a = z 7 8", b"c = add_wuz b b"];

const LEFT_BEFORE: &[u8] = b"a z 1\nb z 2\n";

const LEFT_BEHIND: &[u8] = b"b z 2\na z 7 8\nc z 4\n";

/// Whether the memory of a book holds what this text says: a line for each name, in their order.
fn holds(rt: &impl Abort, alloc: Global, book: &Book, wanted: &[u8]) -> bool {
    let mut text = Vec::new(alloc);
    for (name, value) in book.memory().iter() {
        text.extend_from_slice(name.text().bytes())
            .expect(rt, "memory");
        text.push(b' ').expect(rt, "memory");
        write_value(value, &mut text).expect(rt, "memory");
        text.push(b'\n').expect(rt, "memory");
    }
    text.as_slice() == wanted
}

/// Whether these are the calls of the block, with all their names and items.
fn is_block(rt: &impl Abort, alloc: Global, back: &Vec<Call>) -> bool {
    let wanted = block_of(rt, alloc, BLOCK);
    let wanted = format!(in alloc; "{wanted:?}").expect(rt, "memory");
    format!(in alloc; "{back:?}").expect(rt, "memory") == wanted
}

/// What became of the block: its place and the number of its replies, or that it came back as it was.
#[derive(Clone, Copy, PartialEq, Eq)]
enum End {
    Answered(u64, usize),
    Back,
    Lost,
}

/// These calls came back.
fn back_of(rt: &impl Abort, alloc: Global, back: &Vec<Call>) -> End {
    if is_block(rt, alloc, back) {
        End::Back
    } else {
        End::Lost
    }
}

fn end_of(
    rt: &impl Abort,
    alloc: Global,
    ran: &Result<(u64, Vec<Reply>), (Vec<Call>, OutOfMemory)>,
) -> End {
    match ran {
        Ok((place, replies)) => End::Answered(*place, replies.len()),
        Err((back, _)) => back_of(rt, alloc, back),
    }
}

/// A book with what is there before the block.
fn opened(rt: &impl Abort, alloc: Global) -> Book {
    let mut book = Book::new(alloc, 100).expect(rt, "memory");
    for line in BEFORE {
        let ran = book.run(&Sequential, alloc, 0, read(rt, alloc, line));
        assert!(rt; ran.is_ok());
    }
    book
}

/// Runs the block on a book, and has its growths counted.
fn run<R: Abort + Alloc<A = Global> + Print>(rt: &R, book: &mut Book) -> End {
    let calls = block_of(rt, rt.alloc(), BLOCK);
    begin(rt);
    let ran = book.run_block(&Sequential, rt.alloc(), &mut Meter::new(), 1, calls);
    end(rt);
    end_of(rt, rt.alloc(), &ran)
}

/// Runs the block on a book where it came back, which must have changed nothing.
fn run_again(rt: &impl Abort, alloc: Global, book: &mut Book) -> End {
    assert!(rt; book.len() == 2 && holds(rt, alloc, book, LEFT_BEFORE));
    let calls = block_of(rt, alloc, BLOCK);
    let ran = book.run_block(&Sequential, alloc, &mut Meter::new(), 1, calls);
    end_of(rt, alloc, &ran)
}

/// Whether the book has run the block behind what was there before.
fn has_run(rt: &impl Abort, alloc: Global, book: &Book) -> bool {
    book.len() == 5
        && holds(rt, alloc, book, LEFT_BEHIND)
        && book.audit(&Sequential, alloc) == Ok(true)
}

#[test]
fn a_block_on_a_book(rt: HostRuntime) {
    let mut book = opened(&rt, rt.alloc());
    let mut end = run(&rt, &mut book);
    if end == End::Back {
        end = run_again(&rt, rt.alloc(), &mut book);
    }
    assert!(rt; end == End::Answered(2, 3) && has_run(&rt, rt.alloc(), &book));
}

/// A machine of one caller, which has called what is there before the block.
fn machine<R: Abort + Alloc<A = Global> + Threads + Wait + Sync>(rt: &R) -> (Shared, Caller)
    ensures machine { result.1.machine ≡ result.0 }
    ensures idle { IsIdle result.1 }
{
    let (shared, mut caller) = one(rt, rt.alloc());
    for line in BEFORE {
        answer(rt, rt.alloc(), &shared, &mut caller, line);
    }
    (shared, caller)
}

/// Whether a machine that is closed has run the block behind what was there before.
fn closes_behind(rt: &impl Abort, alloc: Global, shared: Shared, caller: Caller) -> bool
    requires { caller.machine ≡ shared }
{
    let book = shared.close(caller).expect(rt, "no book");
    has_run(rt, alloc, &book)
}

/// Calls the block, with its growths counted if this is the first time.
fn call<R: Abort + Alloc<A = Global> + Print + Threads + Wait + Sync>(
    rt: &R,
    shared: &Shared,
    caller: &mut Caller,
    counted: bool,
) -> End
    requires machine { caller.old.machine ≡ shared.now }
    requires idle { IsIdle caller.old }
    ensures machine { caller.new.machine ≡ shared.now }
    ensures idle { IsIdle caller.new }
{
    let calls = block_of(rt, rt.alloc(), BLOCK);
    if counted {
        begin(rt);
    }
    let ran = shared.call_block(rt, rt.alloc(), caller, calls);
    if counted {
        end(rt);
    }
    end_of(rt, rt.alloc(), &ran)
}

/// A block that is called: where it came back, nothing has changed, and it is called again.
#[test]
fn a_block_that_is_called(rt: HostRuntime) {
    let (shared, mut caller) = machine(&rt);
    let mut end = call(&rt, &shared, &mut caller, true);
    if end == End::Back && shared.look(&mut caller) == 2 {
        end = call(&rt, &shared, &mut caller, false);
    }
    assert!(rt; end == End::Answered(2, 3));
    assert!(rt; closes_behind(&rt, rt.alloc(), shared, caller));
}

/// What a poll tells of a block.
fn told(rt: &impl Abort, alloc: Global, shared: &Shared, caller: &mut Caller) -> End
    requires { caller.old.machine ≡ shared.now }
    ensures { caller.new.machine ≡ shared.now }
{
    match shared.poll(caller) {
        Polled::AnsweredBlock { place, replies } => End::Answered(place, replies.len()),
        Polled::OutOfMemoryBlock(back) => back_of(rt, alloc, &back),
        _ => End::Lost,
    }
}

/// Leaves the block and serves it, with its growths counted if this is the first time.
fn left<R: Abort + Alloc<A = Global> + Print>(
    rt: &R,
    shared: &Shared,
    caller: &mut Caller,
    counted: bool,
) -> End
    requires { caller.old.machine ≡ shared.now }
    ensures { caller.new.machine ≡ shared.now }
{
    let calls = block_of(rt, rt.alloc(), BLOCK);
    assert!(rt; shared.post_block(caller, calls).is_ok());
    if counted {
        begin(rt);
    }
    let combined = shared.combine(&Sequential, rt.alloc(), caller);
    if counted {
        end(rt);
    }
    assert!(rt; matches!(&combined, Combined::Served { calls: 1, .. }));
    told(rt, rt.alloc(), shared, caller)
}

/// A block that is left and served in a pass: where it came back, nothing has changed, and it is left again.
#[test]
fn a_block_that_is_left(rt: HostRuntime) {
    let (shared, mut caller) = machine(&rt);
    let mut end = left(&rt, &shared, &mut caller, true);
    if end == End::Back && shared.look(&mut caller) == 2 {
        end = left(&rt, &shared, &mut caller, false);
    }
    assert!(rt; end == End::Answered(2, 3));
    assert!(rt; closes_behind(&rt, rt.alloc(), shared, caller));
}
