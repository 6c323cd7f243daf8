//! Books and batches from the lines of their calls, and what came of them as texts.

ghost use Rattle.std.specs.Prelude.{◌≡◌, ◌≤◌, length, map, vec_len};
ghost use Rattle.std.specs.List.{AllByRecursion, range_with_len};
ghost use Rattle.call_history.specs.Fits.{IsLawfulJob};
ghost use Rattle.batch_flatten.specs.Serving.{caller_of};

use batch_flatten::{BATCH_LIMIT, Ran, run_batch};
use call_history::{Book, Job, Outcome, Request};
use cvl_text::{Call, Reply, write_value};
use scan_kernels::{Meter, Sequential};
use std::alloc::Global;
use std::process::Abort;
use vector_memory::is_lawful_room;

/// A book of this room with the calls of these lines, each of which is to be done.
pub(crate) fn book_of(rt: &impl Abort, alloc: Global, room: u64, lines: &str) -> Book {
    assert!(rt; is_lawful_room(room), "no such room");
    let mut book = Book::new(alloc, room).expect(rt, "memory");
    for line in lines.lines() {
        let call = Call::read(alloc, line.as_bytes()).expect(rt, "no call");
        let Ok((_, Reply::Done)) = book.run(&Sequential, alloc, 0, call) else {
            panic!(rt; "not set up");
        };
    }
    book
}

/// Requests for the calls of these lines, by the callers 0, 1, 2 and so on.
pub(crate) fn batch_of(rt: &impl Abort, alloc: Global, lines: &str) -> Vec<Request>
    ensures few { vec_len result ≤ BATCH_LIMIT }
    ensures callers { map caller_of result.items ≡ range_with_len 0 (length result.items) }
    ensures jobs { AllByRecursion (λ r. IsLawfulJob r.job) result.items }
{
    let mut requests = Vec::new(alloc);
    for line in lines.lines() {
        assert!(rt; requests.len() < BATCH_LIMIT, "too many lines");
        let call = Call::read(alloc, line.as_bytes()).expect(rt, "no call");
        let caller = requests.len() as u64;
        let job = Job::One(call);
        requests.push(Request { caller, job }).expect(rt, "memory");
    }
    requests
}

/// How a batch was served, and what became of its requests.
#[derive(Drop)]
pub(crate) struct Served {
    pub ran: Ran,
    pub outcomes: Vec<Outcome>,
}

/// Serves the calls of these lines as one batch, with chunks of so many items.
pub(crate) fn serve(
    rt: &impl Abort,
    alloc: Global,
    book: &mut Book,
    chunk: usize,
    lines: &str,
) -> Served {
    let mut requests = batch_of(rt, alloc, lines);
    let mut outcomes = Vec::with_capacity(alloc, BATCH_LIMIT).expect(rt, "memory");
    assert!(rt; chunk > 0);
    let mut meter = Meter::with_chunk(chunk);
    let ran = run_batch(
        &Sequential,
        alloc,
        book,
        &mut requests,
        &mut outcomes,
        &mut meter,
    );
    Served { ran, outcomes }
}

/// A line for each outcome, with its place in the history and its reply.
pub(crate) fn answers_of(rt: &impl Abort, alloc: Global, outcomes: &[Outcome]) -> Vec<u8> {
    let mut text = Vec::new(alloc);
    for outcome in outcomes {
        let Outcome::Answered { place, reply } = outcome else {
            panic!(rt; "a call came back");
        };
        let place = format!(in alloc; "{place} ").expect(rt, "memory");
        text.extend_from_slice(place.as_bytes())
            .expect(rt, "memory");
        reply.write(&mut text).expect(rt, "memory");
        text.push(b'\n').expect(rt, "memory");
    }
    text
}

/// A line for each name of the memory, in their order, with its value.
pub(crate) fn memory_of(rt: &impl Abort, alloc: Global, book: &Book) -> Vec<u8> {
    let mut text = Vec::new(alloc);
    for (name, value) in book.memory().iter() {
        text.extend_from_slice(name.text().bytes())
            .expect(rt, "memory");
        text.push(b' ').expect(rt, "memory");
        write_value(value, &mut text).expect(rt, "memory");
        text.push(b'\n').expect(rt, "memory");
    }
    text
}
