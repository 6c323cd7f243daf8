//! The calls of a batch beside the same calls one by one, on a book of the same history.

use crate::asking::{Served, batch_of, memory_of, serve};
use batch_flatten::{BATCH_LIMIT, Ran, waves};
use call_history::{Book, CALLER_LIMIT, Outcome};
use cvl_text::{Call, Reply, Word, call_word};
use scan_kernels::{Meter, Sequential};
use std::alloc::Global;
use std::process::Abort;

/// The text of a reply.
fn text_of(rt: &impl Abort, alloc: Global, reply: &Reply) -> Vec<u8> {
    let mut text = Vec::new(alloc);
    reply.write(&mut text).expect(rt, "memory");
    text
}

/// Whether the outcome is an answer at this place in the history, whose reply has the same text as this one.
fn is_answer(
    rt: &impl Abort,
    alloc: Global,
    outcome: Option<&Outcome>,
    place: u64,
    reply: &Reply,
) -> bool {
    let Some(
        Outcome::Answered {
            place: at,
            reply: said,
        },
    ) = outcome
    else {
        return false;
    };
    let (said, wanted) = (text_of(rt, alloc, said), text_of(rt, alloc, reply));
    *at == place && said.as_slice() == wanted.as_slice()
}

/// Runs the call of a line by itself. Whether the outcome is its answer, and whether it ran a kernel.
fn run_line(
    rt: &impl Abort,
    alloc: Global,
    book: &mut Book,
    caller: u64,
    call: Call,
    outcome: Option<&Outcome>,
) -> (bool, bool) {
    assert!(rt; caller < CALLER_LIMIT as u64, "no such caller");
    let mut meter = Meter::new();
    let Ok((place, reply)) = book.run_metered(&Sequential, alloc, &mut meter, caller, call) else {
        panic!(rt; "out of memory");
    };
    let same = is_answer(rt, alloc, outcome, place, &reply);
    (same, meter.runs() > 0)
}

/// Words, each once.
#[derive(Drop)]
struct Words {
    words: Vec<Word>,
}

impl Words {
    fn new(alloc: Global) -> Words {
        Words {
            words: Vec::new(alloc),
        }
    }

    /// Takes up the word, where it is a new one and this holds.
    fn note(&mut self, rt: &impl Abort, word: Word, holds: bool) {
        if holds && !self.words.contains(&word) {
            self.words.push(word).expect(rt, "memory");
        }
    }

    fn len(&self) -> u64 {
        self.words.len() as u64
    }
}

/// Runs the calls of a wave by themselves, and asserts that the outcomes are their answers. How many words there are of which
/// a call runs a kernel.
fn run_wave(
    rt: &impl Abort,
    alloc: Global,
    book: &mut Book,
    lines: &str,
    planned: &[u8; BATCH_LIMIT],
    wave: u64,
    outcomes: &[Outcome],
) -> u64 {
    let mut words = Words::new(alloc);
    for ((i, line), its) in lines.lines().enumerate().zip(planned.iter()) {
        if u64::from(*its) != wave {
            continue;
        }
        let call = Call::read(alloc, line.as_bytes()).expect(rt, "no call");
        let word = call_word(&call);
        let (same, kernel) = run_line(rt, alloc, book, i as u64, call, outcomes.get(i));
        assert!(rt; same, "{line} in\n{lines}");
        words.note(rt, word, kernel);
    }
    words.len()
}

/// Runs the calls of a batch by themselves, wave after wave, and asserts that the outcomes are their answers. How many kernels
/// the batch is to run.
fn run_alone(rt: &impl Abort, alloc: Global, book: &mut Book, lines: &str, served: &Served) -> u64 {
    let requests = batch_of(rt, alloc, lines);
    let planned = waves(&requests);
    let mut kernels: u64 = 0;
    for wave in 0..served.ran.waves {
        let more = run_wave(rt, alloc, book, lines, &planned, wave, &served.outcomes);
        kernels = kernels.saturating_add(more);
    }
    kernels
}

/// Whether two histories have entries of the same callers, with the same tickets.
fn is_same_order(one: &Book, other: &Book) -> bool {
    if one.len() != other.len() {
        return false;
    }
    for place in 0..one.len() {
        let (a, b) = (one.entry(place), other.entry(place));
        if a.caller != b.caller || a.ticket != b.ticket {
            return false;
        }
    }
    true
}

/// Serves the calls of these lines as a batch on one book, with chunks of so many items, runs them one by one in the order of the waves on another of the
/// same history, and asserts that both come to the same, and that all that may be joined was joined.
pub(crate) fn come_to_the_same(
    rt: &impl Abort,
    alloc: Global,
    one: &mut Book,
    other: &mut Book,
    chunk: usize,
    lines: &str,
) -> Ran {
    let served = serve(rt, alloc, one, chunk, lines);
    let kernels = run_alone(rt, alloc, other, lines, &served);
    assert!(rt; served.ran.singles == 0, "{lines}");
    assert!(rt; served.ran.kernels == kernels, "{lines}");
    assert!(rt; is_same_order(one, other), "{lines}");
    let (left, wanted) = (memory_of(rt, alloc, one), memory_of(rt, alloc, other));
    assert!(rt; left.as_slice() == wanted.as_slice(), "{lines}");
    let audited = one.audit(&Sequential, alloc).expect(rt, "memory");
    assert!(rt; audited, "{lines}");
    served.ran
}
