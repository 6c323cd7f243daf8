//! Scripts in batches, all of one length that chance chose.

ghost use Rattle.std.specs.Prelude.{◌≡◌, ◌≤◌, IfSome, length, map, vec_len};
ghost use Rattle.std.specs.List.{AllByRecursion, range_with_len};
ghost use Rattle.call_history.specs.Fits.{IsLawfulJob};
ghost use Rattle.batch_flatten.specs.Serving.{caller_of};

use crate::alone::{book_of, run_lines};
use crate::chance::Chance;
use crate::replay::{Told, is_told_right, note};
use crate::script::Script;
use crate::texts::line_text;
use batch_flatten::{BATCH_LIMIT, Job, Outcome, Request, run_batch};
use call_history::Book;
use cvl_text::Call;
use scan_kernels::{Meter, Sequential};
use std::alloc::Global;
use vector_memory::Edition;

/// Requests for the calls of these lines, by the callers 0, 1, 2 and so on. None where a line is no call, too.
fn batch_of(alloc: Global, lines: &[&str]) -> Option<Vec<Request>>
    ensures few { IfSome result (λ requests. vec_len requests ≤ BATCH_LIMIT) }
    ensures callers { IfSome result (λ requests. map caller_of requests.items ≡ range_with_len 0 (length requests.items)) }
    ensures jobs { IfSome result (λ requests. AllByRecursion (λ r. IsLawfulJob r.job) requests.items) }
{
    let mut requests = Vec::new(alloc);
    for line in lines {
        if requests.len() == BATCH_LIMIT {
            return None;
        }
        let call = Call::read_in(alloc, line.as_bytes(), Edition::Two).ok()?;
        let caller = requests.len() as u64;
        let job = Job::One(call);
        requests.push(Request { caller, job }).ok()?;
    }
    Some(requests)
}

/// Notes what a caller was told of the call of a line. Whether it was answered.
fn note_outcome(
    alloc: Global,
    told: &mut Vec<Told>,
    caller: u64,
    line: &str,
    outcome: &Outcome,
) -> Option<bool> {
    let Outcome::Answered { place, reply } = outcome else {
        return Some(false);
    };
    let call = line_text(alloc, line)?;
    note(alloc, told, caller, call, *place, reply)?;
    Some(true)
}

/// Notes what came of a batch of these lines. Whether none came back.
fn note_outcomes(
    alloc: Global,
    told: &mut Vec<Told>,
    lines: &[&str],
    outcomes: &[Outcome],
) -> Option<bool> {
    for (i, (outcome, line)) in outcomes.iter().zip(lines.iter()).enumerate() {
        if !note_outcome(alloc, told, i as u64, line, outcome)? {
            return Some(false);
        }
    }
    Some(true)
}

/// Serves the calls of these lines as one batch, and notes what is told. Whether none came back.
fn serve(alloc: Global, book: &mut Book, lines: &[&str], told: &mut Vec<Told>) -> Option<bool> {
    let mut requests = batch_of(alloc, lines)?;
    let mut outcomes = Vec::with_capacity(alloc, BATCH_LIMIT).ok()?;
    let ran = run_batch(
        &Sequential,
        alloc,
        book,
        &mut requests,
        &mut outcomes,
        &mut Meter::new(),
    );
    let answered = note_outcomes(alloc, told, lines, &outcomes)?;
    Some(answered && ran.singles == 0)
}

/// Serves the calls of these lines in batches of a length that chance chooses, and notes what is told. Whether none came back.
fn serve_all(
    alloc: Global,
    chance: &mut Chance,
    book: &mut Book,
    lines: &[&str],
    told: &mut Vec<Told>,
) -> Option<bool> {
    let most = if chance.comes_once_in(2) { 64 } else { 6 };
    let mut right = true;
    for batch in lines.chunks((chance.below(most) as usize).saturating_add(1)) {
        right &= serve(alloc, book, batch, told)?;
    }
    Some(right)
}

/// Whether what batches on this book, which is empty, tell is borne out by it.
fn tells_right(
    alloc: Global,
    chance: &mut Chance,
    opening: &str,
    lines: &[&str],
    book: &mut Book,
    told: &mut Vec<Told>,
) -> Option<bool> {
    let opened = run_lines(alloc, book, opening, told)?;
    let served = serve_all(alloc, chance, book, lines, told)?;
    Some(opened && served && is_told_right(alloc, book, told)?)
}

/// Whether what batches tell is borne out by their book.
pub(crate) fn is_right(alloc: Global, chance: &mut Chance, script: &Script) -> Option<bool> {
    let lines: Vec<&str> = script.calls.lines().collect(alloc).ok()?;
    let mut book = book_of(alloc, script)?;
    let mut told = Vec::new(alloc);
    tells_right(alloc, chance, &script.opening, &lines, &mut book, &mut told)
}
