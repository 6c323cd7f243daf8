//! Alike calls of a wave, which run as one.
//!
//! A call that is open at its turn, and has calls of its word behind it in the wave that are open too, leads them: all of them
//! are judged, and those without a fault run as one. Where memory is wanted they take their turns by themselves. A block is never
//! joined: its word runs no kernel.

ghost use Rattle.std.specs.Prelude.{[], ◌≡◌, ◌≢◌, ◌⊎◌, ◌↔◌, ◌+◌, ◌<◌, ◌≤◌, All, IfOk, IfSome, IsTrue, List, Ok, Option, Some, false, length, map, slice_get, slice_index, slice_set, take, true, vec_len, ℕ};
ghost use Rattle.scan_kernels.specs.Metering.{raised};
ghost use Rattle.vector_memory.specs.States.{State};
ghost use Rattle.cvl_text.specs.declared.word.Word.{Word};
ghost use Rattle.cvl_calls.specs.Judging.{word_of};
ghost use Rattle.cvl_calls.specs.Outcomes.{effect_of};
ghost use Rattle.cvl_calls.specs.Runs.{runs_kernel};
ghost use Rattle.call_history.specs.declared.request.Outcome.{Outcome};
ghost use Rattle.call_history.specs.declared.work.Work.{Work};
ghost use Rattle.call_history.specs.Books.{memory_of};
ghost use Rattle.call_history.specs.Works.{IsWork};
ghost use Rattle.batch_flatten.specs.Places.{AreBelow};
ghost use Rattle.batch_flatten.specs.Counts.{CountsJoin};
ghost use Rattle.batch_flatten.specs.declared.turn.Turn.{Turn};
ghost use Rattle.batch_flatten.specs.Joining.{ArePrepared, AreWords, ClosesOnly, IsClosed, IsExamined, IsGroup, IsNoted, IsOfWord, work_at, work_back, word_at};

use crate::plan::BATCH_LIMIT;
use crate::turn::Turn;
use call_history::{Book, Outcome, Work};
use cvl_calls::{Judged, Product, Shelves, Stop, judge_by, run_joined_with, runs_kernel};
use cvl_text::Word;
use scan_kernels::{Execution, Meter};
use std::alloc::Global;
use vector_memory::{Memory, OutOfMemory};

/// Calls of one word in which no fault was found, and their positions in the wave.
#[derive(Drop)]
struct Group<'a> {
    positions: [u8; BATCH_LIMIT],
    judged: Vec<Judged<'a>>,
    /// Whether memory was wanted, so that they cannot be joined.
    lacks: bool,
}

fn is_open(turn: Turn) -> bool
    ensures { IsTrue result ↔ (turn ≡ Turn.Open) }
{
    match turn {
        Turn::Open => true,
        Turn::Single => false,
        Turn::Faulty(_) => false,
        Turn::Joined => false,
    }
}

/// Whether two words are one.
#[tactic(auto, using(cvl_text::proofs::SameWords::words_Decide))]
#[inline(always)]
pub(crate) fn is_same_word(a: Word, b: Word) -> bool
    ensures { IsTrue result ↔ (a ≡ b) }
{
    a == b
}

/// Whether the call at a position is open, and has this word.
fn is_open_with(words: &[Word], turns: &[Turn; BATCH_LIMIT], position: usize, word: Word) -> bool
    requires few { length words.now ≤ BATCH_LIMIT }
    requires position { position < length words.now }
    ensures { IsTrue result ↔ ((slice_get turns.now position ≡ Some Turn.Open) × (word_at words.now position ≡ word)) }
{
    is_open(turns[position]) && is_same_word(words[position], word)
}

/// Whether the call at a position is to be joined with others: it is open, runs a kernel, and a later one of its word is open.
fn is_leader(words: &[Word], turns: &[Turn; BATCH_LIMIT], position: usize) -> bool
    requires few { length words.now ≤ BATCH_LIMIT }
    requires position { position < length words.now }
    ensures leads { IsTrue result → (slice_get turns.now position ≡ Some Turn.Open) × IsTrue (runs_kernel (word_at words.now position)) }
    ensures alone { result ≡ false → slice_get turns.now position ≡ Some Turn.Open → IsTrue (runs_kernel (word_at words.now position))
        → IsClosed words.now (word_at words.now position) turns.now (position + 1) (length words.now) }
{
    let word = words[position];
    if !is_open(turns[position]) || !runs_kernel(word) {
        return false;
    }
    for later in position + 1..words.len() {
        if is_open_with(words, turns, later, word) {
            return true;
        }
    }
    false
}

/// Judges a single call that is back.
fn judge_back<'a>(
    execution: &impl Execution,
    alloc: Global,
    meter: &Meter,
    memory: &'a Memory,
    outcome: &'a Outcome,
) -> Result<Judged<'a>, Stop>
    ensures examined { IsExamined (work_back memory.now (Some outcome.now)) result }
    ensures alike { (word : Word) → IsOfWord word outcome.now → IfOk result (λ judged. word_of judged ≡ word) }
{
    match outcome {
        Outcome::Refused(call) => judge_by(execution, alloc, meter, memory, call),
        Outcome::Answered { .. } => Err(Stop::OutOfMemory),
        Outcome::AnsweredBlock { .. } => Err(Stop::OutOfMemory),
        Outcome::RefusedBlock(_) => Err(Stop::OutOfMemory),
    }
}

/// A group of none, with space for so many calls.
fn empty_group<'a>(alloc: Global, count: usize) -> Group<'a>
    ensures judged { result.judged.items ≡ [] }
    ensures below { AreBelow BATCH_LIMIT result.positions }
{
    let mut judged = Vec::new(alloc);
    let lacks = judged.reserve(count).is_err();
    Group {
        positions: [0; BATCH_LIMIT],
        judged,
        lacks,
    }
}

/// Judges the call at a position and puts it to the group, or notes its fault. It is to run by itself, unless the group is
/// joined.
fn add<'a>(
    execution: &impl Execution,
    alloc: Global,
    meter: &Meter,
    memory: &'a Memory,
    outcome: &'a Outcome,
    position: usize,
    turns: &mut [Turn; BATCH_LIMIT],
    group: &mut Group<'a>,
)
    requires position { position < BATCH_LIMIT }
    requires few { vec_len group.old.judged < BATCH_LIMIT }
    ensures turns { (turn : Turn) × (turns.new ≡ slice_set turns.old position turn) × IsNoted (work_back memory.now (Some outcome.now)) turn }
    ensures group { (outcomes : List Outcome) (places : List ℕ) (words : List Word) (word : Word)
        → slice_get outcomes (slice_index places position) ≡ Some outcome.now → IsOfWord word outcome.now → word_at words position ≡ word
        → IsGroup memory.now outcomes places words word group.old.positions group.old.judged.items
        → IsGroup memory.now outcomes places words word group.new.positions group.new.judged.items }
    ensures below { AreBelow BATCH_LIMIT group.old.positions → AreBelow BATCH_LIMIT group.new.positions }
    ensures grows { vec_len group.new.judged ≤ vec_len group.old.judged + 1 }
{
    match judge_back(execution, alloc, meter, memory, outcome) {
        Ok(judged) => {
            turns[position] = Turn::Single;
            let count = group.judged.len();
            if count < group.judged.capacity() {
                group.positions[count] = position as u8;
                group.judged.push_reserved(judged);
            } else {
                group.lacks = true;
            }
        }
        Err(Stop::Fault(fault)) => turns[position] = Turn::Faulty(fault),
        Err(Stop::OutOfMemory) => {
            turns[position] = Turn::Single;
            group.lacks = true;
        }
    }
}

/// Judges the call at a position, if it is open and has the word of the group.
fn visit<'a>(
    execution: &impl Execution,
    alloc: Global,
    meter: &Meter,
    memory: &'a Memory,
    places: &[u8],
    words: &[Word],
    outcomes: &'a [Outcome],
    position: usize,
    word: Word,
    turns: &mut [Turn; BATCH_LIMIT],
    group: &mut Group<'a>,
)
    requires few { length places.now ≤ BATCH_LIMIT }
    requires paired { length words.now ≡ length places.now }
    requires within { All (λ p. p < length outcomes.now) places.now }
    requires position { position < length places.now }
    requires words { AreWords words.now outcomes.now places.now }
    requires kernel { IsTrue (runs_kernel word) }
    requires room { vec_len group.old.judged < BATCH_LIMIT }
    requires group { IsGroup memory.now outcomes.now places.now words.now word group.old.positions group.old.judged.items }
    ensures group { IsGroup memory.now outcomes.now places.now words.now word group.new.positions group.new.judged.items }
    ensures below { AreBelow BATCH_LIMIT group.old.positions → AreBelow BATCH_LIMIT group.new.positions }
    ensures grows { vec_len group.new.judged ≤ vec_len group.old.judged + 1 }
    ensures closes { ClosesOnly words.now word turns.old turns.new }
    ensures closed { (slice_get turns.new position ≡ Some Turn.Open) × (word_at words.now position ≡ word) → ⊥ }
    ensures prepared { (works : List (Option Work)) (first : ℕ)
        → ArePrepared memory.now outcomes.now places.now words.now turns.old works first
        → ArePrepared memory.now outcomes.now places.now words.now turns.new works first }
{
    if !is_open_with(words, turns, position, word) {
        return;
    }
    let outcome = &outcomes[usize::from(places[position])];
    add(
        execution, alloc, meter, memory, outcome, position, turns, group,
    );
}

/// Judges the open calls of one word, from a position on, and notes their faults.
fn gather<'a>(
    execution: &impl Execution,
    alloc: Global,
    meter: &Meter,
    memory: &'a Memory,
    places: &[u8],
    words: &[Word],
    outcomes: &'a [Outcome],
    first: usize,
    turns: &mut [Turn; BATCH_LIMIT],
) -> Group<'a>
    requires few { length places.now ≤ BATCH_LIMIT }
    requires paired { length words.now ≡ length places.now }
    requires within { All (λ p. p < length outcomes.now) places.now }
    requires position { first < length places.now }
    requires words { AreWords words.now outcomes.now places.now }
    requires kernel { IsTrue (runs_kernel (word_at words.now first)) }
    ensures group { IsGroup memory.now outcomes.now places.now words.now (word_at words.now first) result.positions result.judged.items }
    ensures below { AreBelow BATCH_LIMIT result.positions }
    ensures few { vec_len result.judged ≤ BATCH_LIMIT }
    ensures closes { ClosesOnly words.now (word_at words.now first) turns.old turns.new }
    ensures closed { IsClosed words.now (word_at words.now first) turns.new first (length words.now) }
    ensures prepared { (works : List (Option Work))
        → ArePrepared memory.now outcomes.now places.now words.now turns.old works first
        → ArePrepared memory.now outcomes.now places.now words.now turns.new works first }
{
    let word = words[first];
    let mut group = empty_group(alloc, places.len() - first);
    for position in first..places.len() {
        visit(
            execution, alloc, meter, memory, places, words, outcomes, position, word, turns,
            &mut group,
        );
    }
    group
}

/// What a kernel made, as work. That a target goes is made by none.
fn work_made(product: Product) -> Option<Work>
    ensures { IfSome result (λ work. IsWork work (Ok (effect_of product))) }
{
    match product {
        Product::Store(value) => Some(Work::Store(value)),
        Product::Reply(reply) => Some(Work::Say(reply)),
        Product::Free => None,
    }
}

/// Notes what was made of the call at a position.
fn put(
    turns: &mut [Turn; BATCH_LIMIT],
    works: &mut Vec<Option<Work>>,
    position: usize,
    product: Product,
)
    requires { position < BATCH_LIMIT }
    ensures closes { (words : List Word) (word : Word) → word_at words position ≡ word → ClosesOnly words word turns.old turns.new }
    ensures prepared { (m : State) (outcomes : List Outcome) (places : List ℕ) (words : List Word) (first : ℕ)
        → Ok (effect_of product) ≡ work_at m outcomes places position → IsTrue (runs_kernel (word_at words position))
        → ArePrepared m outcomes places words turns.old works.old.items first
        → ArePrepared m outcomes places words turns.new works.new.items first }
{
    let Some(work) = work_made(product) else {
        return;
    };
    if position < works.len() {
        works[position] = Some(work);
        turns[position] = Turn::Joined;
    }
}

/// Notes what was made of the calls at these positions.
fn put_all(
    positions: &[u8; BATCH_LIMIT],
    products: Vec<Product>,
    turns: &mut [Turn; BATCH_LIMIT],
    works: &mut Vec<Option<Work>>,
)
    requires few { vec_len products ≤ BATCH_LIMIT }
    requires below { AreBelow BATCH_LIMIT positions.now }
    ensures closes { (words : List Word) (word : Word) → All (λ b. word_at words b ≡ word) (take (length products.items) positions.now)
        → ClosesOnly words word turns.old turns.new }
    ensures prepared { (m : State) (outcomes : List Outcome) (places : List ℕ) (words : List Word) (word : Word) (first : ℕ)
        → All (λ b. word_at words b ≡ word) (take (length products.items) positions.now) → IsTrue (runs_kernel word)
        → map (λ p. Ok (effect_of p)) products.items ≡ map (work_at m outcomes places) (take (length products.items) positions.now)
        → ArePrepared m outcomes places words turns.old works.old.items first
        → ArePrepared m outcomes places words turns.new works.new.items first }
{
    let mut products = products;
    while let Some(product) = products.pop() {
        let position = usize::from(positions[products.len()]);
        put(turns, works, position, product);
    }
}

/// Space for the works at so many positions.
fn make_space(works: &mut Vec<Option<Work>>, count: usize) -> Result<(), OutOfMemory>
    ensures { (b : ℕ) (slot : Option Work) → slice_get works.old.items b ≡ Some slot → slice_get works.new.items b ≡ Some slot }
{
    works.reserve(count.saturating_sub(works.len()))?;
    for _ in works.len()..count {
        works.push(None)?;
    }
    Ok(())
}

/// Joins the open calls of one word, from a position on. Where memory is wanted, they are to run by themselves. Where each has
/// a fault no kernel runs.
fn lead(
    execution: &impl Execution,
    alloc: Global,
    meter: &mut Meter,
    shelves: &mut Shelves,
    memory: &Memory,
    places: &[u8],
    words: &[Word],
    outcomes: &[Outcome],
    first: usize,
    turns: &mut [Turn; BATCH_LIMIT],
    works: &mut Vec<Option<Work>>,
)
    requires few { length places.now ≤ BATCH_LIMIT }
    requires paired { length words.now ≡ length places.now }
    requires within { All (λ p. p < length outcomes.now) places.now }
    requires position { first < length places.now }
    requires words { AreWords words.now outcomes.now places.now }
    requires kernel { IsTrue (runs_kernel (word_at words.now first)) }
    requires prepared { ArePrepared memory.now outcomes.now places.now words.now turns.old works.old.items first }
    ensures prepared { ArePrepared memory.now outcomes.now places.now words.now turns.new works.new.items first }
    ensures closes { ClosesOnly words.now (word_at words.now first) turns.old turns.new }
    ensures closed { IsClosed words.now (word_at words.now first) turns.new first (length words.now) }
    ensures counted { (meter.new ≡ meter.old) ⊎ (meter.new ≡ raised meter.old) }
{
    let group = gather(
        execution, alloc, meter, memory, places, words, outcomes, first, turns,
    );
    if group.lacks || group.judged.is_empty() {
        return;
    }
    let Ok(()) = make_space(works, places.len()) else {
        return;
    };
    let word = words[first];
    let Ok(products) = run_joined_with(execution, alloc, meter, shelves, word, &group.judged) else {
        return;
    };
    put_all(&group.positions, products, turns, works);
}

/// Joins the call at a position with the later ones of its word, if it is open and there are any.
pub(crate) fn join(
    execution: &impl Execution,
    alloc: Global,
    meter: &mut Meter,
    book: &mut Book,
    places: &[u8],
    words: &[Word],
    outcomes: &[Outcome],
    position: usize,
    turns: &mut [Turn; BATCH_LIMIT],
    works: &mut Vec<Option<Work>>,
)
    requires few { length places.now ≤ BATCH_LIMIT }
    requires paired { length words.now ≡ length places.now }
    requires within { All (λ p. p < length outcomes.now) places.now }
    requires position { position < length places.now }
    requires words { AreWords words.now outcomes.now places.now }
    requires prepared { ArePrepared (memory_of book.old) outcomes.now places.now words.now turns.old works.old.items position }
    ensures prepared { ArePrepared (memory_of book.new) outcomes.now places.now words.now turns.new works.new.items position }
    ensures closes { ClosesOnly words.now (word_at words.now position) turns.old turns.new }
    ensures closed { slice_get turns.old position ≡ Some Turn.Open → IsTrue (runs_kernel (word_at words.now position))
        → IsClosed words.now (word_at words.now position) turns.new (position + 1) (length words.now) }
    ensures book { book.new ≡ book.old }
    ensures counted { CountsJoin (runs_kernel (word_at words.now position)) (slice_get turns.old position) (slice_get turns.new position)
        meter.old meter.new }
{
    if is_leader(words, turns, position) {
        let mut shelves = book.take_shelves();
        let memory = book.memory();
        lead(
            execution,
            alloc,
            meter,
            &mut shelves,
            memory,
            places,
            words,
            outcomes,
            position,
            turns,
            works,
        );
        book.put_shelves(shelves);
    }
}
