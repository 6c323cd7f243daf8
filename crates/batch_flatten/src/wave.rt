//! One wave: its jobs take their turns in the order of the requests.

ghost use Rattle.std.specs.Prelude.{◌≡◌, ◌≢◌, ◌+◌, ◌<◌, ◌≤◌, ◌∷◌, ◌++◌, [], ℕ, List, All, Some, length, slice_get, slice_index, sum, take, vec_len, vec_capacity};
ghost use Rattle.std.specs.List.{AllPairs};
ghost use Rattle.call_history.specs.declared.entry.Entry.{Entry};
ghost use Rattle.call_history.specs.declared.request.Request.{Request};
ghost use Rattle.call_history.specs.declared.request.Outcome.{Outcome};
ghost use Rattle.call_history.specs.Books.{memory_of};
ghost use Rattle.call_history.specs.Callers.{caller_limit};
ghost use Rattle.scan_kernels.specs.Metering.{Metered};
ghost use Rattle.batch_flatten.specs.Waves.{in_wave};
ghost use Rattle.batch_flatten.specs.Places.{AreBelow, IsOutside, at_places, places_of};
ghost use Rattle.batch_flatten.specs.Counts.{CountsTurn, RisesBy, count_back, different_kernels, single_of, size_at, sizes_back};
ghost use Rattle.batch_flatten.specs.Joining.{AreOpenTogether, ArePrepared, AreWords, IsReadyWork};
ghost use Rattle.batch_flatten.specs.Serving.{AnswersSure, AreAskedBy, AreLawful, DoNotClash, Serving, TurnsMemory, WereBack};

use crate::joining::join;
use crate::plan::BATCH_LIMIT;
use crate::turn::{Turn, run_back, work_for};
use call_history::{Book, Outcome, Work};
use cvl_text::Word;
use scan_kernels::{Execution, Meter};
use std::alloc::Global;

/// The requests of a wave among the first, so many: how many they are. Their places come first in `found`, their words in
/// `found_words`.
pub(crate) fn find_wave(
    waves: &[u8; BATCH_LIMIT],
    words: &[Word; BATCH_LIMIT],
    count: usize,
    wave: u8,
    found: &mut [u8; BATCH_LIMIT],
    found_words: &mut [Word; BATCH_LIMIT],
) -> usize
    requires { count ≤ BATCH_LIMIT }
    ensures few { result ≤ count }
    ensures places { take result found.new ≡ places_of (take count waves.now) wave }
    ensures words { take result found_words.new ≡ in_wave wave (take count waves.now) (take count words.now) }
{
    let mut many = 0;
    for i in 0..count {
        if waves[i] == wave {
            found[many] = i as u8;
            found_words[many] = words[i];
            many += 1;
        }
    }
    many
}

/// The turn of the job at this place, with its work where that was done before.
fn serve_place(
    execution: &impl Execution,
    alloc: Global,
    meter: &mut Meter,
    book: &mut Book,
    callers: &[u8; BATCH_LIMIT],
    place: usize,
    work: Option<Work>,
    outcomes: &mut Vec<Outcome>,
)
    requires few { vec_len outcomes.old ≤ BATCH_LIMIT }
    requires lawful { AreBelow caller_limit callers.now }
    requires place { place < vec_len outcomes.old }
    requires lawful_jobs { AreLawful outcomes.old.items }
    requires space { count_back outcomes.old.items ≤ book.old.spaces }
    requires ready { IsReadyWork (memory_of book.old) (slice_get outcomes.old.items place) work }
    ensures serves { (line : List Entry) (rs : List Request) (done : List ℕ) → AreAskedBy rs callers.now → IsOutside done place
        → Serving book.old.bounds line rs done book.old.history outcomes.old.items
        → Serving book.old.bounds line rs (done ++ place ∷ []) book.new.history outcomes.new.items }
    ensures sure { (done : List ℕ) → AnswersSure outcomes.old.items done → AnswersSure outcomes.new.items (done ++ place ∷ []) }
    ensures memory { (was : Outcome) → slice_get outcomes.old.items place ≡ Some was
        → TurnsMemory (memory_of book.old) (memory_of book.new) was }
    ensures others { (p : ℕ) → p ≢ place → slice_get outcomes.new.items p ≡ slice_get outcomes.old.items p }
    ensures back { WereBack outcomes.old.items outcomes.new.items }
    ensures bounds { book.new.bounds ≡ book.old.bounds }
    ensures space { count_back outcomes.new.items ≤ book.new.spaces }
    ensures counted { CountsTurn (slice_get outcomes.old.items place) work meter.old meter.new }
    ensures count { vec_len outcomes.new ≡ vec_len outcomes.old }
    ensures spaces { vec_capacity outcomes.new ≡ vec_capacity outcomes.old }
{
    let caller = u64::from(callers[place]);
    let outcome = &mut outcomes[place];
    run_back(execution, alloc, meter, book, caller, outcome, work);
}

/// Whether a call runs by itself though it was to be joined: 1 or 0.
fn single(turn: Turn) -> u64
    ensures { result ≡ single_of turn }
{
    match turn {
        Turn::Open => 0,
        Turn::Single => 1,
        Turn::Faulty(_) => 0,
        Turn::Joined => 0,
    }
}

/// The turn of the job at a position of the wave, before which a call may be joined with later ones. Whether it ran by itself
/// though it was to be joined: 1 or 0.
fn serve_next(
    execution: &impl Execution,
    alloc: Global,
    meter: &mut Meter,
    book: &mut Book,
    callers: &[u8; BATCH_LIMIT],
    places: &[u8],
    words: &[Word],
    position: usize,
    turns: &mut [Turn; BATCH_LIMIT],
    works: &mut Vec<Option<Work>>,
    outcomes: &mut Vec<Outcome>,
) -> u64
    requires few { vec_len outcomes.old ≤ BATCH_LIMIT }
    requires lawful { AreBelow caller_limit callers.now }
    requires few_places { length places.now ≤ BATCH_LIMIT }
    requires paired { length words.now ≡ length places.now }
    requires within { All (λ p. p < vec_len outcomes.old) places.now }
    requires rising { AllPairs (λ p q. p < q) places.now }
    requires position { position < length places.now }
    requires lawful_jobs { AreLawful outcomes.old.items }
    requires space { count_back outcomes.old.items ≤ book.old.spaces }
    requires words { AreWords words.now outcomes.old.items places.now }
    requires apart { AllPairs (DoNotClash outcomes.old.items) places.now }
    requires prepared { ArePrepared (memory_of book.old) outcomes.old.items places.now words.now turns.old works.old.items position }
    requires together { AreOpenTogether words.now turns.old position }
    ensures serves { (line : List Entry) (rs : List Request) (done : List ℕ) → AreAskedBy rs callers.now
        → IsOutside done (slice_index places.now position)
        → Serving book.old.bounds line rs done book.old.history outcomes.old.items
        → Serving book.old.bounds line rs (done ++ slice_index places.now position ∷ []) book.new.history outcomes.new.items }
    ensures sure { (done : List ℕ) → AnswersSure outcomes.old.items done
        → AnswersSure outcomes.new.items (done ++ slice_index places.now position ∷ []) }
    ensures prepared { ArePrepared (memory_of book.new) outcomes.new.items places.now words.now turns.new works.new.items (position + 1) }
    ensures together { AreOpenTogether words.now turns.new (position + 1) }
    ensures counted { (start : Metered) (others : ℕ)
        → RisesBy (different_kernels (take position words.now) + others) start meter.old
        → RisesBy (different_kernels (take (position + 1) words.now)
        + (others + size_at outcomes.old.items (slice_index places.now position) + result)) start meter.new }
    ensures one { result ≤ 1 }
    ensures back { WereBack outcomes.old.items outcomes.new.items }
    ensures bounds { book.new.bounds ≡ book.old.bounds }
    ensures space { count_back outcomes.new.items ≤ book.new.spaces }
    ensures count { vec_len outcomes.new ≡ vec_len outcomes.old }
    ensures spaces { vec_capacity outcomes.new ≡ vec_capacity outcomes.old }
{
    join(
        execution, alloc, meter, book, places, words, outcomes, position, turns, works,
    );
    let turn = turns[position];
    let work = work_for(turn, works, position);
    let place = usize::from(places[position]);
    serve_place(
        execution, alloc, meter, book, callers, place, work, outcomes,
    );
    single(turn)
}

/// Serves one wave: the jobs at its places, one after the other. How many calls ran by themselves though they were to be
/// joined.
pub(crate) fn serve_wave(
    execution: &impl Execution,
    alloc: Global,
    meter: &mut Meter,
    book: &mut Book,
    callers: &[u8; BATCH_LIMIT],
    places: &[u8],
    words: &[Word],
    outcomes: &mut Vec<Outcome>,
) -> u64
    requires few { vec_len outcomes.old ≤ BATCH_LIMIT }
    requires lawful { AreBelow caller_limit callers.now }
    requires few_places { length places.now ≤ BATCH_LIMIT }
    requires paired { length words.now ≡ length places.now }
    requires within { All (λ p. p < vec_len outcomes.old) places.now }
    requires rising { AllPairs (λ p q. p < q) places.now }
    requires lawful_jobs { AreLawful outcomes.old.items }
    requires space { count_back outcomes.old.items ≤ book.old.spaces }
    requires words { AreWords words.now outcomes.old.items places.now }
    requires apart { AllPairs (DoNotClash outcomes.old.items) places.now }
    ensures serves { (line : List Entry) (rs : List Request) (done : List ℕ) → AreAskedBy rs callers.now
        → All (IsOutside done) places.now
        → Serving book.old.bounds line rs done book.old.history outcomes.old.items
        → Serving book.old.bounds line rs (done ++ places.now) book.new.history outcomes.new.items }
    ensures sure { (done : List ℕ) → AnswersSure outcomes.old.items done → AnswersSure outcomes.new.items (done ++ places.now) }
    ensures counted { RisesBy (different_kernels words.now + (sum (at_places (sizes_back outcomes.old.items) places.now) + result)) meter.old meter.new }
    ensures few_singles { result ≤ length places.now }
    ensures back { WereBack outcomes.old.items outcomes.new.items }
    ensures bounds { book.new.bounds ≡ book.old.bounds }
    ensures space { count_back outcomes.new.items ≤ book.new.spaces }
    ensures count { vec_len outcomes.new ≡ vec_len outcomes.old }
    ensures spaces { vec_capacity outcomes.new ≡ vec_capacity outcomes.old }
{
    let mut turns = [Turn::Open; BATCH_LIMIT];
    let mut works: Vec<Option<Work>> = Vec::new(alloc);
    let mut singles: u64 = 0;
    for position in 0..places.len() {
        singles += serve_next(
            execution, alloc, meter, book, callers, places, words, position, &mut turns,
            &mut works, outcomes,
        );
    }
    singles
}
