//! What alike calls make, by one kernel run over their joined operands, before any of them takes its turn.

ghost use Rattle.std.specs.Prelude.{◌≡◌, ◌≢◌, [], map, IfOk, IsTrue, OnErr, OnOk};
ghost use Rattle.cvl_text.specs.Tasks.{reads, task_of};
ghost use Rattle.scan_kernels.specs.Metering.{raised};
ghost use Rattle.cvl_calls.specs.Joined.{effects_of};
ghost use Rattle.cvl_calls.specs.Runs.{runs_kernel};
ghost use Rattle.vector_memory.specs.States.{State};
ghost use Rattle.call_history.specs.declared.request.Job.{Job};
ghost use Rattle.batch_flatten.specs.Alike.{AreMadeOf, AreOfWord, work_asked};
ghost use Rattle.batch_flatten.specs.Counts.{word_asked};

use call_history::{Job, Request};
use cvl_calls::{Group, Item, Made, Shelves, Stop, run_group};
use cvl_text::{Call, Word, read_the_same};
use scan_kernels::{Execution, Meter};
use std::alloc::Global;
use vector_memory::Memory;

/// Requests for single calls of one word, on a memory.
#[derive(Clone, Copy)]
struct Asked<'a> {
    memory: &'a Memory,
    word: Word,
    requests: &'a [Request],
}

/// The call of a request, whose word runs a kernel: a single one.
#[inline(always)]
fn call_of(request: &Request) -> &Call
    requires { IsTrue (runs_kernel (word_asked request.now)) }
    ensures { request.now.job ≡ Job.One result.now }
{
    match &request.job {
        Job::One(call) => call,
        Job::Many(_) => unreachable!(),
    }
}

/// `read_the_same`, where the names of the most common calls, those item by item on two vectors, are compared at once.
#[inline(always)]
fn read_alike(one: &Call, other: &Call) -> bool
    ensures { IsTrue result → (reads (task_of one.now) ≢ []) × (reads (task_of one.now) ≡ reads (task_of other.now)) }
{
    match (one, other) {
        (Call::MapZ2 { a, b, .. }, Call::MapZ2 { a: x, b: y, .. }) => *a == *x && *b == *y,
        _ => read_the_same(one, other),
    }
}

/// Whether two requests, for calls of one word that runs a kernel, read the same names, at least one. Such a call takes nothing else,
/// so the same comes of both.
#[inline(always)]
fn make_the_same(earlier: &Request, later: &Request) -> bool
    requires alike { word_asked later.now ≡ word_asked earlier.now }
    requires kernel { IsTrue (runs_kernel (word_asked earlier.now)) }
    ensures { IsTrue result → (memory : State) → work_asked memory later.now ≡ work_asked memory earlier.now }
{
    read_alike(call_of(earlier), call_of(later))
}

impl Group for Asked<'_> {
    ghost IsAlike = { λ asked. AreOfWord asked.word asked.requests.now × IsTrue (runs_kernel asked.word) };

    ghost word = { λ asked. asked.word };

    ghost works = { λ asked. map (work_asked asked.memory.now) asked.requests.now };

    #[inline(always)]
    fn count(&self) -> usize {
        self.requests.len()
    }

    #[inline(always)]
    fn item(&self, place: usize) -> Item<'_> {
        Item::Call(self.memory, call_of(&self.requests[place]))
    }

    #[inline(always)]
    fn is_again(&self, place: usize) -> bool {
        let Some(before) = place.checked_sub(1) else {
            return false;
        };
        match (self.requests.get(before), self.requests.get(place)) {
            (Some(earlier), Some(later)) => make_the_same(earlier, later),
            _ => false,
        }
    }
}

/// Makes what the calls of all requests, which have this word, make of the memory: by one kernel run over their joined operands. Where
/// one has a fault or memory is wanted, nothing is made and the meter stays.
#[inline(always)]
pub(crate) fn make_all(
    execution: &impl Execution,
    alloc: Global,
    meter: &mut Meter,
    shelves: &mut Shelves,
    memory: &Memory,
    requests: &[Request],
    word: Word,
    made: &mut Made,
) -> Result<(), Stop>
    requires alike { AreOfWord word requests.now }
    requires kernel { IsTrue (runs_kernel word) }
    ensures made { OnOk result (AreMadeOf memory.now requests.now (effects_of made.new)) }
    ensures counted { OnOk result (meter.new ≡ raised meter.old) }
    ensures stays { OnErr result (meter.new ≡ meter.old) }
{
    let asked = Asked {
        memory,
        word,
        requests,
    };
    run_group(execution, alloc, meter, shelves, word, &asked, made)
}
