//! What the planning of single calls keeps in mind of the requests so far.

ghost use Rattle.std.specs.Prelude.{◌≡◌, ◌==◌, ◌<◌, ◌≤◌, ◌+◌, ◌||◌, ℕ, List, [], ◌∷◌, Option, true, false, length, replicate, slice_index, slice_index_or, slice_set};
ghost use Rattle.std.specs.List.{list_any};
ghost use Rattle.vector_memory.specs.declared.name.Name.{Name};
ghost use Rattle.cvl_text.specs.Tasks.{reads, target, task_of};
ghost use Rattle.batch_flatten.specs.Waves.{wave_of};
ghost use Rattle.batch_flatten.specs.Plans.{AreSingle, IsPlan, bars, placed, single_target, single_targets};
ghost use Rattle.batch_flatten.specs.Targets.{is_target, target_at};

use crate::targets::is_target;
use call_history::{Job, Request};
use cvl_text::{Call, NamesRead, names_read, target};
use vector_memory::Name;

/// The greatest number of requests of a batch.
pub const BATCH_LIMIT: usize = 64;

/// The waves of the requests so far, and where the targets are found by their names: the requests whose targets lie in one
/// bucket hang together, from the last to the first.
#[derive(Drop)]
pub struct Plan {
    /// The wave of each request.
    pub waves: [u8; BATCH_LIMIT],
    /// For each bucket one more than the place of the last request whose target lies in it; 0 where there is none.
    last: [u8; 256],
    /// For each request with a target the same, of the requests before it.
    before: [u8; BATCH_LIMIT],
}

/// Whether the job is a single call with this target.
fn has_target(job: &Job, name: &Name) -> bool
    ensures { result ≡ is_target name.now (single_target job.now) }
{
    match job {
        Job::One(call) => is_target(call, name),
        Job::Many(_) => false,
    }
}

/// The first of so many waves that is not barred, or the one behind them.
pub(crate) fn first_free(barred: &[bool; BATCH_LIMIT], count: u8) -> u8
    requires { count < BATCH_LIMIT }
    ensures within { result ≤ count }
    ensures passed { (wave : ℕ) → wave < result → slice_index_or barred.now wave false ≡ true }
    ensures free { result < count → slice_index_or barred.now result false ≡ false }
{
    for wave in 0..count {
        if !barred[usize::from(wave)] {
            return wave;
        }
    }
    count
}

impl Plan {
    /// A plan of no request.
    pub fn new() -> Self
        ensures plan { (targets : List (Option Name)) → IsPlan result targets 0 }
        ensures waves { result.waves ≡ replicate BATCH_LIMIT 0 }
    {
        Plan {
            waves: [0; BATCH_LIMIT],
            last: [0; 256],
            before: [0; BATCH_LIMIT],
        }
    }

    /// Bars the waves in which one of the first requests, so many, has the name as its target.
    #[inline(always)]
    fn bar(&self, requests: &[Request], count: usize, name: &Name, barred: &mut [bool; BATCH_LIMIT])
        requires plan { IsPlan self.now (single_targets requests.now) count }
        requires within { count ≤ length requests.now }
        requires few { count ≤ BATCH_LIMIT }
        ensures { (wave : ℕ) → wave < BATCH_LIMIT → slice_index_or barred.new wave false
            ≡ (slice_index_or barred.old wave false || bars (single_targets requests.now) self.now.waves name.now wave count) }
    {
        let mut next = self.last[usize::from(name.bucket())];
        while next > 0 {
            let place = usize::from(next - 1);
            let wave = usize::from(self.waves[place]);
            barred[wave] |= has_target(&requests[place].job, name);
            next = self.before[place];
        }
    }

    /// Bars the waves in which one of the first requests, so many, has a target that the call reads.
    fn bar_all(
        &self,
        requests: &[Request],
        count: usize,
        call: &Call,
        barred: &mut [bool; BATCH_LIMIT],
    )
        requires plan { IsPlan self.now (single_targets requests.now) count }
        requires within { count ≤ length requests.now }
        requires few { count ≤ BATCH_LIMIT }
        ensures { (wave : ℕ) → wave < BATCH_LIMIT → slice_index_or barred.new wave false
            ≡ (slice_index_or barred.old wave false
            || list_any (λ n. bars (single_targets requests.now) self.now.waves n wave count) (reads (task_of call.now))) }
    {
        match names_read(call) {
            NamesRead::Zero => {}
            NamesRead::One(a) => self.bar(requests, count, a, barred),
            NamesRead::Two(a, b) => {
                self.bar(requests, count, a, barred);
                self.bar(requests, count, b, barred);
            }
            NamesRead::Three(a, b, c) => {
                self.bar(requests, count, a, barred);
                self.bar(requests, count, b, barred);
                self.bar(requests, count, c, barred);
            }
            NamesRead::Four(a, b, c, d) => {
                self.bar(requests, count, a, barred);
                self.bar(requests, count, b, barred);
                self.bar(requests, count, c, barred);
                self.bar(requests, count, d, barred);
            }
        }
    }

    /// The wave of the call behind so many that have theirs.
    pub fn wave_of(&self, requests: &[Request], count: usize, call: &Call) -> u8
        requires plan { IsPlan self.now (single_targets requests.now) count }
        requires within { count ≤ length requests.now }
        requires few { count < BATCH_LIMIT }
        requires single { AreSingle requests.now count }
        ensures { result ≡ wave_of (placed count self.now.waves requests.now) (task_of call.now ∷ []) }
    {
        let mut barred = [false; BATCH_LIMIT];
        self.bar_all(requests, count, call, &mut barred);
        first_free(&barred, count as u8)
    }

    /// Gives the request at this place, of which the call is, its wave.
    pub fn put(&mut self, place: usize, call: &Call, wave: u8)
        requires few { place < BATCH_LIMIT }
        requires few_waves { wave < BATCH_LIMIT }
        ensures waves { self.new.waves ≡ slice_set self.old.waves place wave }
        ensures plan { (targets : List (Option Name)) → target_at targets place ≡ target (task_of call.now)
            → IsPlan self.old targets place → IsPlan self.new targets (place + 1) }
    {
        self.waves[place] = wave;
        if let Some(to) = target(call) {
            let bucket = usize::from(to.bucket());
            self.before[place] = self.last[bucket];
            self.last[bucket] = place as u8 + 1;
        }
    }
}
