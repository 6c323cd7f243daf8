//! What the planning of blocks keeps in mind of the jobs so far.

ghost use Rattle.std.specs.Prelude.{◌≡◌, ◌≢◌, ◌<◌, ◌≤◌, ◌+◌, ◌||◌, ℕ, List, true, false, length, map, replicate, slice_index, slice_index_or, slice_set};
ghost use Rattle.cvl_text.specs.Tasks.{Task, reads, target, task_of};
ghost use Rattle.batch_flatten.specs.Waves.{asked, is_barred, tasks_of, wave_of};
ghost use Rattle.batch_flatten.specs.Plans.{placed};
ghost use Rattle.batch_flatten.specs.Targets.{lies_in};
ghost use Rattle.vector_memory.specs.Names.{bucket_of};
ghost use Rattle.batch_flatten.specs.BlockPlans.{IsBlockPlan, has_target_in, is_held, is_in, is_suspect, job_at};

use crate::clash::clashes;
use crate::plan::{BATCH_LIMIT, first_free};
use call_history::{Job, Request};
use cvl_text::{Call, NamesRead, names_read, target};
use vector_memory::Name;

/// The waves of the requests so far, and where their targets are found by their names.
#[derive(Drop)]
pub struct BlockPlan {
    /// The wave of each request.
    pub waves: [u8; BATCH_LIMIT],
    /// For each bucket of names the requests with a target in it: a request is the bit of its place.
    holders: [u64; 256],
}

/// Puts the place into the bucket of the target of the call.
fn hold(holders: &mut [u64; 256], place: usize, call: &Call)
    requires { place < BATCH_LIMIT }
    ensures here { (bucket : ℕ) → is_in (slice_index holders.new bucket) place
        ≡ (is_in (slice_index holders.old bucket) place || lies_in bucket (target (task_of call.now))) }
    ensures others { (bucket other : ℕ) → other ≢ place
        → is_in (slice_index holders.new bucket) other ≡ is_in (slice_index holders.old bucket) other }
{
    if let Some(to) = target(call) {
        holders[usize::from(to.bucket())] |= 1 << place;
    }
}

/// Puts the place into the buckets of the targets of the calls.
fn hold_all(holders: &mut [u64; 256], place: usize, calls: &[Call])
    requires { place < BATCH_LIMIT }
    ensures here { (bucket : ℕ) → is_in (slice_index holders.new bucket) place
        ≡ (is_in (slice_index holders.old bucket) place || has_target_in bucket (map task_of calls.now)) }
    ensures others { (bucket other : ℕ) → other ≢ place
        → is_in (slice_index holders.new bucket) other ≡ is_in (slice_index holders.old bucket) other }
{
    for call in calls {
        hold(holders, place, call);
    }
}

impl BlockPlan {
    /// A plan of no request.
    pub fn new() -> Self
        ensures plan { (jobs : List (List Task)) → IsBlockPlan result jobs 0 }
        ensures waves { result.waves ≡ replicate BATCH_LIMIT 0 }
    {
        BlockPlan {
            waves: [0; BATCH_LIMIT],
            holders: [0; 256],
        }
    }

    /// The requests with a target in the bucket of the name.
    fn holders_of(&self, name: &Name) -> u64
        ensures { result ≡ slice_index self.now.holders (bucket_of name.now) }
    {
        self.holders[usize::from(name.bucket())]
    }

    /// The requests with a target in the bucket of a name that the call reads.
    fn suspects_of(&self, call: &Call) -> u64
        ensures { (place : ℕ) → is_in result place ≡ is_held self.now.holders place (reads (task_of call.now)) }
    {
        match names_read(call) {
            NamesRead::Zero => 0,
            NamesRead::One(a) => self.holders_of(a),
            NamesRead::Two(a, b) => self.holders_of(a) | self.holders_of(b),
            NamesRead::Three(a, b, c) => {
                self.holders_of(a) | self.holders_of(b) | self.holders_of(c)
            }
            NamesRead::Four(a, b, c, d) => {
                self.holders_of(a) | self.holders_of(b) | self.holders_of(c) | self.holders_of(d)
            }
        }
    }

    /// The requests with a target in the bucket of a name that one of the calls reads.
    fn suspects_of_all(&self, calls: &[Call]) -> u64
        ensures { (place : ℕ) → is_in result place ≡ is_suspect self.now.holders place (map task_of calls.now) }
    {
        let mut places = 0;
        for call in calls {
            places |= self.suspects_of(call);
        }
        places
    }

    /// The requests with a target in the bucket of a name that the job reads.
    fn suspects(&self, job: &Job) -> u64
        ensures { (place : ℕ) → is_in result place ≡ is_suspect self.now.holders place (tasks_of job.now) }
    {
        match job {
            Job::One(call) => self.suspects_of(call),
            Job::Many(calls) => self.suspects_of_all(calls.as_slice()),
        }
    }

    /// Bars the waves in which one of the first requests, so many, has a target that the job reads.
    fn bar(&self, requests: &[Request], count: usize, job: &Job, barred: &mut [bool; BATCH_LIMIT])
        requires plan { IsBlockPlan self.now (map asked requests.now) count }
        requires within { count ≤ length requests.now }
        requires few { count ≤ BATCH_LIMIT }
        ensures { (wave : ℕ) → wave < BATCH_LIMIT → slice_index_or barred.new wave false
            ≡ (slice_index_or barred.old wave false
            || is_barred (placed count self.now.waves requests.now) (tasks_of job.now) wave) }
    {
        let mut left = self.suspects(job);
        while left != 0 {
            let place = left.trailing_zeros() as usize;
            left &= !(1 << place);
            let wave = usize::from(self.waves[place]);
            if !barred[wave] {
                barred[wave] = clashes(&requests[place].job, job);
            }
        }
    }

    /// The wave of the job behind so many that have theirs.
    pub fn wave_of(&self, requests: &[Request], count: usize, job: &Job) -> u8
        requires plan { IsBlockPlan self.now (map asked requests.now) count }
        requires within { count ≤ length requests.now }
        requires few { count < BATCH_LIMIT }
        ensures { result ≡ wave_of (placed count self.now.waves requests.now) (tasks_of job.now) }
    {
        let mut barred = [false; BATCH_LIMIT];
        self.bar(requests, count, job, &mut barred);
        first_free(&barred, count as u8)
    }

    /// Gives the request at this place, of which the job is, its wave.
    pub fn put(&mut self, place: usize, job: &Job, wave: u8)
        requires few { place < BATCH_LIMIT }
        requires few_waves { wave < BATCH_LIMIT }
        ensures waves { self.new.waves ≡ slice_set self.old.waves place wave }
        ensures plan { (jobs : List (List Task)) → job_at jobs place ≡ tasks_of job.now
            → IsBlockPlan self.old jobs place → IsBlockPlan self.new jobs (place + 1) }
    {
        self.waves[place] = wave;
        match job {
            Job::One(call) => hold(&mut self.holders, place, call),
            Job::Many(calls) => hold_all(&mut self.holders, place, calls.as_slice()),
        }
    }
}
