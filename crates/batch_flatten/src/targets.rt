//! The targets of a block's calls, found by their names.

ghost use Rattle.std.specs.Prelude.{◌≡◌, ◌<◌, ◌≤◌, ◌+◌, ℕ, Option, length, map};
ghost use Rattle.std.specs.List.{list_any};
ghost use Rattle.vector_memory.specs.declared.name.Name.{Name};
ghost use Rattle.cvl_text.specs.Tasks.{reads, target, task_of};
ghost use Rattle.batch_flatten.specs.Waves.{jobs_clash};
ghost use Rattle.batch_flatten.specs.Targets.{IsTable, is_found, is_target, target_at, targets_of};

use call_history::BLOCK_LIMIT;
use cvl_text::{Call, NamesRead, names_read, target};
use vector_memory::Name;

/// Where the targets of calls are found: those of one bucket hang together, from the last to the first. A name that is the
/// target of several calls hangs there once.
#[derive(Drop)]
struct Targets {
    /// For each bucket one more than the place of the last call in it; 0 where there is none.
    last: [u16; 256],
    /// For each call in a bucket the same, of the calls before it.
    before: [u16; BLOCK_LIMIT],
}

/// Whether the name is the target of the call.
pub(crate) fn is_target(call: &Call, name: &Name) -> bool
    ensures { result ≡ is_target name.now (target (task_of call.now)) }
{
    match target(call) {
        Some(to) => to == *name,
        None => false,
    }
}

impl Targets {
    /// The targets of no call.
    fn new() -> Self
        ensures { (at : ℕ → Option Name) → IsTable result at 0 }
    {
        Targets {
            last: [0; 256],
            before: [0; BLOCK_LIMIT],
        }
    }

    /// Whether the name is the target of one of the first calls, so many.
    fn has(&self, calls: &[Call], count: usize, name: &Name) -> bool
        requires table { IsTable self.now (target_at (targets_of calls.now)) count }
        requires within { count ≤ length calls.now }
        requires few { count ≤ BLOCK_LIMIT }
        ensures { result ≡ is_found (target_at (targets_of calls.now)) name.now count }
    {
        let mut next = self.last[usize::from(name.bucket())];
        while next > 0 {
            let place = usize::from(next - 1);
            if is_target(&calls[place], name) {
                return true;
            }
            next = self.before[place];
        }
        false
    }

    /// Puts the call at this place into the bucket of its target, unless a call before it has that target.
    fn put(&mut self, calls: &[Call], place: usize)
        requires table { IsTable self.old (target_at (targets_of calls.now)) place }
        requires within { place < length calls.now }
        requires few { place < BLOCK_LIMIT }
        ensures { IsTable self.new (target_at (targets_of calls.now)) (place + 1) }
    {
        let Some(to) = target(&calls[place]) else {
            return;
        };
        if self.has(calls, place, &to) {
            return;
        }
        let bucket = usize::from(to.bucket());
        self.before[place] = self.last[bucket];
        self.last[bucket] = place as u16 + 1;
    }

    /// The targets of these calls.
    fn of(calls: &[Call]) -> Self
        requires { length calls.now ≤ BLOCK_LIMIT }
        ensures { IsTable result (target_at (targets_of calls.now)) (length calls.now) }
    {
        let mut targets = Targets::new();
        for place in 0..calls.len() {
            targets.put(calls, place);
        }
        targets
    }

    /// Whether the later call reads the target of one of these calls.
    fn are_read(&self, calls: &[Call], later: &Call) -> bool
        requires table { IsTable self.now (target_at (targets_of calls.now)) (length calls.now) }
        requires few { length calls.now ≤ BLOCK_LIMIT }
        ensures { result ≡ list_any (λ n. is_found (target_at (targets_of calls.now)) n (length calls.now)) (reads (task_of later.now)) }
    {
        let count = calls.len();
        match names_read(later) {
            NamesRead::Zero => false,
            NamesRead::One(a) => self.has(calls, count, a),
            NamesRead::Two(a, b) => self.has(calls, count, a) || self.has(calls, count, b),
            NamesRead::Three(a, b, c) => {
                self.has(calls, count, a) || self.has(calls, count, b) || self.has(calls, count, c)
            }
            NamesRead::Four(a, b, c, d) => {
                self.has(calls, count, a)
                    || self.has(calls, count, b)
                    || self.has(calls, count, c)
                    || self.has(calls, count, d)
            }
        }
    }
}

/// Whether one of the later calls reads the target of one of the earlier ones. Each call is looked at once.
pub(crate) fn blocks_clash(earlier: &[Call], later: &[Call]) -> bool
    requires { length earlier.now ≤ BLOCK_LIMIT }
    ensures { result ≡ jobs_clash (map task_of earlier.now) (map task_of later.now) }
{
    let targets = Targets::of(earlier);
    for call in later {
        if targets.are_read(earlier, call) {
            return true;
        }
    }
    false
}
