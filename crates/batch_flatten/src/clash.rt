//! Whether a job reads what an earlier one writes or frees.

ghost use Rattle.std.specs.Prelude.{◌≡◌, Some, map};
ghost use Rattle.std.specs.List.{list_any};
ghost use Rattle.cvl_text.specs.Tasks.{reads, task_of};
ghost use Rattle.call_history.specs.Fits.{calls_of};
ghost use Rattle.batch_flatten.specs.Waves.{clashes, is_among, jobs_clash, tasks_of};

use crate::targets::blocks_clash;
use call_history::{BLOCK_LIMIT, Job};
use cvl_text::{Call, NamesRead, names_read, target};
use std::slice;
use vector_memory::Name;

/// From so many calls on the targets of a block are put into a table, where another block looks for them.
const FEW: usize = 16;

/// The calls of a job.
fn calls_of(job: &Job) -> &[Call]
    ensures { result.now ≡ calls_of job.now }
{
    match job {
        Job::One(call) => slice::from_ref(call),
        Job::Many(calls) => calls.as_slice(),
    }
}

/// Whether the call reads the name.
#[inline(always)]
fn reads_name(call: &Call, to: Name) -> bool
    ensures { result ≡ is_among (Some to) (reads (task_of call.now)) }
{
    match names_read(call) {
        NamesRead::Zero => false,
        NamesRead::One(a) => to == *a,
        NamesRead::Two(a, b) => to == *a || to == *b,
        NamesRead::Three(a, b, c) => to == *a || to == *b || to == *c,
        NamesRead::Four(a, b, c, d) => to == *a || to == *b || to == *c || to == *d,
    }
}

/// Whether the later call reads the target of the earlier one.
#[inline(always)]
fn calls_clash(earlier: &Call, later: &Call) -> bool
    ensures { result ≡ clashes (task_of earlier.now) (task_of later.now) }
{
    match target(earlier) {
        Some(to) => reads_name(later, to),
        None => false,
    }
}

/// Whether one of the later calls reads the target of the earlier one.
fn is_read(earlier: &Call, later: &[Call]) -> bool
    ensures { result ≡ list_any (λ call. clashes (task_of earlier.now) (task_of call)) later.now }
{
    match target(earlier) {
        Some(to) => later.iter().any(|call| reads_name(call, to)),
        None => false,
    }
}

/// Whether one of the later calls reads the target of one of the earlier ones, of which each is compared with each.
fn any_clash(earlier: &[Call], later: &[Call]) -> bool
    ensures { result ≡ list_any (λ e. list_any (λ l. clashes (task_of e) (task_of l)) later.now) earlier.now }
{
    earlier.iter().any(|call| is_read(call, later))
}

/// Whether some later call reads the target of some earlier one.
#[inline(never)]
fn lists_clash(earlier: &[Call], later: &[Call]) -> bool
    ensures { result ≡ jobs_clash (map task_of earlier.now) (map task_of later.now) }
{
    if earlier.len() < FEW || later.len() < FEW || earlier.len() > BLOCK_LIMIT {
        any_clash(earlier, later)
    } else {
        blocks_clash(earlier, later)
    }
}

/// Whether some call of the later job reads the target of some call of the earlier one.
#[inline(always)]
pub fn clashes(earlier: &Job, later: &Job) -> bool
    ensures { result ≡ jobs_clash (tasks_of earlier.now) (tasks_of later.now) }
{
    match (earlier, later) {
        (Job::One(before), Job::One(behind)) => calls_clash(before, behind),
        _ => lists_clash(calls_of(earlier), calls_of(later)),
    }
}
