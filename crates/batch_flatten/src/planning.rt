//! Which jobs of a batch run together. Planning takes no memory.

ghost use Rattle.std.specs.Prelude.{◌≡◌, ◌≤◌, ◌-◌, ◌++◌, IfSome, length, map, replicate};
ghost use Rattle.batch_flatten.specs.Waves.{asked, waves_of};

use crate::block_plan::BlockPlan;
use crate::plan::{BATCH_LIMIT, Plan};
use call_history::{Job, Request};

/// The waves of requests for single calls; none where a block is among them.
fn waves_of_calls(requests: &[Request]) -> Option<[u8; BATCH_LIMIT]>
    requires { length requests.now ≤ BATCH_LIMIT }
    ensures { IfSome result (λ waves. waves ≡ waves_of (map asked requests.now) ++ replicate (BATCH_LIMIT - length requests.now) 0) }
{
    let mut plan = Plan::new();
    for i in 0..requests.len() {
        let Job::One(call) = &requests[i].job else {
            return None;
        };
        let wave = plan.wave_of(requests, i, call);
        plan.put(i, call, wave);
    }
    Some(plan.waves)
}

/// The waves of requests of which some are for blocks.
#[inline(never)]
fn waves_of_jobs(requests: &[Request]) -> [u8; BATCH_LIMIT]
    requires { length requests.now ≤ BATCH_LIMIT }
    ensures { result ≡ waves_of (map asked requests.now) ++ replicate (BATCH_LIMIT - length requests.now) 0 }
{
    let mut plan = BlockPlan::new();
    for i in 0..requests.len() {
        let job = &requests[i].job;
        let wave = plan.wave_of(requests, i, job);
        plan.put(i, job, wave);
    }
    plan.waves
}

/// The wave of each request, counted from 0, and 0 past the last. In the order of the requests, a request joins the first
/// wave in which it reads the target of no earlier request.
pub fn waves(requests: &[Request]) -> [u8; BATCH_LIMIT]
    requires { length requests.now ≤ BATCH_LIMIT }
    ensures { result ≡ waves_of (map asked requests.now) ++ replicate (BATCH_LIMIT - length requests.now) 0 }
{
    if requests.len() < 2 {
        return [0; BATCH_LIMIT];
    }
    match waves_of_calls(requests) {
        Some(waves) => waves,
        None => waves_of_jobs(requests),
    }
}
