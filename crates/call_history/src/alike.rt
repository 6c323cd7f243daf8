//! Calls that several callers lend, written behind a history as it keeps them in few bytes.

ghost use Rattle.std.specs.Prelude.{◌≡◌, ◌≤◌, ◌<◌, ◌+◌, ◌++◌, List, false, length, map, vec_len, vec_capacity, IfSome, IsTrue};
ghost use Rattle.std.specs.List.{AllByRecursion};
ghost use Rattle.call_history.specs.declared.kept.Kept.{Kept as KeptValue};
ghost use Rattle.call_history.specs.Alike.{entered};
ghost use Rattle.call_history.specs.Callers.{AreTickets, HasLawfulCallers, IsTicketed, caller_limit};
ghost use Rattle.call_history.specs.Kept.{call_of, is_whole};

use crate::book::{CALLER_LIMIT, enter_brief};
use crate::kept::{Kept, brief};
use crate::log::Log;
use cvl_text::Call;
use std::alloc::Global;

/// Puts the calls in few bytes behind others, for which there is space, if each can be kept so.
fn put_briefs(calls: &[&Call], kept: &mut Vec<Kept>) -> bool
    requires space { vec_len kept.old + length calls.now ≤ vec_capacity kept.old }
    ensures { IsTrue result → (added : List KeptValue) × (kept.new.items ≡ kept.old.items ++ added)
        × (map call_of added ≡ map (λ c. c.now) calls.now) × AllByRecursion (λ k. is_whole k ≡ false) added }
{
    let Some((call, others)) = calls.split_first() else {
        return true;
    };
    let Some(one) = brief(*call) else {
        return false;
    };
    kept.push_reserved(one);
    put_briefs(others, kept)
}

/// The calls in few bytes, if each can be kept so and there is memory for their list.
pub(crate) fn briefs(alloc: Global, calls: &[&Call]) -> Option<Vec<Kept>>
    ensures calls { IfSome result (λ kept. map call_of kept.items ≡ map (λ c. c.now) calls.now) }
    ensures brief { IfSome result (λ kept. AllByRecursion (λ k. is_whole k ≡ false) kept.items) }
{
    let mut kept = Vec::with_capacity(alloc, calls.len()).ok()?;
    if put_briefs(calls, &mut kept) {
        Some(kept)
    } else {
        None
    }
}

/// Writes calls behind the entries, each with the next ticket of the caller at its place.
pub(crate) fn enter_briefs(
    log: &mut Log,
    tickets: &mut Box<[u64; CALLER_LIMIT]>,
    callers: &[u64],
    kept: Vec<Kept>,
)
    requires callers { AllByRecursion (λ k. k < caller_limit) callers.now }
    requires brief { AllByRecursion (λ k. is_whole k ≡ false) kept.items }
    requires paired { length callers.now ≡ length kept.items }
    requires space { length kept.items ≤ log.old.spaces }
    requires counted { AreTickets tickets.old.value log.old.entries }
    requires ticketed { IsTicketed log.old.entries }
    requires lawful_callers { HasLawfulCallers log.old.entries }
    ensures entries { log.new.entries ≡ entered log.old.entries callers.now (map call_of kept.items) }
    ensures spaces { log.old.spaces ≤ log.new.spaces + length kept.items }
    ensures counted { AreTickets tickets.new.value log.new.entries }
    ensures ticketed { IsTicketed log.new.entries }
    ensures lawful_callers { HasLawfulCallers log.new.entries }
{
    let mut place = 0;
    for one in kept {
        enter_brief(log, tickets, callers[place], one);
        place += 1;
    }
}
