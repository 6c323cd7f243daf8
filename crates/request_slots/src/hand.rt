//! How many slots in the hand of the caller that has the desk lie before and behind that of another caller. By so many turns that
//! slot comes to the front, or to its place. Turns do nothing when they run.

ghost use Rattle.std.specs.Prelude.{◌≡◌, ◌+◌, ◌<◌, ◌≤◌, [], take, drop};
ghost use Rattle.std.specs.List.{count_by};
ghost use Rattle.request_slots.specs.Seating.{IsMarked};

use call_history::CALLER_LIMIT;

/// No caller is marked.
pub(crate) fn no_marks() -> [bool; CALLER_LIMIT]
    ensures { IsMarked result [] }
{
    [false; CALLER_LIMIT]
}

/// The slots of the marked callers below this one.
pub(crate) fn slots_below(marks: &[bool; CALLER_LIMIT], i: usize) -> usize
    requires { i < CALLER_LIMIT }
    ensures count { result ≡ count_by (λ mark. mark) (take i marks.now) }
    ensures few { result ≤ 64 }
{
    marked(&marks[..i])
}

/// And of those above it.
pub(crate) fn slots_above(marks: &[bool; CALLER_LIMIT], i: usize) -> usize
    requires { i < CALLER_LIMIT }
    ensures count { result ≡ count_by (λ mark. mark) (drop (i + 1) marks.now) }
    ensures few { result ≤ 64 }
{
    marked(&marks[i + 1..])
}

fn marked(marks: &[bool]) -> usize
    ensures { result ≡ count_by (λ mark. mark) marks.now }
{
    let mut count = 0;
    for k in 0..marks.len() {
        if marks[k] {
            count += 1;
        }
    }
    count
}
