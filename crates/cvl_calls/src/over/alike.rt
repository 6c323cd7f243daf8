//! Calls of one word that all write their integers over those at their targets, by one kernel run.

ghost use Rattle.std.specs.Prelude.{◌≡◌, ◌≢◌, ◌++◌, ◌+◌, ◌<◌, ◌≤◌, [], ℤ, List, Ok, None, Some, false, length, map, vec_len, vec_capacity, All, IfSome, IsTrue, OnErr, OnOk};
ghost use Rattle.std.specs.List.{AllByRecursion};
ghost use Rattle.scan_kernels.specs.Metering.{raised};
ghost use Rattle.vector_memory.specs.Contents.{Ints};
ghost use Rattle.vector_memory.specs.States.{cells_of, put, value_at};
ghost use Rattle.cvl_text.specs.Tasks.{reads, target, task_of};
ghost use Rattle.cvl_calls.specs.Alike.{AreDone, AreHeld, HasRoomFor, ReadsNoneEmpty, after_all, emptied, filled};
ghost use Rattle.cvl_calls.specs.Outcomes.{Stores};
ghost use Rattle.cvl_calls.specs.Over.{IsInts};
ghost use Rattle.cvl_calls.specs.Steps.{work_on};

use crate::joining::{Group, Item, run_group_over};
use crate::over::held::{lent, take};
use cvl_text::{Call, NamesRead, Word, names_read, target};
use scan_kernels::{Execution, Meter};
use std::alloc::Global;
use vector_memory::laws::memories_are_lawful;
use vector_memory::{Memory, Name, Value};

/// Calls of one word, on a memory.
#[derive(Clone, Copy)]
struct CallsOn<'a> {
    memory: &'a Memory,
    word: Word,
    calls: &'a [&'a Call],
}

impl Group for CallsOn<'_> {
    ghost IsAlike = { λ g. All (λ c. (task_of c.now).word ≡ g.word) g.calls.now };

    ghost word = { λ g. g.word };

    ghost works = { λ g. map (λ c. work_on g.memory.now (task_of c.now)) g.calls.now };

    fn count(&self) -> usize {
        self.calls.len()
    }

    fn item(&self, place: usize) -> Item<'_> {
        Item::Call(self.memory, self.calls[place])
    }

    fn is_again(&self, _place: usize) -> bool {
        false
    }
}

/// The targets of calls, if each has one and there is memory for their list.
fn targets_of(alloc: Global, calls: &[&Call]) -> Option<Vec<Name>>
    ensures { IfSome result (λ names. map (λ c. target (task_of c.now)) calls.now ≡ map (λ n. Some n) names.items) }
{
    let mut names = Vec::with_capacity(alloc, calls.len()).ok()?;
    for call in calls {
        names.push_reserved(target(*call)?);
    }
    Some(names)
}

/// Whether a name stands for integers, one at least.
fn has_ints(memory: &Memory, name: &Name) -> bool
    ensures { IsTrue result → (xs : List ℤ) × (value_at memory.now name.now ≡ Some (Ints xs)) × (0 < length xs) }
{
    match lent(memory, name) {
        Some(items) => !items.is_empty(),
        None => false,
    }
}

/// Puts integers at a name that stands for none.
fn give(memory: &mut Memory, name: Name, items: Vec<i64>)
    requires there { value_at memory.old name ≡ Some (Ints []) }
    requires room { cells_of memory.old.entries + length items.items ≤ memory.old.room }
    requires short { length items.items ≤ memory.old.limit }
    requires outside { memory.old.block ≡ None }
    ensures { memory.new ≡ put memory.old name (Ints items.items) }
{
    match memory.replace(name, Value::Ints(items)) {
        Ok(_) => {}
        Err(_) => unreachable!(),
    }
}

/// Takes the integers at the names out of the memory, outside a block, and puts them behind the lists, for which there is space. Where a
/// name stands for none, or comes twice, all stays as it is.
fn take_each(alloc: Global, memory: &mut Memory, names: &[Name], lists: &mut Vec<Vec<i64>>) -> bool
    requires outside { memory.old.block ≡ None }
    requires space { vec_len lists.old + length names.now ≤ vec_capacity lists.old }
    ensures taken { IsTrue result → memory.new ≡ emptied memory.old names.now }
    ensures held { IsTrue result → (taken : List (List ℤ)) × (map (λ v. v.items) lists.new.items ≡ map (λ v. v.items) lists.old.items ++ taken)
        × AreHeld memory.old names.now taken }
    ensures memory { result ≡ false → memory.new ≡ memory.old }
    ensures lists { result ≡ false → lists.new.items ≡ lists.old.items }
    ensures capacity { vec_capacity lists.new ≡ vec_capacity lists.old }
{
    memories_are_lawful(memory);
    let Some((name, others)) = names.split_first() else {
        return true;
    };
    if !has_ints(memory, name) {
        return false;
    }
    lists.push_reserved(take(alloc, memory, *name));
    if take_each(alloc, memory, others, lists) {
        return true;
    }
    give(memory, *name, lists.take_last());
    false
}

/// Puts integers at the names, which stand for none.
fn give_each(memory: &mut Memory, names: &[Name], lists: Vec<Vec<i64>>)
    requires outside { memory.old.block ≡ None }
    requires room { HasRoomFor memory.old names.now (map (λ v. v.items) lists.items) }
    ensures { memory.new ≡ filled memory.old names.now (map (λ v. v.items) lists.items) }
{
    let mut place = 0;
    for items in lists {
        give(memory, names[place], items);
        place += 1;
    }
}

/// Whether a name stands for integers of which there are none.
fn is_empty(memory: &Memory, name: &Name) -> bool
    ensures { result ≡ false → value_at memory.now name.now ≢ Some (Ints []) }
{
    match lent(memory, name) {
        Some(items) => items.is_empty(),
        None => false,
    }
}

/// Whether a call reads no name that stands for no integers.
fn reads_none_empty(memory: &Memory, call: &Call) -> bool
    ensures { IsTrue result → ReadsNoneEmpty memory.now (task_of call.now) }
{
    match names_read(call) {
        NamesRead::Zero => true,
        NamesRead::One(a) => !is_empty(memory, a),
        NamesRead::Two(a, b) => !is_empty(memory, a) && !is_empty(memory, b),
        NamesRead::Three(a, b, c) => {
            !is_empty(memory, a) && !is_empty(memory, b) && !is_empty(memory, c)
        }
        NamesRead::Four(a, b, c, d) => {
            !is_empty(memory, a)
                && !is_empty(memory, b)
                && !is_empty(memory, c)
                && !is_empty(memory, d)
        }
    }
}

/// Whether no call reads a name that stands for no integers.
fn read_none_empty(memory: &Memory, calls: &[&Call]) -> bool
    ensures { IsTrue result → AllByRecursion (λ c. ReadsNoneEmpty memory.now (task_of c.now)) calls.now }
{
    let Some((call, others)) = calls.split_first() else {
        return true;
    };
    reads_none_empty(memory, *call) && read_none_empty(memory, others)
}

/// Makes what the calls make of a memory, of which none reads what was taken out, over these vectors. Else they stay as they are.
fn make_over(
    execution: &impl Execution,
    alloc: Global,
    meter: &mut Meter,
    memory: &Memory,
    word: Word,
    calls: &[&Call],
    lists: &mut Vec<Vec<i64>>,
) -> bool
    requires alike { All (λ c. (task_of c.now).word ≡ word) calls.now }
    ensures apart { IsTrue result → AllByRecursion (λ c. ReadsNoneEmpty memory.now (task_of c.now)) calls.now }
    ensures makes { IsTrue result → map (λ v. Ok (Stores (Ints v.items))) lists.new.items ≡ map (λ c. work_on memory.now (task_of c.now)) calls.now }
    ensures long { map (λ v. length v.items) lists.new.items ≡ map (λ v. length v.items) lists.old.items }
    ensures counted { IsTrue result → meter.new ≡ raised meter.old }
    ensures unchanged { result ≡ false → lists.new ≡ lists.old }
    ensures stays { result ≡ false → meter.new ≡ meter.old }
{
    if !read_none_empty(memory, calls) {
        return false;
    }
    let group = CallsOn {
        memory,
        word,
        calls,
    };
    match run_group_over(execution, alloc, meter, lists, word, &group) {
        Ok(()) => true,
        Err(_) => false,
    }
}

/// Runs calls of one word on a memory outside a block, all by one kernel run, by which the meter rises once: each writes its integers
/// over those at its target. Where that cannot be, nothing changes: where a target stands for no integers or for another number of
/// them, or is that of two calls, or is read by a call, where a call has a fault or is none that is written so, and for want of memory.
pub fn step_alike(
    execution: &impl Execution,
    alloc: Global,
    meter: &mut Meter,
    memory: &mut Memory,
    word: Word,
    calls: &[&Call],
) -> bool
    requires outside { memory.old.block ≡ None }
    requires alike { All (λ c. (task_of c.now).word ≡ word) calls.now }
    ensures memory { IsTrue result → memory.new ≡ after_all memory.old (map (λ c. task_of c.now) calls.now) }
    ensures done { IsTrue result → AreDone memory.old (map (λ c. task_of c.now) calls.now) }
    ensures counted { IsTrue result → meter.new ≡ raised meter.old }
    ensures unchanged { result ≡ false → memory.new ≡ memory.old }
    ensures stays { result ≡ false → meter.new ≡ meter.old }
{
    memories_are_lawful(memory);
    let Some(names) = targets_of(alloc, calls) else {
        return false;
    };
    let Ok(mut lists) = Vec::with_capacity(alloc, names.len()) else {
        return false;
    };
    if !take_each(alloc, memory, &names, &mut lists) {
        return false;
    }
    let made = make_over(execution, alloc, meter, memory, word, calls, &mut lists);
    give_each(memory, &names, lists);
    made
}
