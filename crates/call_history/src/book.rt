ghost use Rattle.std.specs.Prelude.{◌≡◌, ◌==◌, ◌+◌, ◌<◌, ◌≤◌, ◌∷◌, ◌++◌, [], length, map, slice_get, false, Err, Ok, Some, All, IfOk, IfErr, OnOk, OnErr, IsOk, IsTrue};
ghost use Rattle.std.specs.List.{AllByRecursion};
ghost use Rattle.scan_kernels.specs.Metering.{raised};
ghost use Rattle.vector_memory.specs.States.{IsLawfulRoom, MayChange, bounds_in};
ghost use Rattle.vector_memory.specs.Contents.{content_of};
ghost use Rattle.vector_memory.specs.Editions.{item_limit};
ghost use Rattle.cvl_text.specs.Tasks.{task_of};
ghost use Rattle.cvl_text.specs.Answers.{answer_of};
ghost use Rattle.cvl_calls.specs.Alike.{AreDone};
ghost use Rattle.cvl_calls.specs.Outcomes.{Stores};
ghost use Rattle.cvl_calls.specs.Steps.{CountsStep, MayLackMemory, answer_to_store, runs_on, stepped, work_on};
ghost use Rattle.cvl_calls.specs.Runs.{TakesNoMemory, has_own_step};
ghost use Rattle.call_history.specs.History.{replies_from, reply_after};
ghost use Rattle.call_history.specs.Books.{memory_of};
ghost use Rattle.call_history.specs.Blocks.{RisesBy, Whole, block_entries, block_limit, metered};
ghost use Rattle.call_history.specs.Alike.{entered};
ghost use Rattle.call_history.specs.Callers.{AreTickets, IsTicketed, HasLawfulCallers, caller_limit, next_before, next_entry};
ghost use Rattle.call_history.specs.Refs.{entry_of};
ghost use Rattle.call_history.specs.Kept.{FitsFew, MayBeBrief, call_of, is_whole};
ghost use Rattle.call_history.specs.Works.{HandsBack, IsWhole, IsWork, MayWantMemory};

use crate::alike::{briefs, enter_briefs};
use crate::audit::{holds_the_same, replayed};
use crate::block::{enter_each, run_each};
use crate::entry::EntryRef;
use crate::kept::{Kept, brief, own_brief};
use crate::log::Log;
use crate::work::{Unserved, Work};
use cvl_calls::{
    Made, Product, Shelves, Spare, apply_joined, step_alike, step_own, step_with, store_joined,
    target,
};
use cvl_text::{Call, Fault, Reply, Word};
use scan_kernels::{Execution, Meter};
use std::alloc::Global;
use std::marker::Model;
use vector_memory::laws::memories_are_lawful;
use vector_memory::{Bounds, Edition, Memory, OutOfMemory, Value};

/// The greatest number of callers.
pub const CALLER_LIMIT: usize = 64;

/// The greatest number of calls of a block.
pub const BLOCK_LIMIT: usize = 1024;

/// A history, and the memory that it leads to.
#[derive(Drop)]
pub struct Book {
    memory: Memory,
    log: Log,
    /// The next ticket of each caller. It lies apart, so that a book is moved by few bytes.
    tickets: Box<[u64; CALLER_LIMIT]>,
    /// Vectors that were replaced, for the next results.
    spare: Spare,
}

impl Model for Book {
    ghost use Rattle.call_history.specs.Books.{BookState};

    ghost Value = { BookState };

    ghost use Rattle.call_history.specs.Insides.{book_state, KeepsHistory};

    ghost view = { book_state };

    ghost invariant = { KeepsHistory };
}

/// Writes a call behind the entries, with the caller's next ticket and so many more of its block to follow, and answers its place.
pub(crate) fn enter(
    log: &mut Log,
    tickets: &mut Box<[u64; CALLER_LIMIT]>,
    caller: u64,
    call: Call,
    rest: u64,
) -> u64
    requires caller { caller < CALLER_LIMIT }
    requires rest { rest < block_limit }
    requires space { 0 < log.old.spaces }
    requires counted { AreTickets tickets.old.value log.old.entries }
    requires ticketed { IsTicketed log.old.entries }
    requires lawful_callers { HasLawfulCallers log.old.entries }
    ensures place { result ≡ length log.old.entries }
    ensures entries { log.new.entries ≡ log.old.entries ++ next_before log.old.entries caller call rest ∷ [] }
    ensures one_space { log.old.spaces ≤ log.new.spaces + 1 }
    ensures counted { AreTickets tickets.new.value log.new.entries }
    ensures ticketed { IsTicketed log.new.entries }
    ensures lawful_callers { HasLawfulCallers log.new.entries }
{
    let place = log.len() as u64;
    let ticket = tickets[caller as usize];
    log.push(caller as u8, rest as u16, ticket, call);
    tickets[caller as usize] = ticket + 1;
    place
}

/// Writes a call that is kept in few bytes behind the entries, with the caller's next ticket, and answers its place.
#[inline(always)]
pub(crate) fn enter_brief(
    log: &mut Log,
    tickets: &mut Box<[u64; CALLER_LIMIT]>,
    caller: u64,
    kept: Kept,
) -> u64
    requires caller { caller < CALLER_LIMIT }
    requires brief { is_whole kept ≡ false }
    requires space { 0 < log.old.spaces }
    requires counted { AreTickets tickets.old.value log.old.entries }
    requires ticketed { IsTicketed log.old.entries }
    requires lawful_callers { HasLawfulCallers log.old.entries }
    ensures place { result ≡ length log.old.entries }
    ensures entries { log.new.entries ≡ log.old.entries ++ next_before log.old.entries caller (call_of kept) 0 ∷ [] }
    ensures one_space { log.old.spaces ≤ log.new.spaces + 1 }
    ensures counted { AreTickets tickets.new.value log.new.entries }
    ensures ticketed { IsTicketed log.new.entries }
    ensures lawful_callers { HasLawfulCallers log.new.entries }
{
    let before = log.len();
    let ticket = tickets[caller as usize];
    log.push_brief(caller as u8, ticket, kept);
    tickets[caller as usize] = ticket + 1;
    before as u64
}

/// Stores or says what a call made of the memory in a joined run.
#[inline(always)]
fn done(
    spare: &mut Spare,
    memory: &mut Memory,
    call: &Call,
    work: Work,
) -> Result<Reply, OutOfMemory>
    requires work { IsWork work (work_on memory.old (task_of call.now)) }
    requires may_change { MayChange memory.old }
    ensures ok { IfOk result (λ reply. stepped memory.old (task_of call.now)
        ≡ record { memory = memory.new; answer = answer_of reply }) }
    ensures grows { OnErr result (MayWantMemory memory.old (task_of call.now)) }
    ensures err { OnErr result (memory.new ≡ memory.old) }
{
    memories_are_lawful(memory);
    match work {
        Work::Say(reply) => Ok(reply),
        Work::Store(value) => apply_joined(spare, memory, target(call), Product::Store(value)),
    }
}

/// Stores a value that a call made of the memory in a joined run: the fault by which the store is refused, if it is.
#[inline(always)]
fn stored(
    spare: &mut Spare,
    memory: &mut Memory,
    call: &Call,
    value: Value,
) -> Result<Option<Fault>, OutOfMemory>
    requires work { work_on memory.old (task_of call.now) ≡ Ok (Stores (content_of value)) }
    requires may_change { MayChange memory.old }
    ensures ok { IfOk result (λ fault. stepped memory.old (task_of call.now)
        ≡ record { memory = memory.new; answer = answer_to_store fault }) }
    ensures grows { OnErr result (MayWantMemory memory.old (task_of call.now)) }
    ensures err { OnErr result (memory.new ≡ memory.old) }
{
    memories_are_lawful(memory);
    store_joined(spare, memory, target(call), value)
}

impl Book {
    /// A book of edition 1 with an empty history, whose memory has room for up to `room` items together.
    pub fn new(alloc: Global, room: u64) -> Result<Book, OutOfMemory>
        requires { IsLawfulRoom room }
        ensures history { IfOk result (λ book. book.history ≡ []) }
        ensures bounds { IfOk result (λ book. book.bounds ≡ bounds_in Edition.One room) }
    {
        Book::with_edition(alloc, room, Edition::One)
    }

    /// A book with an empty history, whose memory is of an edition and has room for up to `room` items together.
    pub fn with_edition(alloc: Global, room: u64, edition: Edition) -> Result<Book, OutOfMemory>
        requires { IsLawfulRoom room }
        ensures history { IfOk result (λ book. book.history ≡ []) }
        ensures bounds { IfOk result (λ book. book.bounds ≡ bounds_in edition room) }
    {
        Ok(Book {
            memory: Memory::with_edition(alloc, room, edition)?,
            log: Log::new(alloc),
            tickets: Box::new(alloc, [0; CALLER_LIMIT])?,
            spare: Spare::new(alloc),
        })
    }

    /// Runs a call and writes it behind the history. A fault is a reply, and its call an entry like any other.
    /// Answers the place of the entry, counted from 0, and the reply. For want of memory the call comes back and stands in
    /// no history.
    pub fn run(
        &mut self,
        execution: &impl Execution,
        alloc: Global,
        caller: u64,
        call: Call,
    ) -> Result<(u64, Reply), (Call, OutOfMemory)>
        requires { caller < CALLER_LIMIT }
        ensures history { OnOk result (self.new.history
            ≡ self.old.history ++ next_entry self.old.history caller call ∷ []) }
        ensures place { IfOk result (λ answer. answer.0 ≡ length self.old.history) }
        ensures reply { IfOk result (λ answer. answer_of answer.1 ≡ reply_after self.old.bounds self.old.history call) }
        ensures memory { OnOk result (memory_of self.new ≡ (stepped (memory_of self.old) (task_of call)).memory) }
        ensures one_space { OnOk result (self.old.spaces ≤ self.new.spaces + 1) }

        ensures back { IfErr result (λ refused. refused.0 ≡ call) }
        ensures unchanged { OnErr result (self.new.history ≡ self.old.history) }
        ensures spaces_kept { OnErr result (self.old.spaces ≤ self.new.spaces) }

        ensures bounds { self.new.bounds ≡ self.old.bounds }

        // In space that was reserved it is refused only where a step is.
        ensures lacks { 0 < self.old.spaces →
            OnErr result (MayLackMemory (memory_of self.old) (task_of call)) }
        ensures answered { 0 < self.old.spaces → TakesNoMemory (task_of call).word → IsOk result }
    {
        self.run_metered(execution, alloc, &mut Meter::new(), caller, call)
    }

    /// `run` with a meter handed in, which rises by one where a kernel ran.
    pub fn run_metered(
        &mut self,
        execution: &impl Execution,
        alloc: Global,
        meter: &mut Meter,
        caller: u64,
        call: Call,
    ) -> Result<(u64, Reply), (Call, OutOfMemory)>
        requires { caller < CALLER_LIMIT }
        ensures history { OnOk result (self.new.history
            ≡ self.old.history ++ next_entry self.old.history caller call ∷ []) }
        ensures place { IfOk result (λ answer. answer.0 ≡ length self.old.history) }
        ensures reply { IfOk result (λ answer. answer_of answer.1 ≡ reply_after self.old.bounds self.old.history call) }
        ensures memory { OnOk result (memory_of self.new ≡ (stepped (memory_of self.old) (task_of call)).memory) }
        ensures one_space { OnOk result (self.old.spaces ≤ self.new.spaces + 1) }

        ensures back { IfErr result (λ refused. refused.0 ≡ call) }
        ensures unchanged { OnErr result (self.new.history ≡ self.old.history) }
        ensures spaces_kept { OnErr result (self.old.spaces ≤ self.new.spaces) }

        ensures bounds { self.new.bounds ≡ self.old.bounds }
        ensures counted { CountsStep (runs_on (memory_of self.old) (task_of call)) result meter.old meter.new }

        // In space that was reserved it is refused only where a step is.
        ensures lacks { 0 < self.old.spaces →
            OnErr result (MayLackMemory (memory_of self.old) (task_of call)) }
        ensures answered { 0 < self.old.spaces → TakesNoMemory (task_of call).word → IsOk result }
    {
        let Ok(()) = self.log.reserve(1) else {
            return Err((call, OutOfMemory));
        };
        let Ok(reply) = step_with(
            execution,
            alloc,
            meter,
            &mut self.spare,
            &mut self.memory,
            &call,
        ) else {
            return Err((call, OutOfMemory));
        };
        let place = enter(&mut self.log, &mut self.tickets, caller, call, 0);
        Ok((place, reply))
    }

    /// `run` of a call whose work was done before, on a memory from which the call reads what it reads of this one.
    pub fn run_with(
        &mut self,
        caller: u64,
        call: Call,
        work: Work,
    ) -> Result<(u64, Reply), (Call, OutOfMemory)>
        requires caller { caller < CALLER_LIMIT }
        requires work { IsWork work (work_on (memory_of self.old) (task_of call)) }
        ensures history { OnOk result (self.new.history
            ≡ self.old.history ++ next_entry self.old.history caller call ∷ []) }
        ensures place { IfOk result (λ answer. answer.0 ≡ length self.old.history) }
        ensures reply { IfOk result (λ answer. answer_of answer.1 ≡ reply_after self.old.bounds self.old.history call) }
        ensures memory { OnOk result (memory_of self.new ≡ (stepped (memory_of self.old) (task_of call)).memory) }
        ensures one_space { OnOk result (self.old.spaces ≤ self.new.spaces + 1) }

        ensures back { IfErr result (λ refused. refused.0 ≡ call) }
        ensures unchanged { OnErr result (self.new.history ≡ self.old.history) }
        ensures spaces_kept { OnErr result (self.old.spaces ≤ self.new.spaces) }

        ensures bounds { self.new.bounds ≡ self.old.bounds }

        // In space that was reserved it is refused only where its value is to be stored and has room.
        ensures lacks { 0 < self.old.spaces →
            OnErr result (MayWantMemory (memory_of self.old) (task_of call)) }
    {
        let Ok(()) = self.log.reserve(1) else {
            return Err((call, OutOfMemory));
        };
        let Ok(reply) = done(&mut self.spare, &mut self.memory, &call, work) else {
            return Err((call, OutOfMemory));
        };
        let place = enter(&mut self.log, &mut self.tickets, caller, call, 0);
        Ok((place, reply))
    }

    /// `run_metered` of a call that is lent, in space that is left: it is entered as a history keeps it in few bytes. A call that a
    /// history keeps whole is not run, and for want of memory it stands in no history. Kept whole are calls with more than three names and
    /// numbers, a name of more than twelve bytes, or items of their own.
    #[inline(always)]
    pub fn run_metered_lent(
        &mut self,
        execution: &impl Execution,
        alloc: Global,
        meter: &mut Meter,
        caller: u64,
        call: &Call,
    ) -> Result<(u64, Reply), Unserved<()>>
        requires caller { caller < CALLER_LIMIT }
        requires space { 0 < self.old.spaces }
        ensures history { OnOk result (self.new.history
            ≡ self.old.history ++ next_entry self.old.history caller call.now ∷ []) }
        ensures place { IfOk result (λ answer. answer.0 ≡ length self.old.history) }
        ensures reply { IfOk result (λ answer. answer_of answer.1 ≡ reply_after self.old.bounds self.old.history call.now) }
        ensures memory { OnOk result (memory_of self.new ≡ (stepped (memory_of self.old) (task_of call.now)).memory) }
        ensures one_space { OnOk result (self.old.spaces ≤ self.new.spaces + 1) }

        ensures unchanged { OnErr result (self.new.history ≡ self.old.history) }
        ensures spaces_kept { OnErr result (self.old.spaces ≤ self.new.spaces) }

        ensures bounds { self.new.bounds ≡ self.old.bounds }
        ensures counted { CountsStep (runs_on (memory_of self.old) (task_of call.now)) result meter.old meter.new }
        ensures whole { result ≡ Err (Unserved.Whole tt) → meter.new ≡ meter.old }
        ensures long { IfErr result (λ why. IsWhole why → FitsFew (task_of call.now) → ⊥) }

        // Memory is wanted only where it is for a step.
        ensures lacks { result ≡ Err Unserved.OutOfMemory → MayLackMemory (memory_of self.old) (task_of call.now) }
        ensures answered { TakesNoMemory (task_of call.now).word → result ≡ Err Unserved.OutOfMemory → ⊥ }
    {
        let Some(kept) = brief(call) else {
            return Err(Unserved::Whole(()));
        };
        let Ok(reply) = step_with(
            execution,
            alloc,
            meter,
            &mut self.spare,
            &mut self.memory,
            call,
        ) else {
            return Err(Unserved::OutOfMemory);
        };
        Ok((
            enter_brief(&mut self.log, &mut self.tickets, caller, kept),
            reply,
        ))
    }

    /// `run_metered_lent` of a call that has a step of its own, `has_own_step`. In place of a reply it answers the fault, if there is
    /// one: so little is answered that a short call pays nothing for moving it.
    #[inline(always)]
    pub fn run_own_lent(
        &mut self,
        execution: &impl Execution,
        alloc: Global,
        meter: &mut Meter,
        caller: u64,
        call: &Call,
    ) -> Result<(u64, Option<Fault>), Unserved<()>>
        requires caller { caller < CALLER_LIMIT }
        requires own { IsTrue (has_own_step (task_of call.now).word) }
        requires space { 0 < self.old.spaces }
        ensures history { OnOk result (self.new.history
            ≡ self.old.history ++ next_entry self.old.history caller call.now ∷ []) }
        ensures place { IfOk result (λ answer. answer.0 ≡ length self.old.history) }
        ensures reply { IfOk result (λ answer. answer_to_store answer.1 ≡ reply_after self.old.bounds self.old.history call.now) }
        ensures memory { OnOk result (memory_of self.new ≡ (stepped (memory_of self.old) (task_of call.now)).memory) }
        ensures one_space { OnOk result (self.old.spaces ≤ self.new.spaces + 1) }

        ensures unchanged { OnErr result (self.new.history ≡ self.old.history) }
        ensures spaces_kept { OnErr result (self.old.spaces ≤ self.new.spaces) }

        ensures bounds { self.new.bounds ≡ self.old.bounds }
        ensures counted { CountsStep (runs_on (memory_of self.old) (task_of call.now)) result meter.old meter.new }
        ensures whole { result ≡ Err (Unserved.Whole tt) → meter.new ≡ meter.old }
        ensures long { IfErr result (λ why. IsWhole why → FitsFew (task_of call.now) → ⊥) }

        // Memory is wanted only where it is for a step.
        ensures lacks { result ≡ Err Unserved.OutOfMemory → MayLackMemory (memory_of self.old) (task_of call.now) }
    {
        let Some(kept) = own_brief(call) else {
            return Err(Unserved::Whole(()));
        };
        let Ok(fault) = step_own(
            execution,
            alloc,
            meter,
            &mut self.spare,
            &mut self.memory,
            call,
        ) else {
            return Err(Unserved::OutOfMemory);
        };
        Ok((
            enter_brief(&mut self.log, &mut self.tickets, caller, kept),
            fault,
        ))
    }

    /// `run_with` of a call that is lent, in space that is left: it is entered as a history keeps it in few bytes. The work of a call
    /// that a history keeps whole comes back, and for want of memory it is gone; then the call stands in no history.
    #[inline(always)]
    pub fn run_lent(
        &mut self,
        caller: u64,
        call: &Call,
        work: Work,
    ) -> Result<(u64, Reply), Unserved<Work>>
        requires caller { caller < CALLER_LIMIT }
        requires space { 0 < self.old.spaces }
        requires work { IsWork work (work_on (memory_of self.old) (task_of call.now)) }
        ensures history { OnOk result (self.new.history
            ≡ self.old.history ++ next_entry self.old.history caller call.now ∷ []) }
        ensures place { IfOk result (λ answer. answer.0 ≡ length self.old.history) }
        ensures reply { IfOk result (λ answer. answer_of answer.1 ≡ reply_after self.old.bounds self.old.history call.now) }
        ensures memory { OnOk result (memory_of self.new ≡ (stepped (memory_of self.old) (task_of call.now)).memory) }
        ensures one_space { OnOk result (self.old.spaces ≤ self.new.spaces + 1) }

        ensures back { IfErr result (HandsBack work) }
        ensures brief { result ≡ Err Unserved.OutOfMemory → MayBeBrief call.now }
        ensures long { IfErr result (λ why. IsWhole why → FitsFew (task_of call.now) → ⊥) }
        ensures unchanged { OnErr result (self.new.history ≡ self.old.history) }
        ensures spaces_kept { OnErr result (self.old.spaces ≤ self.new.spaces) }

        ensures bounds { self.new.bounds ≡ self.old.bounds }

        // Memory is wanted only where its value is to be stored and has room.
        ensures lacks { result ≡ Err Unserved.OutOfMemory → MayWantMemory (memory_of self.old) (task_of call.now) }
    {
        let Some(kept) = brief(call) else {
            return Err(Unserved::Whole(work));
        };
        let Ok(reply) = done(&mut self.spare, &mut self.memory, call, work) else {
            return Err(Unserved::OutOfMemory);
        };
        let place = enter_brief(&mut self.log, &mut self.tickets, caller, kept);
        Ok((place, reply))
    }

    /// `run_lent` of a call whose work is a value to be stored. In place of a reply it answers the fault by which the store is refused,
    /// if it is: so little is answered that a short call pays nothing for moving it.
    #[inline(always)]
    pub fn store_lent(
        &mut self,
        caller: u64,
        call: &Call,
        value: Value,
    ) -> Result<(u64, Option<Fault>), Unserved<Value>>
        requires caller { caller < CALLER_LIMIT }
        requires space { 0 < self.old.spaces }
        requires work { work_on (memory_of self.old) (task_of call.now) ≡ Ok (Stores (content_of value)) }
        ensures history { OnOk result (self.new.history
            ≡ self.old.history ++ next_entry self.old.history caller call.now ∷ []) }
        ensures place { IfOk result (λ answer. answer.0 ≡ length self.old.history) }
        ensures reply { IfOk result (λ answer. answer_to_store answer.1 ≡ reply_after self.old.bounds self.old.history call.now) }
        ensures memory { OnOk result (memory_of self.new ≡ (stepped (memory_of self.old) (task_of call.now)).memory) }
        ensures one_space { OnOk result (self.old.spaces ≤ self.new.spaces + 1) }

        ensures back { IfErr result (HandsBack value) }
        ensures brief { result ≡ Err Unserved.OutOfMemory → MayBeBrief call.now }
        ensures long { IfErr result (λ why. IsWhole why → FitsFew (task_of call.now) → ⊥) }
        ensures unchanged { OnErr result (self.new.history ≡ self.old.history) }
        ensures spaces_kept { OnErr result (self.old.spaces ≤ self.new.spaces) }

        ensures bounds { self.new.bounds ≡ self.old.bounds }

        // Memory is wanted only where the value has room.
        ensures lacks { result ≡ Err Unserved.OutOfMemory → MayWantMemory (memory_of self.old) (task_of call.now) }
    {
        let Some(kept) = brief(call) else {
            return Err(Unserved::Whole(value));
        };
        let Ok(fault) = stored(&mut self.spare, &mut self.memory, call, value) else {
            return Err(Unserved::OutOfMemory);
        };
        let entry = enter_brief(&mut self.log, &mut self.tickets, caller, kept);
        Ok((entry, fault))
    }

    /// Runs calls of one word that are lent, in space that is left, each of the caller at its place, all by one kernel run: they write
    /// their integers over those at their targets, and each is done. Where that cannot be, as `step_alike` tells, or a call cannot be kept
    /// in few bytes, nothing changes.
    pub fn run_alike(
        &mut self,
        execution: &impl Execution,
        alloc: Global,
        meter: &mut Meter,
        word: Word,
        callers: &[u64],
        calls: &[&Call],
    ) -> bool
        requires callers { AllByRecursion (λ k. k < caller_limit) callers.now }
        requires paired { length callers.now ≡ length calls.now }
        requires alike { All (λ c. (task_of c.now).word ≡ word) calls.now }
        requires space { length calls.now ≤ self.old.spaces }
        ensures history { IsTrue result → self.new.history ≡ entered self.old.history callers.now (map (λ c. c.now) calls.now) }
        ensures done { IsTrue result → AreDone (memory_of self.old) (map (λ c. task_of c.now) calls.now) }
        ensures spaces { IsTrue result → self.old.spaces ≤ self.new.spaces + length calls.now }
        ensures counted { IsTrue result → meter.new ≡ raised meter.old }

        ensures unchanged { result ≡ false → self.new ≡ self.old }
        ensures stays { result ≡ false → meter.new ≡ meter.old }

        ensures bounds { self.new.bounds ≡ self.old.bounds }
    {
        let Some(kept) = briefs(alloc, calls) else {
            return false;
        };
        if !step_alike(execution, alloc, meter, &mut self.memory, word, calls) {
            return false;
        }
        enter_briefs(&mut self.log, &mut self.tickets, callers, kept);
        true
    }

    /// Runs the calls of a block, 1 to `BLOCK_LIMIT`, and writes them next to one another behind the history. A fault is a reply,
    /// and the block goes on. Answers the place of the first entry, counted from 0, and the replies in order. For want of memory at
    /// any of them the calls come back, and memory and history are as before. The meter rises by one for each call that ran a kernel.
    pub fn run_block(
        &mut self,
        execution: &impl Execution,
        alloc: Global,
        meter: &mut Meter,
        caller: u64,
        calls: Vec<Call>,
    ) -> Result<(u64, Vec<Reply>), (Vec<Call>, OutOfMemory)>
        requires caller { caller < CALLER_LIMIT }
        requires few { (1 ≤ length calls.items) × (length calls.items ≤ block_limit) }
        ensures history { OnOk result (self.new.history
            ≡ self.old.history ++ block_entries self.old.history caller calls.items) }
        ensures place { IfOk result (λ answer. answer.0 ≡ length self.old.history) }
        ensures replies { IfOk result (λ answer. map answer_of answer.1.items
            ≡ replies_from (memory_of self.old) (block_entries self.old.history caller calls.items)) }
        ensures spaces { OnOk result (self.old.spaces ≤ self.new.spaces + length calls.items) }
        ensures counted { OnOk result (meter.new ≡ metered (memory_of self.old) calls.items meter.old) }

        ensures back { IfErr result (λ refused. refused.0 ≡ calls) }
        ensures unchanged { OnErr result (self.new.history ≡ self.old.history) }
        ensures spaces_kept { OnErr result (self.old.spaces ≤ self.new.spaces) }

        ensures bounds { self.new.bounds ≡ self.old.bounds }
        ensures rises { RisesBy (length calls.items) meter.old meter.new }
    {
        let Ok(mut replies) = Vec::with_capacity(alloc, calls.len()) else {
            return Err((calls, OutOfMemory));
        };
        let Ok(()) = self.log.reserve(calls.len()) else {
            return Err((calls, OutOfMemory));
        };
        let Ok(()) = self.memory.begin_block(calls.len()) else {
            return Err((calls, OutOfMemory));
        };
        let Ok(()) = run_each(
            execution,
            alloc,
            meter,
            &mut self.spare,
            &mut self.memory,
            &calls,
            &mut replies,
        ) else {
            self.memory.undo_block();
            return Err((calls, OutOfMemory));
        };
        self.memory.end_block();
        let place = enter_each(&mut self.log, &mut self.tickets, caller, calls);
        Ok((place, replies))
    }

    /// Makes space for `additional` more entries at least. History and bounds are as before either way.
    pub fn reserve(&mut self, additional: usize) -> Result<(), OutOfMemory>
        ensures spaces { OnOk result (additional ≤ self.new.spaces) }
        ensures succeeds { additional ≤ self.old.spaces → IsOk result }
        ensures spaces_kept { self.old.spaces ≤ self.new.spaces }
        ensures history { self.new.history ≡ self.old.history }
        ensures bounds { self.new.bounds ≡ self.old.bounds }
    {
        self.log.reserve(additional)?;
        Ok(())
    }

    /// The number of entries. In each book the tickets of a caller are 0, 1, 2 and so on in order, and no block is cut.
    pub fn len(&self) -> usize
        ensures len { result ≡ length self.now.history }
        ensures ticketed { IsTicketed self.now.history }
        ensures callers { HasLawfulCallers self.now.history }
        ensures whole { Whole self.now.history }
    {
        self.log.len()
    }

    /// Whether no call has run.
    pub fn is_empty(&self) -> bool
        ensures { result ≡ (length self.now.history == 0) }
    {
        self.log.len() == 0
    }

    /// The entry at place `i`, counted from 0.
    pub fn entry(&self, i: usize) -> EntryRef<'_>
        requires { i < length self.now.history }
        ensures { slice_get self.now.history i ≡ Some (entry_of result) }
    {
        self.log.entry(i)
    }

    /// What the calls of the history made of an empty memory, one by one.
    pub fn memory(&self) -> &Memory
        ensures { result.now ≡ memory_of self.now }
    {
        &self.memory
    }

    /// Whether long vectors are kept for the results of joined runs, or many integers, as they are where joined runs made such.
    #[inline(always)]
    pub fn keeps_long_ints(&self) -> bool {
        self.spare.shelves().have_long_ints()
    }

    /// Takes out the vectors that are kept for the results of joined runs, for a run over what the memory lends, and leaves none. They
    /// are to be put back.
    #[inline(always)]
    pub fn take_shelves(&mut self) -> Shelves
        ensures { self.new ≡ self.old }
    {
        self.spare.take_shelves()
    }

    /// Puts vectors in the place of those that are kept for the results of joined runs.
    #[inline(always)]
    pub fn put_shelves(&mut self, shelves: Shelves)
        ensures { self.new ≡ self.old }
    {
        self.spare.put_shelves(shelves);
    }

    /// Keeps the list of what a joined run made, for the next of these.
    #[inline(always)]
    pub fn keep_list(&mut self, alloc: Global, made: Made)
        ensures { self.new ≡ self.old }
    {
        self.spare.keep_list(alloc, made);
    }

    /// Runs the calls of the history anew, on a memory of its own, and answers whether names, their order and their values
    /// come out as they stand. They do in each book.
    pub fn audit(&self, execution: &impl Execution, alloc: Global) -> Result<bool, OutOfMemory>
        ensures { IfOk result IsTrue }
    {
        memories_are_lawful(&self.memory);
        let room = self.memory.room();
        let edition = self.memory.edition();
        let anew = replayed(execution, alloc, room, edition, &self.log)?;
        Ok(holds_the_same(&anew, &self.memory))
    }

    /// The greatest number of items of all values.
    pub fn room(&self) -> u64
        ensures room { result ≡ self.now.bounds.room }
        ensures lawful { IsLawfulRoom self.now.bounds.room }
    {
        memories_are_lawful(&self.memory);
        self.memory.room()
    }

    /// The edition of the memory.
    pub fn edition(&self) -> Edition
        ensures { item_limit result ≡ self.now.bounds.limit }
    {
        self.memory.edition()
    }

    /// How much the memory may hold.
    pub fn bounds(&self) -> Bounds
        ensures { result ≡ self.now.bounds }
    {
        self.memory.bounds()
    }
}
