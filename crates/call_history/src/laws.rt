//! Laws of the definitions that the contracts cite: each function does nothing, and its contract is the law.

ghost use Rattle.std.specs.Prelude.{◌≡◌, ◌≢◌, ◌+◌, ◌≤◌, ◌∷◌, ◌++◌, [], ℕ, List, Some, None, length, map, take, slice_get, slice_set};
ghost use Rattle.vector_memory.specs.declared.bounds.Bounds.{Bounds};
ghost use Rattle.vector_memory.specs.States.{State, bounds_of, empty};
ghost use Rattle.cvl_text.specs.declared.call.Call.{Call};
ghost use Rattle.cvl_text.specs.Answers.{Answer};
ghost use Rattle.call_history.specs.declared.entry.Entry.{Entry};
ghost use Rattle.call_history.specs.declared.request.Job.{Job};
ghost use Rattle.call_history.specs.declared.request.Request.{Request};
ghost use Rattle.call_history.specs.declared.request.Outcome.{Outcome};
ghost use Rattle.call_history.specs.History.{Begins, entry, replay, replay_from, replies_from, last_reply, reply_after};
ghost use Rattle.call_history.specs.Callers.{calls_by};
ghost use Rattle.call_history.specs.Answers.{Answers};
ghost use Rattle.call_history.specs.Blocks.{Whole, block_entries};
ghost use Rattle.call_history.specs.Fits.{Fits, IsAskedAt, IsOfJob, Serves, StandsAt, calls_of, fate_of, handed_back, request, request_by, returned};

/// A history is replayed part by part, and keeps the bounds of the memory.
pub fn replays_go_on()
    ensures parts { (m : State) (first rest : List Entry)
        → replay_from m (first ++ rest) ≡ replay_from (replay_from m first) rest }
    ensures bounds { (bounds : Bounds) (history : List Entry) → bounds_of (replay bounds history) ≡ bounds }
{}

/// There is a reply to each entry, at its place, and what comes later does not change it.
pub fn replies_stay()
    ensures parts { (m : State) (first rest : List Entry)
        → replies_from m (first ++ rest) ≡ replies_from m first ++ replies_from (replay_from m first) rest }
    ensures each { (m : State) (history : List Entry)
        → length (replies_from m history) ≡ length history }
    ensures at_place { (bounds : Bounds) (before after : List Entry) (e : Entry)
        → slice_get (replies_from (empty bounds) (before ++ e ∷ after)) (length before)
        ≡ Some (reply_after bounds before e.call) }
    ensures last { (bounds : Bounds) (before : List Entry) (e : Entry)
        → last_reply bounds (before ++ e ∷ []) ≡ Some (reply_after bounds before e.call) }
{}

/// The calls of a caller in two parts of a history are those in the first and then those in the second, and an entry is one
/// of its caller alone.
pub fn callers_keep_their_calls()
    ensures parts { (k : ℕ) (first rest : List Entry)
        → calls_by k (first ++ rest) ≡ calls_by k first ++ calls_by k rest }
    ensures own { (k ticket : ℕ) (call : Call) → calls_by k (entry k ticket call ∷ []) ≡ call ∷ [] }
    ensures others { (j k ticket : ℕ) (call : Call) → k ≢ j → calls_by j (entry k ticket call ∷ []) ≡ [] }
{}

/// Beginnings of a history begin one another.
pub fn beginnings_are_nested()
    ensures same { (line : List Entry) → Begins line line }
    ensures longer { (seen middle line : List Entry) → Begins seen middle → Begins middle line → Begins seen line }
    ensures shorter { (seen other line : List Entry) → Begins seen line → Begins other line
        → length seen ≤ length other → Begins seen other }
    ensures first { (n : ℕ) (line : List Entry) → Begins (take n line) line }
{}

/// A batch without requests changes nothing. One more request of another caller fits behind a batch, where its job comes back,
/// and where its calls are answered next to one another behind the history as it then stands.
pub fn batches_grow()
    ensures nothing { (bounds : Bounds) (history : List Entry) → Fits bounds history [] history [] }
    ensures refused { (bounds : Bounds) (old mid : List Entry) (rs : List Request) (os : List Outcome) (k : ℕ) (job : Job)
        → length os ≡ length rs → request_by k rs ≡ None → Fits bounds old rs mid os
        → Fits bounds old (rs ++ request k job ∷ []) mid (os ++ handed_back job ∷ []) }
    ensures answered { (bounds : Bounds) (old mid : List Entry) (rs : List Request) (os : List Outcome) (k : ℕ) (job : Job) (o : Outcome)
        → length os ≡ length rs → request_by k rs ≡ None → IsOfJob job o
        → fate_of o ≡ StandsAt (length mid) (replies_from (replay bounds mid) (block_entries mid k (calls_of job)))
        → Whole mid → Fits bounds old rs mid os
        → Fits bounds old (rs ++ request k job ∷ []) (mid ++ block_entries mid k (calls_of job)) (os ++ o ∷ []) }
{}

/// A batch whose outcomes stand in the order of the requests from the start: where each job came back it changed nothing, and
/// a job that came back may be answered behind the history as it then stands, in whatever order.
pub fn batches_fill()
    ensures returned { (bounds : Bounds) (history : List Entry) (rs : List Request) → Fits bounds history rs history (map returned rs) }
    ensures answered { (bounds : Bounds) (old mid : List Entry) (rs : List Request) (os : List Outcome) (i k : ℕ) (job : Job) (o : Outcome)
        → IsAskedAt rs i k job → slice_get os i ≡ Some (handed_back job) → IsOfJob job o
        → fate_of o ≡ StandsAt (length mid) (replies_from (replay bounds mid) (block_entries mid k (calls_of job)))
        → Whole mid → Fits bounds old rs mid os
        → Fits bounds old rs (mid ++ block_entries mid k (calls_of job)) (slice_set os i o) }
{}

/// A caller that had seen no more than the history before is answered at its own place: by a batch that serves its calls,
/// and by calls that run behind the history, next to one another.
pub fn served_is_answered()
    ensures batch { (bounds : Bounds) (seen old new : List Entry) (own : List Call) (k : ℕ) (calls : List Call) (place : ℕ)
        (replies : List Answer) → Begins seen old → Begins old new
        → calls_by k old ≡ own → calls_by k new ≡ own ++ calls → Serves bounds old new k calls place replies
        → Answers bounds seen own k calls (take (place + length calls) new) replies }
    ensures run { (bounds : Bounds) (seen history : List Entry) (own : List Call) (k : ℕ) (calls : List Call)
        → Begins seen history → calls_by k history ≡ own → Whole history
        → Answers bounds seen own k calls (history ++ block_entries history k calls)
        (replies_from (replay bounds history) (block_entries history k calls)) }
{}
