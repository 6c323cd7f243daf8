//! Which word and which slot is whose, and what the words say.

ghost use Rattle.std.specs.Prelude.{◌≡◌, ◌<◌, ◌^◌};
ghost use Rattle.request_slots.specs.Stages.{own_word, own_slot};

/// How far apart the words lie that are used: 64 bytes, so that no two of them are in one line of a processor's cache, and a
/// caller that writes its own word takes none from another. The words between are never touched.
const LINE: usize = 8;
/// The word of the lock: `FREE`, or 1 more than the number of the caller that has the desk.
pub(crate) const LOCK: usize = 0;
/// The lock while nobody has the desk.
pub(crate) const FREE: u64 = 0;
/// The word of the length of the history.
pub(crate) const LENGTH: usize = LINE;
/// The slot of the desk.
pub(crate) const DESK: usize = 0;

/// What the word of a caller says: it is not made yet,
pub(crate) const UNMADE: u64 = 0;
/// nothing was asked,
pub(crate) const IDLE: u64 = 1;
/// a job lies in its slot,
pub(crate) const POSTED: u64 = 2;
/// a pass took it,
pub(crate) const TAKEN: u64 = 3;
/// or what became of it lies there.
pub(crate) const DONE: u64 = 4;

/// The word of a caller.
pub(crate) fn word_at(caller: usize) -> usize
    requires { caller < 2 ^ 32 }
    ensures { result ≡ own_word caller }
{
    LINE * caller + 2 * LINE
}

/// The slot of a caller: what it asks, and then what it is told.
pub(crate) fn slot_at(caller: usize) -> usize
    requires { caller < 2 ^ 32 }
    ensures { result ≡ own_slot caller }
{
    caller + 1
}
