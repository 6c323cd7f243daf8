//! What a shared machine is timed under: a load, which names its rows.

ghost use Rattle.std.specs.Prelude.{◌<◌};

use std::alloc::{AllocError, Global};
use std::fmt;

/// How many calls each thread makes, or a few less where they go in blocks.
const CALLS: u32 = 100_000;

/// And where vectors are long.
const CALLS_LONG: u32 = 25_000;

/// How a thread has a call answered.
#[derive(Clone, Copy)]
pub enum Way {
    /// By `call`.
    Call,
    /// By `post`, `combine` and `poll`, each once.
    Steps,
    /// So many of them in a block, by `call_block`.
    Block(u32),
}

/// How many callers a machine has, how many of them call, each in a thread of its own, how long their vectors are, and how
/// each call is answered. The other callers never call.
#[derive(Clone, Copy)]
pub struct Load {
    pub callers: u32,
    pub threads: u32,
    pub items: u32,
    pub way: Way,
}

impl Load {
    /// So many threads, which are all the callers, on vectors of so many items.
    pub fn of(threads: u32, items: u32) -> Load {
        Load {
            callers: threads,
            threads,
            items,
            way: Way::Call,
        }
    }

    /// The same, among so many callers.
    pub fn among(self, callers: u32) -> Load {
        Load { callers, ..self }
    }

    /// The same, each call by its steps.
    pub fn by_steps(self) -> Load {
        Load {
            way: Way::Steps,
            ..self
        }
    }

    /// The same, in blocks of so many calls.
    pub fn in_blocks(self, size: u32) -> Load {
        Load {
            way: Way::Block(size),
            ..self
        }
    }

    /// How many calls are answered together.
    pub fn size(self) -> u32
        ensures { 0 < result }
    {
        match self.way {
            Way::Block(size) if size > 0 => size,
            Way::Block(_) | Way::Call | Way::Steps => 1,
        }
    }

    /// Whether its name begins with these words.
    pub fn is_named(self, alloc: Global, words: &str) -> Result<bool, AllocError> {
        Ok(self.to_string(alloc)?.starts_with(words))
    }

    /// How often each thread calls.
    pub fn turns(self) -> u32 {
        let calls = if self.items > 1000 { CALLS_LONG } else { CALLS };
        calls / self.size()
    }
}

/// `T=threads len=items`; `callers=N` stands before it where more callers than these share the machine, and `post-combine-poll`
/// where calls are answered by their steps, or `block=N` where N of them are answered together.
impl fmt::Display for Load {
    fn fmt<W: fmt::Write>(&self, f: &mut fmt::Formatter<W>) -> fmt::Result {
        let Load {
            callers,
            threads,
            items,
            way,
        } = *self;
        if callers != threads {
            write!(f, "callers={callers} ")?;
        }
        match way {
            Way::Call => {}
            Way::Steps => write!(f, "post-combine-poll ")?,
            Way::Block(size) => write!(f, "block={size} ")?,
        }
        write!(f, "T={threads} len={items}")
    }
}
