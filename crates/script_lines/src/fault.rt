ghost use Rattle.std.specs.Prelude.{◌≡◌};
ghost use Rattle.script_lines.specs.Walks.{run_fault};

use thiserror::Error;

/// Why a script was not run to its end.
#[derive(Debug, Drop, Error, PartialEq, Eq)]
pub enum RunFault {
    /// The line of this number, counted from 1 over all lines, is not in the grammar.
    #[error("bad line {0}")]
    BadLine(u64),
    #[error("out of memory")]
    OutOfMemory,
    #[error("a read failed")]
    Read,
    #[error("a write failed")]
    Write,
    /// The gate stopped the worker of this number, the lowest if it stopped several.
    #[error("worker {0} was stopped")]
    Stopped(u64),
    /// The machine that the workers shared was not closed with the calls of all of them.
    #[error("the machine was not closed")]
    Unfinished,
}

/// Why an input was not gone through to its end.
#[derive(Clone, Copy)]
pub enum InputFault {
    /// The line of this number, counted from 1 over all lines, is not in the grammar.
    BadLine(u64),
    OutOfMemory,
    Read,
}

/// Why not all lines of an input were served.
#[derive(Clone, Copy)]
pub enum ServeFault {
    /// The input was not gone through to its end.
    Input(InputFault),
    Write,
}

impl From<InputFault> for RunFault {
    ghost from_gives = { λ halt fault. fault ≡ run_fault halt };

    fn from(halt: InputFault) -> RunFault {
        match halt {
            InputFault::BadLine(number) => RunFault::BadLine(number),
            InputFault::OutOfMemory => RunFault::OutOfMemory,
            InputFault::Read => RunFault::Read,
        }
    }
}
