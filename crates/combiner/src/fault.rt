use thiserror::Error;

/// Why a machine was not made.
#[derive(Debug, Drop, Error, PartialEq, Eq)]
pub enum MakeFault {
    /// A machine has 1 to 64 callers.
    #[error("not 1 to 64 callers")]
    BadCallers,
    /// The number of callers is lawful, and the room is not.
    #[error("no lawful room")]
    BadRoom,
    #[error("out of memory")]
    OutOfMemory,
}
