use thiserror::Error;

/// Why a call was not done. A call that faults changes nothing.
#[derive(Clone, Copy, Debug, PartialEq, Eq)]
pub enum Fault {
    /// A name stands for nothing.
    NoVector,
    /// A name stands for a value of another type.
    WrongType,
    /// Lengths differ, or a length is below 0.
    WrongLength,
    /// Segments do not fit what they cut.
    BadSegments,
    /// A place outside a value, or one that is named twice or not at all.
    BadIndex,
    ZeroDivisor,
    /// A shift by a count outside 0 to 63.
    BadShift,
    /// A value of more items than the memory's edition lets one have (`Edition::limit`).
    TooLong,
    /// The memory has no room for the value.
    NoRoom,
    /// The memory has no place for another name.
    TooManyNames,
}

/// Why a call was not read.
#[derive(Debug, Drop, Error, PartialEq, Eq)]
pub enum ReadFault {
    #[error("not a call")]
    BadCall,
    #[error("out of memory")]
    OutOfMemory,
}
