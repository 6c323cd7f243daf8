use cvl_text::ReadFault;
use thiserror::Error;

/// Why nothing was left. The port is as it was.
#[derive(Clone, Copy, Debug, Error, PartialEq, Eq)]
pub enum PostFault {
    /// A line that is no call.
    #[error("not a call")]
    BadCall,
    /// Bytes that are no name of a vector.
    #[error("not a name")]
    BadName,
    /// A block has 1 to 1,024 calls.
    #[error("not 1 to 1,024 calls")]
    BadCount,
    /// No call of this number is prepared.
    #[error("no call of this number is prepared")]
    NotPrepared,
    /// A call or a block is left already.
    #[error("a call is left already")]
    Occupied,
    #[error("out of memory")]
    OutOfMemory,
}

impl From<ReadFault> for PostFault {
    ghost use Rattle.std.specs.Prelude.{◌≡◌};
    ghost use Rattle.cvl_port.specs.Posts.{post_fault_of};

    ghost from_gives = { λ fault post. post ≡ post_fault_of fault };

    fn from(fault: ReadFault) -> PostFault {
        match fault {
            ReadFault::BadCall => PostFault::BadCall,
            ReadFault::OutOfMemory => PostFault::OutOfMemory,
        }
    }
}
