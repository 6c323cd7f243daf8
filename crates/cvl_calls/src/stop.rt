ghost use Rattle.std.specs.Prelude.{◌≡◌};
ghost use Rattle.cvl_calls.specs.declared.stop.Stop.TheVariants as stops;

use cvl_text::Fault;
use std::alloc::AllocError;

/// A fault, or a want of memory.
#[derive(Clone, Copy, Debug, PartialEq, Eq)]
pub enum Stop {
    Fault(Fault),
    OutOfMemory,
}

impl From<Fault> for Stop {
    ghost from_gives = { λ f e. e ≡ stops.Fault f };

    fn from(fault: Fault) -> Stop {
        Stop::Fault(fault)
    }
}

impl From<AllocError> for Stop {
    ghost from_gives = { λ _ e. e ≡ stops.OutOfMemory };

    fn from(_error: AllocError) -> Stop {
        Stop::OutOfMemory
    }
}

impl From<segment_desc::OutOfMemory> for Stop {
    ghost from_gives = { λ _ e. e ≡ stops.OutOfMemory };

    fn from(_error: segment_desc::OutOfMemory) -> Stop {
        Stop::OutOfMemory
    }
}
