//! Which calls and jobs own memory.

ghost use Rattle.std.specs.Prelude.{◌≡◌};
ghost use Rattle.call_history.specs.Owning.{is_owning, is_owning_job};

use crate::request::Job;
use cvl_text::Call;

/// Whether a call has items or names behind a pointer, which are freed with it.
#[inline(always)]
pub fn is_owning(call: &Call) -> bool
    ensures { result ≡ is_owning call.now }
{
    match call {
        Call::SetInts { .. }
        | Call::SetBools { .. }
        | Call::Sel { .. }
        | Call::IndSeg { .. }
        | Call::SmpSeg { .. }
        | Call::BckSeg { .. }
        | Call::PckSeg { .. } => true,
        _ => false,
    }
}

impl Job {
    /// Whether something is freed with the job: it is a block, or its call has items or names behind a pointer.
    #[inline(always)]
    pub fn is_owning(&self) -> bool
        ensures { result ≡ is_owning_job self.now }
    {
        match self {
            Job::One(call) => is_owning(call),
            Job::Many(_) => true,
        }
    }
}
