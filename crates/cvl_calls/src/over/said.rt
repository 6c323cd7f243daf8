//! What the step of a call that makes a value answers: its reply, or no more than the fault by which it is refused.

ghost use Rattle.std.specs.Prelude.{◌≡◌};
ghost use Rattle.cvl_text.specs.Answers.{Answer, Done, FaultOf, answer_of};
ghost use Rattle.cvl_calls.specs.Steps.{answer_to_store};

use cvl_text::{Fault, Reply};

/// What is said of a call that makes a value.
pub(crate) trait Said: Drop {
    /// The reply that it stands for.
    ghost answer: { Self → Answer };

    /// The value is stored.
    fn done() -> Self
        ensures { answer result ≡ Done };

    /// The call or its store is refused.
    fn refused(fault: Fault) -> Self
        ensures { answer result ≡ FaultOf fault };
}

impl Said for Reply {
    ghost answer = { answer_of };

    #[inline(always)]
    fn done() -> Reply {
        Reply::Done
    }

    #[inline(always)]
    fn refused(fault: Fault) -> Reply {
        Reply::Fault(fault)
    }
}

/// The fault, if there is one.
impl Said for Option<Fault> {
    ghost answer = { answer_to_store };

    #[inline(always)]
    fn done() -> Option<Fault> {
        None
    }

    #[inline(always)]
    fn refused(fault: Fault) -> Option<Fault> {
        Some(fault)
    }
}
