ghost use Rattle.std.specs.Prelude.{◌≡◌};
ghost use Rattle.std.specs.Arc.{arc_value};

use crate::last::Last;
use combiner::{Caller, Shared};
use cvl_text::Call;
use std::alloc::Global;
use std::sync::Arc;

/// A caller, the machine that it calls, the calls that it prepared, and the replies that it took last.
#[derive(Drop)]
pub struct Port {
    pub machine: Arc<Shared, Global>,
    pub caller: Caller,
    /// The calls that were prepared, by number.
    pub prepared: Vec<Call>,
    /// The place in the history of the entry whose reply is the first of the last.
    pub place: u64,
    pub last: Last,
    /// A line of memory behind what each call writes: ports of one machine lie one behind another, and belong to threads of their own.
    pub(crate) apart: [u64; 8],
    ghost placed: { caller.machine ≡ arc_value machine },
}

impl Port {
    ghost use Rattle.cvl_port.specs.Ports.{IsFresh};

    /// A port that has asked nothing.
    pub(crate) fn fresh(alloc: Global, machine: Arc<Shared, Global>, caller: Caller) -> Port
        requires { caller.machine ≡ arc_value machine }
        ensures caller { result.caller ≡ caller }
        ensures fresh { IsFresh result }
    {
        Port {
            machine,
            caller,
            prepared: Vec::new(alloc),
            place: 0,
            last: Last::Nothing,
            apart: [0; 8],
        }
    }
}
