ghost use Rattle.std.specs.Prelude.{◌≡◌, All, IfOk, IfErr, OnOk, OnErr, map};
ghost use Rattle.std.specs.Arc.{arc_value};
ghost use Rattle.vector_memory.specs.States.{IsLawfulRoom};
ghost use Rattle.combiner.specs.Making.{IsLawfulCount, IsMadeImpossible};
ghost use Rattle.cvl_port.specs.Ports.{AreNewPorts, IsFresh, caller_of};

use crate::port::Port;
use combiner::{Caller, MakeFault, Shared};
use std::alloc::Global;
use std::sync::Arc;
use vector_memory::OutOfMemory;

/// A port for each of these callers of a machine.
fn port_all(
    alloc: Global,
    machine: Arc<Shared, Global>,
    callers: Vec<Caller>,
) -> Result<Vec<Port>, OutOfMemory>
    requires { All (λ c. c.machine ≡ arc_value machine) callers.items }
    ensures callers { IfOk result (λ ports. map caller_of ports.items ≡ callers.items) }
    ensures fresh { IfOk result (λ ports. All IsFresh ports.items) }
{
    let mut ports = Vec::new(alloc);
    for caller in callers {
        let Ok(theirs) = Arc::try_clone(&machine) else {
            return Err(OutOfMemory);
        };
        let Ok(()) = ports.push(Port::fresh(alloc, theirs, caller)) else {
            return Err(OutOfMemory);
        };
    }
    Ok(ports)
}

/// A machine of edition 1 whose memory has room for up to `room` items together: a port for each caller, in the order of their numbers. The
/// history is empty.
pub fn open(alloc: Global, callers: u64, room: u64) -> Result<Vec<Port>, MakeFault>
    ensures lawful { OnOk result (IsLawfulCount callers × IsLawfulRoom room) }
    ensures fault { IfErr result (IsMadeImpossible callers room) }
    ensures callers { IfOk result (λ ports. AreNewPorts callers room ports.items) }
    ensures fresh { IfOk result (λ ports. All IsFresh ports.items) }
{
    let (machine, callers) = Shared::new(alloc, callers, room)?;
    let Ok(machine) = Arc::new(alloc, machine) else {
        return Err(MakeFault::OutOfMemory);
    };
    let Ok(ports) = port_all(alloc, machine, callers) else {
        return Err(MakeFault::OutOfMemory);
    };
    Ok(ports)
}
