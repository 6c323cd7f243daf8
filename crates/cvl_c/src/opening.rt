ghost use Rattle.std.specs.Prelude.{◌≡◌, ◌≤◌, ◌<◌, length, map, true, false, IfSome, IfErr, OnOk, OnErr, All};
ghost use Rattle.combiner.specs.Making.{IsMadeImpossible};
ghost use Rattle.cvl_c.specs.Callers.{AreOpen, IsLineShut, port_boxed, port_on};
ghost use Rattle.cvl_c.specs.Opening.{AreOpened, IsOpening};

use crate::caller::{Caller, CallerLine};
use crate::statuses::{BAD_CALLERS, BAD_ROOM, NO_MEMORY, NOT_SHUT, OK};
use combiner::MakeFault;
use core::mem::replace_with;
use cvl_port::{Port, open};
use std::alloc::Global;

/// Each port in a block of its own.
fn boxed(alloc: Global, ports: Vec<Port>) -> Option<Vec<Box<Port>>>
    ensures { IfSome result (λ boxes. map port_boxed boxes.items ≡ ports.items) }
{
    let mut boxes = Vec::new(alloc);
    for port in ports {
        boxes.push(Box::new(alloc, port).ok()?).ok()?;
    }
    Some(boxes)
}

/// Whether no caller of these is open.
fn are_shut(callers: &[CallerLine]) -> bool
    ensures shut { result ≡ true → All IsLineShut callers.now }
    ensures open { result ≡ false → All IsLineShut callers.now → ⊥ }
{
    for line in callers {
        if line.caller.is_open() {
            return false;
        }
    }
    true
}

fn fill(line: CallerLine, port: Box<Port>) -> (CallerLine, ())
    requires { IsLineShut line }
    ensures { port_on result.0 ≡ Some port.value }
{
    let CallerLine { caller, apart: _ } = line;
    caller.let_go();
    (CallerLine::of(Caller::of(port)), ())
}

/// Opens as many callers with these ports, the last one first.
fn fill_all(callers: &mut [CallerLine], mut ports: Vec<Box<Port>>)
    requires long { length ports.items ≡ length callers.old }
    requires shut { All IsLineShut callers.old }
    ensures { AreOpen callers.new (map port_boxed ports.items) }
{
    while let Some(port) = ports.pop() {
        let place = ports.len();
        replace_with(&mut callers[place], port, fill);
    }
}

/// Opens these callers, which are shut, on a machine of their own.
fn open_all(alloc: Global, room: u64, callers: &mut [CallerLine]) -> Result<(), MakeFault>
    requires { All IsLineShut callers.old }
    ensures opened { OnOk result (AreOpened room callers.new) }
    ensures fault { IfErr result (IsMadeImpossible (length callers.old) room) }
    ensures same { OnErr result (callers.new ≡ callers.old) }
{
    let ports = open(alloc, callers.len() as u64, room)?;
    let Some(boxes) = boxed(alloc, ports) else {
        return Err(MakeFault::OutOfMemory);
    };
    fill_all(callers, boxes);
    Ok(())
}

/// Makes a machine with room for so many items, and opens these callers on it, all that it will have.
#[unsafe(no_mangle)]
pub extern "C" fn cvl_open(alloc: Global, room: u64, callers: &mut [CallerLine]) -> i32
    ensures { IsOpening result room callers.old callers.new }
{
    if !are_shut(callers) {
        return NOT_SHUT;
    }
    match open_all(alloc, room, callers) {
        Ok(()) => OK,
        Err(MakeFault::BadCallers) => BAD_CALLERS,
        Err(MakeFault::BadRoom) => BAD_ROOM,
        Err(MakeFault::OutOfMemory) => NO_MEMORY,
    }
}
