ghost use Rattle.std.specs.Prelude.{◌≡◌, Some, None, IfOk, IfErr, is_some, nat_eq, ◌==◌};

use crate::handle::Handle;
use crate::nothing::nothing;
use core::mem::replace;
use cvl_port::Port;
use std::alloc::Global;

/// The state of a caller that is open.
pub(crate) const OPEN: u64 = 0x6376_6c20_6f70_656e;

/// What a call of C reads and writes of a caller: the words in front of its line.
#[repr(C)]
pub struct Caller {
    state: u64,
    handle: Handle,
    ghost tagged: { is_some handle.port ≡ (state == 0x6376_6c20_6f70_656e) },
}

/// A caller as C has it. Callers lie side by side in a program's array, and each call writes to its own: so each has a line of memory to
/// itself, and no thread takes the line away from another.
#[repr(C)]
pub struct CallerLine {
    pub(crate) caller: Caller,
    pub(crate) apart: [u64; 6],
}

const _: () = prove!(size_of::<CallerLine>() == 64);

impl CallerLine {
    /// The line of a caller.
    pub(crate) fn of(caller: Caller) -> CallerLine
        ensures { result.caller ≡ caller }
    {
        CallerLine {
            caller,
            apart: [0; 6],
        }
    }
}

impl Caller {
    /// Whether it is open.
    pub(crate) fn is_open(&self) -> bool
        ensures { result ≡ is_some self.now.handle.port }
    {
        self.state == OPEN
    }

    /// Its port, or the caller itself where it is shut.
    pub(crate) fn into_port(self) -> Result<Box<Port>, Caller>
        ensures open { IfOk result (λ port. self.handle.port ≡ Some port.value) }
        ensures shut { IfErr result (λ same. same ≡ self) }
        ensures none { IfErr result (λ same. self.handle.port ≡ None) }
    {
        if self.state != OPEN {
            return Err(self);
        }
        let Caller { state: _, handle } = self;
        Ok(handle.into_box())
    }

    /// The caller of a port.
    pub(crate) fn of(port: Box<Port>) -> Caller
        ensures { result.handle.port ≡ Some port.value }
    {
        Caller {
            state: OPEN,
            handle: Handle::of(port),
        }
    }

    /// The port of a caller that is closed, and the caller then.
    pub(crate) fn closed(port: Box<Port>, nothing: *mut u8, alloc: Global) -> (Caller, Port)
        ensures shut { result.0.handle.port ≡ None }
        ensures port { result.1 ≡ port.value }
    {
        let handle = Handle::nowhere(nothing, alloc);
        let caller = Caller { state: 0, handle };
        (caller, Box::into_inner(port))
    }

    /// A caller that is shut.
    fn shut(alloc: Global) -> Caller
        ensures { result.handle.port ≡ None }
    {
        Caller {
            state: 0,
            handle: Handle::nowhere(nothing(), alloc),
        }
    }

    /// Takes the caller out of its place, and leaves a shut one.
    pub(crate) fn take(&mut self, alloc: Global) -> Caller
        ensures taken { result ≡ self.old }
        ensures shut { self.new.handle.port ≡ None }
    {
        replace(self, Caller::shut(alloc))
    }

    /// Gives a caller into the place of a shut one.
    pub(crate) fn give(&mut self, caller: Caller)
        requires { self.old.handle.port ≡ None }
        ensures { self.new ≡ caller }
    {
        replace(self, caller).let_go();
    }

    /// Lets go of a caller that is shut.
    pub(crate) fn let_go(self)
        requires { self.handle.port ≡ None }
    {
        let Caller { state: _, handle } = self;
        handle.let_go();
    }
}
