//! What a C program holds of a caller: the address of a port, or none.

ghost use Rattle.std.specs.Prelude.{◌≡◌, Some, None, Option, IsSome};
ghost use Rattle.cvl_port.specs.declared.port.Port.{Port as PortValue};
ghost use Rattle.cvl_c.specs.Handles.{handle_owns, maybe_port_coded};

use crate::open_box::OpenBox;
use cvl_port::Port;
use std::alloc::Global;
use std::marker::Model;

/// It owns the port that it leads to, if it leads to one.
#[repr(C)]
pub struct Handle {
    ptr: *mut u8,
    alloc: Global,
    pub ghost port: { Option PortValue } by { maybe_port_coded },
}

impl Model for Handle {
    ghost also_owns = { λ h. handle_owns h.alloc h.ptr h.port };
}

impl Handle {
    /// The handle of a port.
    pub(crate) fn of(port: Box<Port>) -> Handle
        ensures { result.port ≡ Some port.value }
    {
        Handle::of_open(OpenBox::of(port))
    }

    /// The port again.
    pub(crate) fn into_box(self) -> Box<Port>
        requires { IsSome self.port }
        ensures { self.port ≡ Some result.value }
    {
        self.into_open().shut()
    }

    fn of_open(opened: OpenBox<Port, Global>) -> Handle
        ensures { result.port ≡ Some opened.value }
    {
        let OpenBox { ptr, alloc } = opened;
        let ptr = ptr.cast::<u8>();
        Handle { ptr, alloc }
    }

    fn into_open(self) -> OpenBox<Port, Global>
        requires { IsSome self.port }
        ensures { self.port ≡ Some result.value }
    {
        let Handle { ptr, alloc } = self;
        let ptr = ptr.cast::<Port>();
        OpenBox { ptr, alloc }
    }

    /// A handle that leads to no port, whatever the pointer is.
    pub(crate) fn nowhere(ptr: *mut u8, alloc: Global) -> Handle
        ensures { result.port ≡ None }
    {
        Handle { ptr, alloc }
    }

    /// Lets go of a handle that leads to no port.
    pub(crate) fn let_go(self)
        requires { self.port ≡ None }
    {
        let Handle { ptr: _, alloc: _ } = self;
    }
}

// The port goes with it, and a port may go to another thread.
unsafe impl Send for Handle {}
