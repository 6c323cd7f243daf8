ghost use Rattle.std.specs.Prelude.{◌<◌};
ghost use Rattle.combiner.specs.Standing.{callers_of};
ghost use Rattle.combiner.specs.Says.{FindsAnother};
ghost use Rattle.cvl_port.specs.Closings.{IfClosed, IsBookOf, OnUnfinished};

use crate::port::Port;
use call_history::Book;
use std::sync::Arc;

/// What closing a port came to.
#[derive(Drop)]
pub enum Closing {
    /// Other ports of the machine are open.
    OthersOpen,
    /// It was the last one, and a caller has the book that will not give it back. The machine is gone, and its history with it.
    Unfinished,
    /// It was the last one: the history, and the memory that it leads to.
    Closed(Book),
}

impl Port {
    /// Gives the port up. With the last one the machine goes, and the book is left.
    pub fn close(self) -> Closing
        ensures closed { IfClosed result (IsBookOf self.caller) }
        ensures found { OnUnfinished result (FindsAnother self.caller) }
        ensures not_alone { OnUnfinished result (1 < callers_of self.caller.machine) }
    {
        let Port {
            machine,
            caller,
            prepared: _,
            place: _,
            last: _,
            apart: _,
        } = self;
        let Some(machine) = Arc::into_inner(machine) else {
            return Closing::OthersOpen;
        };
        match machine.close(caller) {
            Ok(book) => Closing::Closed(book),
            Err(_) => Closing::Unfinished,
        }
    }
}
