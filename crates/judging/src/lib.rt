// Logs of other archive software: whether the operations of a log have an order, and which.
#![tactic(auto)]

ghost use Rattle.std.specs.Prelude.{◌≡◌, eqb};
ghost use Rattle.protocol.specs.Kinds.{operation_code};

pub mod formed;
pub mod judge;
pub mod log;
pub mod passes;
pub mod sort;

use protocol::{Entry, Operation};

// A line of a log: an operation's begin number, end number (0, unfinished), kind and entry.
#[derive(Clone, Copy, Debug, PartialEq, Eq)]
pub struct Logged {
    pub begin: u16,
    pub end: u16,
    // A number: the line's byte may be any.
    pub kind: u8,
    pub entry: Entry,
}

impl Logged {
    // Whether its operation is that one; as of a message.
    pub fn is_on(self, operation: Operation) -> bool
        ensures { result ≡ eqb self.kind (operation_code operation) }
    {
        self.kind == u8::from(operation)
    }
}
