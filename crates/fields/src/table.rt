// The table of fields: a row of flags for each kind of step, and the range of each field.
ghost use Rattle.std.specs.Prelude.{◌≡◌, ◌<◌};
ghost use Rattle.protocol.specs.Steps.{row_of, in_row, who_named, who_used, who_range};

use protocol::Range;
use protocol::limits::{CLIENTS, MESSAGES, SERVERS, VIEWS};

// A flag for each field that a step may use; who is a client, a server or a read size. Flags are bits: a row is their sum.
pub const CLIENT: u8 = 1;

pub const SERVER: u8 = 2;

pub const VIEW: u8 = 4;

pub const F: u8 = 8;

pub const MESSAGE: u8 = 16;

pub const SOURCE: u8 = 32;

pub const VALUE: u8 = 64;

pub const SIZE: u8 = 128;

// The fields of each kind: write, read, deliver, take, fault, false answer, new view, giving up, a restart.
const FIELDS: [u8; 10] = [
    0,
    CLIENT + VALUE,
    CLIENT,
    SERVER + MESSAGE,
    MESSAGE,
    SERVER,
    SERVER + VIEW + MESSAGE + SOURCE,
    SIZE + F + VALUE,
    CLIENT,
    SIZE + F + VALUE,
];

// "Clients are 1 to 16, servers 1 to 32, views 1 to 32, messages 1 to 1,023." "Any f and value are in range; source is 0 to 1,023."
pub const CLIENT_RANGE: Range = Range {
    low: 1,
    high: CLIENTS as u32,
};

pub const SERVER_RANGE: Range = Range {
    low: 1,
    high: SERVERS as u32,
};

pub const VIEW_RANGE: Range = Range {
    low: 1,
    high: VIEWS as u32,
};

pub const THRESHOLD_RANGE: Range = Range { low: 0, high: 255 };

// Any read size: 8 judges it.
pub const READ_RANGE: Range = Range { low: 0, high: 255 };

pub const MESSAGE_RANGE: Range = Range {
    low: 1,
    high: MESSAGES as u32,
};

pub const SOURCE_RANGE: Range = Range {
    low: 0,
    high: MESSAGES as u32,
};

pub const VALUE_RANGE: Range = Range {
    low: 0,
    high: u32::MAX,
};

// A row of the table.
#[derive(Clone, Copy, Debug, PartialEq, Eq)]
pub struct Row(pub u8);

impl Row {
    // The row of a kind, without a field where there is no such kind.
    // The number may be any, as in the bytes of a step.
    #[tactic(auto, using(std::proofs::lemmas::Option::gets), unfolding(protocol::specs::Steps::row_of))]
    pub fn of(kind: u8) -> Row
        ensures { result.0 ≡ row_of kind }
    {
        Row(FIELDS.get(kind as usize).copied().unwrap_or(0))
    }

    // Whether it has a field.
    pub fn uses(self, flag: u8) -> bool
        requires { 0 < flag }
        ensures { result ≡ in_row self.0 flag }
    {
        self.0 / flag % 2 == 1
    }

    // who is the number of a client or of a server.
    pub fn who_named(self) -> bool
        ensures { result ≡ who_named self.0 }
    {
        self.uses(CLIENT) || self.uses(SERVER)
    }

    // It is that, a read size or unused.
    pub fn who_used(self) -> bool
        ensures { result ≡ who_used self.0 }
    {
        self.who_named() || self.uses(SIZE)
    }

    pub fn who_range(self) -> Range
        ensures { result ≡ who_range self.0 }
    {
        if self.uses(CLIENT) {
            CLIENT_RANGE
        } else if self.uses(SERVER) {
            SERVER_RANGE
        } else {
            READ_RANGE
        }
    }
}
