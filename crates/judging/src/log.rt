// The lines of a log as lent bytes.
// A line is named by its number in the lent bytes, as in the definitions and in an order: over a slice of arrays each clause
// would have to glue them together again.
ghost use Rattle.std.specs.Prelude.{◌≡◌, ◌≤◌};
ghost use Rattle.judging.specs.Logs.{lines_of, logged_of, line_bytes, line_at};

use super::Logged;
use codec::bytes::{array_at, get16};
use codec::layout::{ENTRY, U8, U16};
use codec::records::read_entry;

// "begin number (u16 ...), end number (u16 ...), kind (1 write, 2 read), entry": 3 zero bytes stand before the entry.
const BEGIN_AT: usize = 0;

const END_AT: usize = BEGIN_AT + U16;

const KIND_AT: usize = END_AT + U16;

pub const SPARE_AT: usize = KIND_AT + U8;

pub const SPARE: usize = 3;

pub const ENTRY_AT: usize = SPARE_AT + SPARE;

pub const LOG_LINE: usize = ENTRY_AT + ENTRY;

// "A log has at most 256 operations"
pub const LOG_LINES: usize = 256;

#[tactic(auto, unfolding(crate::specs::Logs::logged_of))]
pub fn read_logged(b: &[u8; LOG_LINE]) -> Logged
    ensures { result ≡ logged_of b.now }
{
    Logged {
        begin: get16(b, BEGIN_AT),
        end: get16(b, END_AT),
        kind: b[KIND_AT],
        entry: read_entry(array_at(b, ENTRY_AT)),
    }
}

// The bytes of line i of a log, the first being line 1.
#[tactic(auto, unfolding(crate::specs::Logs::line_bytes))]
pub fn line_bytes(log: &[u8], i: u16) -> &[u8; LOG_LINE]
    requires { (1 ≤ i) × (i ≤ lines_of log.now) }
    ensures { result.now ≡ line_bytes log.now i }
{
    array_at(log, LOG_LINE * (i as usize - 1))
}

#[tactic(auto, unfolding(crate::specs::Logs::line_at, crate::specs::Logs::line_bytes))]
pub fn line(log: &[u8], i: u16) -> Logged
    requires { (1 ≤ i) × (i ≤ lines_of log.now) }
    ensures { result ≡ line_at log.now i }
{
    read_logged(line_bytes(log, i))
}
