// "14, malformed": a function for each clause.
// A line is named by its number in the lent bytes, as in the definitions and in an order: over a slice of arrays each clause
// would have to glue them together again.
ghost use Rattle.std.specs.Prelude.{◌≡◌, ◌&&◌, ◌≤◌};
ghost use Rattle.judging.specs.Logs.{lines_of, line_bytes, most_lines};
ghost use Rattle.judging.specs.Logs.{in_values, ends_later, counted, numbers_apart, stamps_apart, line_fits, apart_before, lines_fit, well_logged};

use super::Logged;
use super::log::{ENTRY_AT, LOG_LINE, LOG_LINES, SPARE, SPARE_AT, line, line_bytes, read_logged};
use codec::bytes::{are_zero, array_at};
use codec::records::entry_plain;
use protocol::Operation;
use values::entries::entry_fits;

// "a field outside its values"
#[tactic(auto, unfolding(crate::specs::Logs::in_values))]
fn in_values(x: Logged) -> bool
    ensures { result ≡ in_values x }
{
    x.begin > 0 && Operation::try_from(x.kind).is_ok() && entry_fits(x.entry)
}

// "an end other than 0 not after its begin"
#[tactic(auto, unfolding(crate::specs::Logs::ends_later))]
fn ends_later(x: Logged) -> bool
    ensures { result ≡ ends_later x }
{
    x.end == 0 || x.begin < x.end
}

// "a write of count 0"
#[tactic(auto, unfolding(crate::specs::Logs::counted))]
fn counted(x: Logged) -> bool
    ensures { result ≡ counted x }
{
    !x.is_on(Operation::Write) || x.entry.stamp.count.0 > 0
}

// "a begin or end number other than 0 used twice", by two lines
#[tactic(auto, unfolding(crate::specs::Logs::numbers_apart))]
fn numbers_apart(x: Logged, y: Logged) -> bool
    ensures { result ≡ numbers_apart x y }
{
    x.begin != y.begin && x.begin != y.end && x.end != y.begin && (x.end == 0 || x.end != y.end)
}

// "two writes with one stamp"
#[tactic(auto, unfolding(crate::specs::Logs::stamps_apart))]
fn stamps_apart(x: Logged, y: Logged) -> bool
    ensures { result ≡ stamps_apart x y }
{
    !x.is_on(Operation::Write) || !y.is_on(Operation::Write) || x.entry.stamp != y.entry.stamp
}

// The clauses that ask of one line.
#[tactic(auto, unfolding(crate::specs::Logs::line_fits, crate::specs::Logs::plain))]
fn line_fits(b: &[u8; LOG_LINE]) -> bool
    ensures { result ≡ line_fits b.now }
{
    let x = read_logged(b);
    are_zero(b, SPARE_AT, SPARE)
        && entry_plain(array_at(b, ENTRY_AT))
        && in_values(x)
        && ends_later(x)
        && counted(x)
}

// The clauses that ask of two lines: line i beside each line before it.
#[tactic(auto, unfolding(crate::specs::Logs::apart_before))]
fn apart_before(log: &[u8], i: u16) -> bool
    requires { (1 ≤ i) × (i ≤ lines_of log.now) }
    ensures { result ≡ apart_before log.now i }
{
    let y = line(log, i);
    (1..i).all(|j| {
        let x = line(log, j);
        numbers_apart(x, y) && stamps_apart(x, y)
    })
}

// Each line's clauses. The number of lines is handed in, since that it is not over 256 was tested on it.
#[tactic(auto, unfolding(crate::specs::Logs::lines_fit))]
fn lines_fit(log: &[u8], n: u16) -> bool
    requires { (n ≡ lines_of log.now) × (n ≤ most_lines) }
    ensures { result ≡ lines_fit log.now }
{
    // Faster than 1..=n, which asks in each turn whether it was the last.
    (1..n + 1).all(|i| line_fits(line_bytes(log, i)) && apart_before(log, i))
}

// "over 256 lines", and each line's clauses.
#[tactic(auto, unfolding(crate::specs::Logs::well_logged))]
pub fn well_logged(log: &[u8]) -> bool
    ensures { result ≡ well_logged log.now }
{
    let n = log.len() / LOG_LINE;
    n <= LOG_LINES && lines_fit(log, n as u16)
}
