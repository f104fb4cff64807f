// The two passes along the sorted lines, in one.
ghost use Rattle.std.specs.Prelude.{◌≡◌, ◌&&◌};
ghost use Rattle.protocol.specs.Entries.{empty};
ghost use Rattle.judging.specs.Decision.{follows, last_write, on_time, last_begin, answers, timely};
ghost use Rattle.judging.specs.Logs.{lines_of, line_at};
ghost use Rattle.judging.specs.Sorting.{Numbers};

use super::Logged;
use super::log::line;
use protocol::{Entry, Operation};
use values::entries::same;

// "a read returns the entry of the last write before it"
#[tactic(auto, unfolding(crate::specs::Decision::follows))]
fn follows(last: Entry, x: Logged) -> bool
    ensures { result ≡ follows last x }
{
    x.is_on(Operation::Write) || same(x.entry, last)
}

#[tactic(auto, unfolding(crate::specs::Decision::last_write))]
fn last_write(last: Entry, x: Logged) -> Entry
    ensures { result ≡ last_write last x }
{
    if x.is_on(Operation::Write) {
        x.entry
    } else {
        last
    }
}

// "an operation that ended before another began comes first"
#[tactic(auto, unfolding(crate::specs::Decision::on_time))]
fn on_time(latest: u16, x: Logged) -> bool
    ensures { result ≡ on_time latest x }
{
    x.end == 0 || latest <= x.end
}

#[tactic(auto, unfolding(crate::specs::Decision::last_begin))]
fn last_begin(latest: u16, x: Logged) -> u16
    ensures { result ≡ last_begin latest x }
{
    latest.max(x.begin)
}

// Each read of the lines of a list has the entry of the last write before it, or the empty entry, and none of them ended before
// one in front of it began.
pub fn in_order(log: &[u8], order: &[u16]) -> bool
    requires { Numbers (lines_of log.now) order.now }
    ensures { result ≡ (answers (line_at log.now) empty order.now && timely (line_at log.now) 0 order.now) }
{
    let mut last = Entry::default();
    let mut latest = 0;
    for &i in order {
        let x = line(log, i);
        // The way out of the loop; the pass goes on with what it found.
        if !follows(last, x) || !on_time(latest, x) {
            return false;
        }
        last = last_write(last, x);
        latest = last_begin(latest, x);
    }
    true
}
