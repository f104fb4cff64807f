// The lines of an order.
ghost use Rattle.std.specs.Prelude.{◌≡◌};
ghost use Rattle.judge_run.specs.Text.{place_line};

use judging::log::{LOG_LINE, line};
use lines::{Line, entry_line};

// The line of the operation of a number; empty for the zeros after an order.
#[tactic(auto, unfolding(crate::specs::Text::place_line, crate::specs::Text::logged_line))]
pub fn place_line(log: &[u8], number: u16) -> Line
    ensures { result.bytes ≡ place_line log.now number }
{
    if number > 0 && number as usize <= log.len() / LOG_LINE {
        let x = line(log, number);
        entry_line(number as u64, x.kind, x.entry)
    } else {
        Line::new()
    }
}
