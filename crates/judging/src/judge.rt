// The judgement of a log, with its order in a lent buffer. The buffer is as long as the log has lines, so it stays a slice.
ghost use Rattle.std.specs.Prelude.{◌≡◌, ◌*◌, ◌≤◌, length};
ghost use Rattle.protocol.specs.Refusals.{outcome};
ghost use Rattle.judging.specs.Logs.{lines_of, most_lines};
ghost use Rattle.judging.specs.Verdict.{place_width, decided, judged, order_bytes, Judges, Promise};

use super::formed::well_logged;
use super::log::{LOG_LINE, LOG_LINES};
use super::passes::in_order;
use super::sort::sort;
use codec::bytes::put16;
use protocol::Refusal;

// An order is 2 bytes a log line.
pub const PLACE: usize = 2;

// The numbers of lines, u16, and zeros after them.
fn list(order: &mut [u8], lines: &[u16])
    requires { place_width * length lines.now ≤ length order.old }
    ensures { order.new ≡ order_bytes lines.now (length order.old) }
{
    order.fill(0);
    for (q, &line) in lines.iter().enumerate() {
        put16(order, PLACE * q, line);
    }
}

// A well-formed log and an order buffer of the right length. The list and the log's lines are handed on as `sort` has them.
#[tactic(auto, using(crate::proofs::Sorting::sorted_numbers), unfolding(crate::specs::Verdict::decided, crate::specs::Decision::passes, protocol::specs::Tools::guard))]
fn decide(log: &[u8], order: &mut [u8]) -> Result<u16, Refusal>
    requires { (lines_of log.now ≤ most_lines) × (length order.old ≡ place_width * lines_of log.now) }
    ensures { Judges result order.old order.new (decided log.now) }
{
    let mut lines = [0u16; LOG_LINES];
    let k = sort(log, &mut lines);
    if !in_order(log, &lines[..k]) {
        return Err(Refusal::NoOrder);
    }
    list(order, &lines[..k]);
    Ok(k as u16)
}

// For every log and every buffer; what it means is proved of the whole answer, by `judge`.
#[tactic(auto, unfolding(crate::specs::Verdict::judged, crate::specs::Logs::well_logged, protocol::specs::Tools::guard))]
fn answer(log: &[u8], order: &mut [u8]) -> Result<u16, Refusal>
    ensures { Judges result order.old order.new (judged log.now (length order.old)) }
{
    if log.len() % LOG_LINE != 0 || order.len() != PLACE * (log.len() / LOG_LINE) {
        return Err(Refusal::WrongLength);
    }
    if !well_logged(log) {
        return Err(Refusal::Malformed);
    }
    decide(log, order)
}

// "Tell whether an order exists as the mission describes it, with stamps never falling along it": the number of operations in
// the order, every byte of the buffer, and what they mean.
pub fn judge(log: &[u8], order: &mut [u8]) -> Result<u16, Refusal>
    ensures judges { Judges result order.old order.new (judged log.now (length order.old)) }
    ensures promise { Promise log.now order.old order.new (outcome result) }
{
    answer(log, order)
}
