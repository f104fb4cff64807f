// The program: a log on standard input to the lines of its order.
#![tactic(auto)]

pub mod text;

use judging::judge::{PLACE, judge};
use judging::log::{LOG_LINE, LOG_LINES};
use lines::done_line;
use std::io::Write;
use streams::{read_full, write_all};
use text::place_line;

// Room for one line more than a log has, so that a longer log is seen to be longer.
const LOG_ROOM: usize = LOG_LINE * (LOG_LINES + 1);

const ORDER_ROOM: usize = PLACE * (LOG_LINES + 1);

// A line for each operation of an order.
fn show<W: Write>(output: &mut W, log: &[u8], order: &[u8]) {
    for place in order.as_chunks().0 {
        write_all(
            output,
            place_line(log, u16::from_le_bytes(*place))
                .as_str()
                .as_bytes(),
        );
    }
}

// The lines of a log's judgement, with an order buffer of its own.
fn settle<W: Write>(output: &mut W, log: &[u8], order: &mut [u8]) {
    let done = match judge(log, order) {
        Ok(operations) => {
            show(output, log, order);
            done_line(operations as u64, 0)
        }
        Err(refusal) => done_line(0, refusal.number()),
    };
    write_all(output, done.as_str().as_bytes());
}

// The whole program.
pub fn run(rt: &HostRuntime) {
    let mut log = [0u8; LOG_ROOM];
    let mut order = [0u8; ORDER_ROOM];
    let got = read_full(&mut rt.stdin(), &mut log);
    let room = PLACE * (got / LOG_LINE);
    settle(&mut rt.stdout(), &log[..got], &mut order[..room]);
}
