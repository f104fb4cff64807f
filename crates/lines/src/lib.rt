// The lines of the program.
#![tactic(auto)]

ghost use Rattle.std.specs.Prelude.{◌≡◌, ◌+◌, ◌≤◌, ◌++◌, length};
ghost use Rattle.arrayvec.specs.ArrayString.{array_string_len};
ghost use Rattle.codec.specs.Lists.{put};
ghost use Rattle.lines.specs.Lines.{digits, most_digits, number_then, letter_of, entry_line, operation_line, done_line, line_width};

use arrayvec::ArrayString;
use codec::bytes::put_bytes;
use protocol::{Client, Entry, Operation};

// Every line fits this many bytes.
pub const LINE: usize = 96;

// A line, in fixed memory. Its parts are pushed one behind another, since `write!` does not promise that it succeeds.
pub type Line = ArrayString<LINE>;

// A number below 2^64 has no more digits.
const MOST_DIGITS: usize = 20;

// The last digits of n, without zeros in front: as many as it has, and at most `most`. Returns the place behind them.
fn put_digits(out: &mut [u8], at: usize, n: u64, most: usize) -> usize
    requires { at + most ≤ length out.old }
    ensures { (result ≡ at + length (digits most n)) × (out.new ≡ put out.old at (digits most n)) }
{
    if most == 0 {
        return at;
    }
    let last = [48 + (n % 10) as u8];
    if n < 10 {
        put_bytes(out, at, &last);
        return at + 1;
    }
    let next = put_digits(out, at, n / 10, most - 1);
    put_bytes(out, next, &last);
    next + 1
}

// The decimal digits of n and one byte more, in a lent buffer. Returns the place behind them.
pub fn put_number(out: &mut [u8], at: usize, n: u64, then: u8) -> usize
    requires { at + 21 ≤ length out.old }
    ensures { (result ≡ at + length (number_then n then)) × (out.new ≡ put out.old at (number_then n then)) }
{
    let last = [then];
    let next = put_digits(out, at, n, MOST_DIGITS);
    put_bytes(out, next, &last);
    next + 1
}

// Appends the decimal digits of n.
#[tactic(auto, using(crate::proofs::Decimal::written, crate::proofs::Decimal::short))]
fn push_number(line: &mut Line, n: u64)
    requires { array_string_len line.old + most_digits ≤ line_width }
    ensures bytes { line.new.bytes ≡ line.old.bytes ++ digits most_digits n }
    ensures len { array_string_len line.new ≤ array_string_len line.old + most_digits }
{
    line.push_str(itoa::Buffer::new().format(n));
}

// W for a write, else R.
// The number may be any, as in a client's record and in a log.
pub fn letter(kind: u8) -> char
    ensures { result ≡ letter_of kind }
{
    if kind == u8::from(Operation::Write) {
        'W'
    } else {
        'R'
    }
}

// The number of a client or of a line, then "W or R, count, writer, value".
// The kind may be any number, as in a client's record and in a log.
#[tactic(auto, unfolding(crate::specs::Lines::entry_line, crate::specs::Lines::number_then))]
pub fn entry_line(number: u64, kind: u8, entry: Entry) -> Line
    ensures { result.bytes ≡ entry_line number kind entry }
{
    let mut line = Line::new();
    push_number(&mut line, number);
    line.push(' ');
    line.push(letter(kind));
    line.push(' ');
    push_number(&mut line, entry.stamp.count.0 as u64);
    line.push(' ');
    push_number(&mut line, entry.stamp.writer as u64);
    line.push(' ');
    push_number(&mut line, entry.value as u64);
    line.push('\n');
    line
}

// "client, W or R, count, writer, value", from the client's record.
#[tactic(auto, unfolding(crate::specs::Lines::operation_line))]
pub fn operation_line(number: u8, c: Client) -> Line
    ensures { result.bytes ≡ operation_line number c }
{
    entry_line(number as u64, c.kind, c.entry)
}

// "done, steps accepted, refusal of the stop or 0".
// The refusal is a number: a `Result` would ask more of callers.
#[tactic(auto, unfolding(crate::specs::Lines::done_line, crate::specs::Lines::number_then))]
pub fn done_line(steps: u64, refusal: u8) -> Line
    ensures { result.bytes ≡ done_line steps refusal }
{
    let mut line = Line::new();
    line.push_str("done ");
    push_number(&mut line, steps);
    line.push(' ');
    push_number(&mut line, refusal as u64);
    line.push('\n');
    line
}
