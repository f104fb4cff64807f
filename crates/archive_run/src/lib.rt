// The program: standard input to lines.
// That the image is readable is asked, not held by a struct: tried, each contract then also had to say that the image that comes
// back is the one lent.
#![tactic(auto)]

pub mod turns;

ghost use Rattle.protocol.specs.Refusals.{code};
ghost use Rattle.mail.specs.Images.{Legible};
ghost use Rattle.archive_run.specs.Loop.{Led, Stops, Says};

use codec::layout::{IMAGE, Image, STEP};
use lines::done_line;
use protocol::Refusal;
use protocol::refusals::code;
use std::io::{Read, Write};
use streams::{read_full, write_all};
use turns::{first, turn};

// What the last line tells: the steps accepted, and the refusal of the stop, if it was one. Not a journal's `Replayed`, whose steps
// are in memory and counted by usize.
#[derive(Clone, Copy)]
struct Done {
    steps: u64,
    stop: Result<(), Refusal>,
}

// Reads a record, takes its step and prints the line of the operation that it completed. False: the input has ended.
#[tactic(auto, using(crate::specs::Loop::says_end))]
fn next<R: Read, W: Write>(
    input: &mut R,
    output: &mut W,
    image: &mut Image,
) -> Result<bool, Refusal>
    requires { Legible image.old }
    ensures { Says result image.old image.new }
{
    let mut bytes = [0u8; STEP];
    let got = read_full(input, &mut bytes);
    if got == 0 {
        return Ok(false);
    }
    if let Some(line) = turn(image, &bytes[..got])? {
        write_all(output, line.as_str().as_bytes());
    }
    Ok(true)
}

// The most turns, 2^64 - 1: at a record each nanosecond they last 584 years.
const TURNS: u64 = u64::MAX;

// Turns until one stops.
fn steps<R: Read, W: Write>(input: &mut R, output: &mut W, image: &mut Image) -> Done
    requires { Legible image.old }
    ensures { Led image.old result.steps image.new × Stops image.new (code result.stop) }
{
    for steps in 0..TURNS {
        let stop = match next(input, output, image) {
            Ok(true) => continue,
            Ok(false) => Ok(()),
            Err(refusal) => Err(refusal),
        };
        return Done { steps, stop };
    }
    Done {
        steps: TURNS,
        stop: Ok(()),
    }
}

// The whole program.
pub fn run(rt: &HostRuntime) {
    let mut input = rt.stdin();
    let mut output = rt.stdout();
    let mut image = [0u8; IMAGE];
    let mut bytes = [0u8; STEP];
    let got = read_full(&mut input, &mut bytes);
    let ended = match first(&mut image, &bytes[..got]) {
        Ok(()) => steps(&mut input, &mut output, &mut image),
        stop => Done { steps: 0, stop },
    };
    let done = done_line(ended.steps, code(ended.stop));
    write_all(&mut output, done.as_str().as_bytes());
}
