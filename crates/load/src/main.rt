// The program: from a seed and a number of steps, 8 bytes of standard input (u32 each, little-endian), the journal of that load
// on standard output.
#![tactic(auto)]

ghost use Rattle.std.specs.Prelude.{ℕ, ◌≡◌, take, true};
ghost use Rattle.std.specs.Io.KnownBytes.{Appends};
ghost use Rattle.loads.specs.Load.{load_from};

use loads::draws::Draws;
use loads::journal::{STEP, fill};
use std::io::Write;
use streams::{read_full, write_all};

// A journal is written in pieces of at most so many steps, as many as a buffer holds.
const PIECE: u32 = 341;

const BUFFER: usize = 4096;

// Writes piece after piece, each from the state where the last one ended. Returns whether all are written; if not, the first
// bytes of the journal may be.
fn write_load<W: Write>(output: &mut W, draws: &mut Draws, steps: u32) -> bool
    ensures all { result ≡ true → Appends (W.contents output.old) (W.contents output.new) (load_from draws.old.state steps).journal }
    ensures part { (n : ℕ) × Appends (W.contents output.old) (W.contents output.new) (take n (load_from draws.old.state steps).journal) }
{
    let mut buffer = [0u8; BUFFER];
    let mut left = steps;
    // No range is gone over: the last piece is shorter, and the contract says what stands there when a write fails.
    while left > 0 {
        let n = left.min(PIECE);
        let piece = &mut buffer[..STEP * n as usize];
        fill(piece, draws, n);
        // The way out of the loop.
        if !write_all(output, piece) {
            return false;
        }
        left -= n;
    }
    true
}

fn main(rt: HostRuntime) {
    let mut bytes = [0u8; 8];
    if read_full(&mut rt.stdin(), &mut bytes) == 8 {
        let [s0, s1, s2, s3, n0, n1, n2, n3] = bytes;
        let seed = u32::from_le_bytes([s0, s1, s2, s3]);
        let steps = u32::from_le_bytes([n0, n1, n2, n3]);
        write_load(&mut rt.stdout(), &mut Draws::new(seed), steps);
    }
}
