// Bytes from a reader and to a writer, as the programs take and print them.
#![tactic(auto)]

ghost use Rattle.std.specs.Prelude.{ℕ, ◌≡◌, ◌≤◌, length, take, true};
ghost use Rattle.std.specs.Io.KnownBytes.{Consumes, Appends};

use std::io::{Read, Write};

// Reads until a buffer is full, the input ends or a read fails, and returns the number of bytes read, which stand at its start. Nothing
// is said of the bytes behind them.
pub fn read_full<R: Read>(input: &mut R, buffer: &mut [u8]) -> usize
    ensures bound { result ≤ length buffer.new }
    ensures bytes { Consumes (R.remaining input.old) (R.remaining input.new) (take result buffer.new) }
{
    let mut done = 0usize;
    // Not `read_exact`, which says nothing of how much was read where the input ends; a turn goes on by what a read took.
    while done < buffer.len() {
        match input.read(&mut buffer[done..]) {
            Ok(0) | Err(_) => return done,
            Ok(n) => done += n,
        }
    }
    done
}

// Writes all bytes, or stops at the first write that takes none or fails; then the first of them may be written. Returns whether all are.
pub fn write_all<W: Write>(output: &mut W, bytes: &[u8]) -> bool
    ensures all { result ≡ true → Appends (W.contents output.old) (W.contents output.new) bytes.now }
    ensures part { (n : ℕ) × (n ≤ length bytes.now) × Appends (W.contents output.old) (W.contents output.new) (take n bytes.now) }
{
    let mut done = 0usize;
    // Not std's `write_all`, which says little of what stands there after an error; a turn goes on by what a write took.
    while done < bytes.len() {
        match output.write(&bytes[done..]) {
            Ok(0) | Err(_) => return false,
            Ok(n) => done += n,
        }
    }
    true
}
