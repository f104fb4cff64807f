// A list of answers as lent bytes, by the answer's number from 1.
// An answer is named by its number in the lent bytes, as in the definitions: over a slice of arrays each clause would have to
// glue them together again.
ghost use Rattle.std.specs.Prelude.{◌≡◌, ◌≤◌};
ghost use Rattle.vouch.specs.Answers.{answer_count, answerer, entry_shown};

use codec::bytes::array_at;
use codec::layout::{ENTRY, U8};
use codec::records::read_entry;
use protocol::{Entry, ServerNumber};

// An answer is server u8, 3 zero bytes, entry.
pub const SPARE_AT: usize = U8;

pub const SPARE: usize = 3;

pub const SHOWN_AT: usize = SPARE_AT + SPARE;

pub const ANSWER: usize = SHOWN_AT + ENTRY;

// How many answers there are.
pub fn count(answers: &[u8]) -> usize
    ensures { result ≡ answer_count answers.now }
{
    answers.len() / ANSWER
}

// The server of answer number k.
#[tactic(auto, unfolding(crate::specs::Answers::answerer))]
pub fn answerer(answers: &[u8], k: usize) -> ServerNumber
    requires { (1 ≤ k) × (k ≤ answer_count answers.now) }
    ensures { result.0 ≡ answerer answers.now k }
{
    ServerNumber(answers[ANSWER * (k - 1)])
}

// The entry of answer number k.
#[tactic(auto, unfolding(crate::specs::Answers::entry_shown))]
pub fn entry_shown(answers: &[u8], k: usize) -> Entry
    requires { (1 ≤ k) × (k ≤ answer_count answers.now) }
    ensures { result ≡ entry_shown answers.now k }
{
    read_entry(array_at(answers, ANSWER * (k - 1) + SHOWN_AT))
}
