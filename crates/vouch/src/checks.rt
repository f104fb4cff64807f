// The clauses of refusal 14.
// An answer is named by its number in the lent bytes, as in the definitions: over a slice of arrays each clause would have to
// glue them together again.
ghost use Rattle.std.specs.Prelude.{◌≡◌, ◌≤◌};
ghost use Rattle.vouch.specs.Answers.{answer_count};
ghost use Rattle.vouch.specs.Checks.{values_fit, not_before, numbered, answer_fits, answers_fit, sizes_fit, largest_fits, list_fits};

use super::answers::{ANSWER, SHOWN_AT, SPARE, SPARE_AT, answerer, count, entry_shown};
use codec::bytes::{are_zero, array_at};
use codec::records::entry_plain;
use protocol::limits::SERVERS;
use values::entries::entry_fits;

// The entry of answer number k has its values, and the spare bytes are zero.
#[tactic(auto, unfolding(crate::specs::Checks::values_fit))]
fn values_fit(answers: &[u8], k: usize) -> bool
    requires { (1 ≤ k) × (k ≤ answer_count answers.now) }
    ensures { result ≡ values_fit answers.now k }
{
    let at = ANSWER * (k - 1);
    are_zero(answers, at + SPARE_AT, SPARE)
        && entry_plain(array_at(answers, at + SHOWN_AT))
        && entry_fits(entry_shown(answers, k))
}

// No answer before number k is of the same server.
#[tactic(auto, unfolding(crate::specs::Checks::not_before))]
fn not_before(answers: &[u8], k: usize) -> bool
    requires { (1 ≤ k) × (k ≤ answer_count answers.now) }
    ensures { result ≡ not_before answers.now k }
{
    let s = answerer(answers, k);
    (1..k).all(|j| answerer(answers, j) != s)
}

// The server of answer number k is one of 1 to n.
fn numbered(answers: &[u8], n: u32, k: usize) -> bool
    requires { (1 ≤ k) × (k ≤ answer_count answers.now) }
    ensures { result ≡ numbered answers.now n k }
{
    (1..=n).contains(&(answerer(answers, k).0 as u32))
}

#[tactic(auto, unfolding(crate::specs::Checks::answer_fits))]
fn answer_fits(answers: &[u8], n: u32, k: usize) -> bool
    requires { (1 ≤ k) × (k ≤ answer_count answers.now) }
    ensures { result ≡ answer_fits answers.now n k }
{
    values_fit(answers, k) && not_before(answers, k) && numbered(answers, n, k)
}

fn answers_fit(answers: &[u8], n: u32) -> bool
    ensures { result ≡ answers_fit answers.now n }
{
    (1..count(answers) + 1).all(|k| answer_fits(answers, n, k))
}

// "n over 32 or under 4b+1", with room for 4b+1.
fn sizes_fit(n: u32, b: u32) -> bool
    ensures { result ≡ sizes_fit n b }
{
    n <= SERVERS as u32 && 4 * b as u64 + 1 <= n as u64
}

// "the largest b under b or over (n-1)/4"
pub fn largest_fits(n: u32, b: u32, largest: u32) -> bool
    ensures { result ≡ largest_fits n b largest }
{
    b <= largest && largest <= n.saturating_sub(1) / 4
}

// The clauses of both choices.
#[tactic(auto, unfolding(crate::specs::Checks::list_fits))]
pub fn list_fits(answers: &[u8], n: u32, b: u32) -> bool
    ensures { result ≡ list_fits answers.now n b }
{
    let needed = (n as u64 + 2 * b as u64 + 2) / 2;
    answers_fit(answers, n) && sizes_fit(n, b) && needed <= count(answers) as u64
}
