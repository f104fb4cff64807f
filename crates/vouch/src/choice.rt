// The best of the entries that qualify.
// What is gone over are numbers, as the definitions have it.
ghost use Rattle.std.specs.Prelude.{◌≡◌, Bool};
ghost use Rattle.protocol.specs.declared.Entry.{Entry};
ghost use Rattle.vouch.specs.Choices.{outranks, better, best, candidate, standing};

use super::answers::{count, entry_shown};
use super::support::showing;
use protocol::Entry;
use values::entries::{below, same};

// "the largest stamp, for equal stamps the smaller value": whether e is better than d.
#[tactic(auto, unfolding(crate::specs::Choices::outranks))]
fn outranks(e: Entry, d: Entry) -> bool
    ensures { result ≡ outranks e d }
{
    below(d, e) || !below(e, d) && e.value < d.value
}

// The better of what was chosen before and an entry.
fn better(before: Option<Entry>, e: Entry) -> Option<Entry>
    ensures { result ≡ better before e }
{
    match before {
        Some(d) if !outranks(e, d) => Some(d),
        _ => Some(e),
    }
}

// Whether at least c servers show an entry.
pub fn candidate(answers: &[u8], c: u64, e: Entry) -> bool
    ensures { result ≡ candidate answers.now c e }
{
    showing(answers, |x| same(e, x)) as u64 >= c
}

// Whether, besides, fewer show larger stamps.
pub fn standing(answers: &[u8], c: u64, e: Entry) -> bool
    ensures { result ≡ standing answers.now c e }
{
    candidate(answers, c, e) && (showing(answers, |x| below(e, x)) as u64) < c
}

// The best of the entries that qualify.
pub fn best<F: Fn(Entry) -> bool>(answers: &[u8], qualifies: F) -> Option<Entry>
    requires { F.IsAlwaysCallable qualifies }
    ensures { (q : Entry → Bool) → ((e : Entry) (r : Bool) → F.post qualifies e r → r ≡ q e) → result ≡ best q answers.now }
{
    let mut chosen = None;
    // Not 1..=count, whose last turn is proved apart from the others.
    for k in 1..count(answers) + 1 {
        let e = entry_shown(answers, k);
        if qualifies(e) {
            chosen = better(chosen, e);
        }
    }
    chosen
}
