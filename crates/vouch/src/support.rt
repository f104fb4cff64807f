// How many servers show an entry that passes a test.
// What is gone over are numbers, as the definitions have it.
ghost use Rattle.std.specs.Prelude.{◌≡◌, Bool};
ghost use Rattle.protocol.specs.declared.Entry.{Entry};
ghost use Rattle.vouch.specs.Answers.{showing};

use super::answers::{answerer, count, entry_shown};
use protocol::{Entry, ServerSet};
use values::sets;

// How many servers show an entry that passes: each server is one bit, however often it answers.
pub fn showing<F: Fn(Entry) -> bool>(answers: &[u8], test: F) -> u32
    requires { F.IsAlwaysCallable test }
    ensures { (p : Entry → Bool) → ((x : Entry) (r : Bool) → F.post test x r → r ≡ p x) → result ≡ showing p answers.now }
{
    let mut seen = ServerSet(0);
    // Not 1..=count, whose last turn is proved apart from the others.
    for k in 1..count(answers) + 1 {
        if test(entry_shown(answers, k)) {
            seen = sets::with(seen, answerer(answers, k));
        }
    }
    sets::servers_in(seen)
}
