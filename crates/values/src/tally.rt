// What a walk along taken answers gathers, from the newest to the oldest.
ghost use Rattle.std.specs.Prelude.{◌≡◌};
ghost use Rattle.values.specs.Tallies.{first_answer, leading, still_one, add_answer, closes_at};

use super::{entries, sets};
use protocol::{Choice, Entry, Message, MessageNumber, ServerNumber, ServerSet, ViewNumber};

// The servers heard, the largest entry that they showed, and whether they all showed one.
#[derive(Clone, Copy)]
pub struct Tally {
    pub seen: ServerSet,
    pub best: Entry,
    pub one: bool,
}

// The tally of one answer, the one just taken.
#[tactic(auto, unfolding(crate::specs::Tallies::first_answer))]
pub fn first_answer(m: Message) -> Tally
    ensures { result ≡ first_answer m }
{
    Tally {
        seen: sets::alone(ServerNumber(m.sender)),
        best: m.entry,
        one: true,
    }
}

// The answer that leads once n is met, which shows an entry; best led before, and showed had. "equal stamps: the one taken
// first", which is the older.
pub fn leader(best: MessageNumber, had: Entry, n: MessageNumber, shown: Entry) -> MessageNumber
    ensures { result ≡ leading best had n shown }
{
    if entries::below(shown, had) { best } else { n }
}

// Whether all answers carry one entry, once one more shows an entry; had is the largest before it.
pub fn still_one(one: bool, had: Entry, shown: Entry) -> bool
    ensures { result ≡ still_one one had shown }
{
    one && entries::same(had, shown)
}

// One older answer more to a tally of view t: of another view it changes nothing, and of two equal stamps the older stays.
#[tactic(auto, unfolding(crate::specs::Tallies::add_answer))]
pub fn add_answer(a: Tally, t: ViewNumber, m: Message) -> Tally
    ensures { result ≡ add_answer a t.0 m }
{
    if m.view != t {
        return a;
    }
    Tally {
        seen: sets::with(a.seen, ServerNumber(m.sender)),
        best: entries::larger(m.entry, a.best),
        one: still_one(a.one, a.best, m.entry),
    }
}

// The answer either closes its phase, with the largest entry and whether it is the only one, or leaves it open.
#[tactic(auto, unfolding(crate::specs::Tallies::closes_at))]
pub fn closes(a: Tally, size: u32) -> Option<Choice>
    ensures { result ≡ closes_at a size }
{
    let choice = Choice {
        entry: a.best,
        one: a.one,
    };
    (size <= sets::servers_in(a.seen)).then_some(choice)
}
