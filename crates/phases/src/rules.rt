// What one answer does to the tally of its view, and whether it closes the phase.
ghost use Rattle.std.specs.Prelude.{◌≡◌};
ghost use Rattle.phases.specs.Rules.{newer, count_answer, size_by, counts, may_end, record_closes};

use super::phase_record::Head;
use protocol::{Choice, Message, MessageKind, ServerNumber, ServerSet, View, ViewNumber};
use values::tally::Tally;
use values::{entries, sets, sizes, tally};

// One newer answer more to a tally: of two equal stamps the one taken first stays, and a server heard before is heard.
fn newer(a: Tally, m: Message) -> Tally
    ensures { result ≡ newer a m }
{
    Tally {
        seen: sets::with(a.seen, ServerNumber(m.sender)),
        best: entries::larger(a.best, m.entry),
        one: tally::still_one(a.one, a.best, m.entry),
    }
}

// The tally with one answer more, which is the first where nobody was heard.
#[tactic(auto, unfolding(crate::specs::Rules::count_answer))]
pub fn count_answer(a: Tally, m: Message) -> Tally
    ensures { result ≡ count_answer a m }
{
    if a.seen == ServerSet(0) {
        tally::first_answer(m)
    } else {
        newer(a, m)
    }
}

// How many servers close a phase: READ the read size, WRITE and END the write size.
fn size_by(h: Head, v: View) -> u32
    ensures { result ≡ size_by h.kind v }
{
    if h.is(MessageKind::Read) {
        sizes::read_size(v)
    } else {
        sizes::write_size(v)
    }
}

// Whether answers of view t count: to END only those of the view that it ends.
fn counts(h: Head, t: ViewNumber) -> bool
    ensures { result ≡ counts h t.0 }
{
    !h.is(MessageKind::End) || t == h.view
}

// Whether a read may end with its READ phase.
fn may_end(h: Head, one: bool, v: View) -> bool
    ensures { result ≡ may_end h.kind one v }
{
    h.is(MessageKind::Read) && sizes::at_once(one, v)
}

// Whether the answers of view t, which is v, close what is open.
#[tactic(auto, unfolding(crate::specs::Rules::record_closes))]
pub fn record_closes(h: Head, a: Tally, t: ViewNumber, v: View) -> Option<Choice>
    ensures { result ≡ record_closes h a t.0 v }
{
    if !counts(h, t) {
        return None;
    }
    let x = tally::closes(a, size_by(h, v))?;
    Some(Choice {
        one: may_end(h, x.one, v),
        ..x
    })
}
