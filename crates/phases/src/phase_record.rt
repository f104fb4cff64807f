// The record of a phase as bytes: its head and its tallies, read, written, and their ranges tested.
// A number in range stays a number: a type for it would be made and taken apart at each call, with the same goal.
ghost use Rattle.std.specs.Prelude.{◌≡◌, ◌+◌, ◌≤◌, eqb};
ghost use Rattle.protocol.specs.Kinds.{message_code};
ghost use Rattle.protocol.specs.Sizes.{views};
ghost use Rattle.codec.specs.Lists.{part, put};
ghost use Rattle.phases.specs.Layout.{tally_place, tally_width};
ghost use Rattle.phases.specs.Records.{head_at, head_bytes, open_fits, head_fits, tally_read, tally_plain, unheard_fits, tally_rule, tally_at, put_tally, plain_at, tally_fits};

use super::layout::{
    BEST_AT, DIFFER_AT, HEAD, HEAD_KIND_AT, HEAD_REQUEST_AT, HEAD_VIEW_AT, HEARD_AT, PHASE, TALLY,
    TALLY_SPARE, TALLY_SPARE_AT,
};
use checked::ranges;
use codec::bytes::{are_zero, array_at, get16, get32, put_zeros, put8, put16, put32};
use codec::records::{entry_plain, read_entry, write_entry};
use protocol::limits::VIEWS;
use protocol::{MessageKind, MessageNumber, ServerSet, ViewNumber};
use values::entries;
use values::tally::Tally;

// What is open: the kind of its request, the view that END ends, and the request's number; all 0 where nothing is.
#[derive(Clone, Copy, Debug, Default, PartialEq, Eq)]
pub struct Head {
    // A number: the record's byte may be any.
    pub kind: u8,
    pub view: ViewNumber,
    pub request: MessageNumber,
}

impl Head {
    // Whether the request is of that kind; as of a message.
    pub fn is(self, kind: MessageKind) -> bool
        ensures { result ≡ eqb self.kind (message_code kind) }
    {
        self.kind == u8::from(kind)
    }
}

// The head of a record.
#[tactic(auto, unfolding(crate::specs::Records::head_at, crate::specs::Records::head_of))]
pub fn load_head(phase: &[u8; PHASE]) -> Head
    ensures { result ≡ head_at phase.now }
{
    let b = array_at::<HEAD>(phase, 0);
    Head {
        kind: b[HEAD_KIND_AT],
        view: ViewNumber(b[HEAD_VIEW_AT]),
        request: MessageNumber(get16(b, HEAD_REQUEST_AT)),
    }
}

#[tactic(auto, using(crate::specs::Written::head_wrote))]
pub fn store_head(phase: &mut [u8; PHASE], h: Head)
    ensures { phase.new ≡ put phase.old 0 (head_bytes h) }
{
    put8(phase, HEAD_KIND_AT, h.kind);
    put8(phase, HEAD_VIEW_AT, h.view.0);
    put16(phase, HEAD_REQUEST_AT, h.request.0);
}

// A phase that is open: of kind 1 to 3, with the number of its request. END names the view that it ends, which is not the last,
// READ and WRITE name none.
#[tactic(auto, unfolding(crate::specs::Records::open_fits))]
pub fn open_fits(h: Head) -> bool
    ensures { result ≡ open_fits h }
{
    let view_fits = match MessageKind::try_from(h.kind) {
        Ok(MessageKind::Read | MessageKind::Write) => h.view == ViewNumber(0),
        Ok(MessageKind::End) => (1..VIEWS).contains(&h.view.0),
        _ => false,
    };
    view_fits && ranges::number_fits(h.request)
}

// A phase that is open, or a head that is zero.
#[tactic(auto, unfolding(crate::specs::Records::head_fits))]
pub fn head_fits(h: Head) -> bool
    ensures { result ≡ head_fits h }
{
    if h.kind == 0 {
        h == Head::default()
    } else {
        open_fits(h)
    }
}

#[tactic(auto, unfolding(crate::specs::Records::tally_read))]
fn read_tally(b: &[u8; TALLY]) -> Tally
    ensures { result ≡ tally_read b.now }
{
    Tally {
        seen: ServerSet(get32(b, HEARD_AT)),
        best: read_entry(array_at(b, BEST_AT)),
        one: b[DIFFER_AT] == 0,
    }
}

#[tactic(auto, unfolding(crate::specs::Records::tally_plain))]
fn tally_plain(b: &[u8; TALLY]) -> bool
    ensures { result ≡ tally_plain b.now }
{
    b[DIFFER_AT] <= 1
        && are_zero(b, TALLY_SPARE_AT, TALLY_SPARE)
        && entry_plain(array_at(b, BEST_AT))
}

// Where nobody was heard there is no entry, and nothing differs.
fn unheard_fits(a: Tally) -> bool
    ensures { result ≡ unheard_fits a }
{
    a.seen != ServerSet(0) || entries::is_empty(a.best) && a.one
}

#[tactic(auto, unfolding(crate::specs::Records::tally_rule))]
fn tally_rule(a: Tally) -> bool
    ensures { result ≡ tally_rule a }
{
    entries::entry_fits(a.best) && unheard_fits(a)
}

// Where the tally of view t begins, and its bytes.
fn tally_place(t: ViewNumber) -> usize
    requires { (1 ≤ t.0) × (t.0 ≤ views) }
    ensures { result ≡ tally_place t.0 }
{
    HEAD + TALLY * (t.0 as usize - 1)
}

fn tally_of(phase: &[u8; PHASE], t: ViewNumber) -> &[u8; TALLY]
    requires { (1 ≤ t.0) × (t.0 ≤ views) }
    ensures { result.now ≡ part phase.now (tally_place t.0) tally_width }
{
    array_at(phase, tally_place(t))
}

// The tally of view t.
#[tactic(auto, unfolding(crate::specs::Records::tally_at))]
pub fn load_tally(phase: &[u8; PHASE], t: ViewNumber) -> Tally
    requires { (1 ≤ t.0) × (t.0 ≤ views) }
    ensures { result ≡ tally_at phase.now t.0 }
{
    read_tally(tally_of(phase, t))
}

#[tactic(auto, using(crate::specs::Written::tally_wrote), unfolding(crate::specs::Records::put_tally))]
pub fn store_tally(phase: &mut [u8; PHASE], t: ViewNumber, a: Tally)
    requires { (1 ≤ t.0) × (t.0 ≤ views) }
    ensures { phase.new ≡ put_tally phase.old t.0 a }
{
    let at = tally_place(t);
    put32(phase, at + HEARD_AT, a.seen.0);
    write_entry(phase, at + BEST_AT, a.best);
    put8(phase, at + DIFFER_AT, !a.one as u8);
    put_zeros(phase, at + TALLY_SPARE_AT, TALLY_SPARE);
}

// The spare bytes and the flag of the tally of view t.
#[tactic(auto, unfolding(crate::specs::Records::plain_at))]
fn plain_at(phase: &[u8; PHASE], t: ViewNumber) -> bool
    requires { (1 ≤ t.0) × (t.0 ≤ views) }
    ensures { result ≡ plain_at phase.now t.0 }
{
    tally_plain(tally_of(phase, t))
}

// The tally of a message's view is in its range; 0 is no view, and has none.
#[tactic(auto, unfolding(crate::specs::Records::tally_fits))]
pub fn tally_fits(phase: &[u8; PHASE], t: ViewNumber) -> bool
    requires { t.0 ≤ views }
    ensures { result ≡ tally_fits phase.now t.0 }
{
    t == ViewNumber(0) || plain_at(phase, t) && tally_rule(load_tally(phase, t))
}
