// The clauses of "readable" that name messages.
// A number in range stays a number: a type for it would be made and taken apart at each call, with the same goal.
ghost use Rattle.std.specs.Prelude.{◌≡◌, ◌≤◌};
ghost use Rattle.protocol.specs.Kinds.{message_code};
ghost use Rattle.protocol.specs.Sizes.{clients, messages};
ghost use Rattle.protocol.specs.Readable.{is_asked, ending_fits, header_fits, phase_fits, client_fits, sent_fits};
ghost use Rattle.codec.specs.Places.{used_at, administrator_at};
ghost use Rattle.codec.specs.Images.{decode};
ghost use Rattle.readable.specs.Scan.{Open, sent_as, sent as is_sent};

use codec::layout::Image;
use codec::places::{load_administrator, load_client, load_message, load_used, present};
use protocol::limits::{MESSAGES, VIEWS};
use protocol::{Administrator, Client, Message, MessageKind, MessageNumber, Phase, ViewNumber};
use values::entries::same;

// Message n, if it was sent.
#[tactic(auto, using(crate::specs::Scan::present_used, codec::specs::Laws::message_decode))]
pub fn sent(image: &Image, n: MessageNumber) -> Option<Message>
    requires { used_at image.now ≤ messages }
    ensures { result ≡ is_sent (decode image.now) n.0 }
{
    if present(image, n) {
        Some(load_message(image, n))
    } else {
        None
    }
}

// Message n, if it was sent and is of that kind and sender.
#[tactic(auto, unfolding(protocol::specs::Readable::is_sent))]
fn sent_as(image: &Image, n: MessageNumber, kind: MessageKind, sender: u8) -> Option<Message>
    requires { used_at image.now ≤ messages }
    ensures { result ≡ sent_as (decode image.now) n.0 (message_code kind) sender }
{
    match sent(image, n) {
        Some(m) if m.is(kind) && m.sender == sender => Some(m),
        _ => None,
    }
}

// "while ending, newest is below 32 and the END is that of newest"
#[tactic(auto, using(codec::specs::Laws::administrator_decode))]
fn ending_fits(image: &Image, a: Administrator) -> bool
    requires { (used_at image.now ≤ messages) × (a ≡ administrator_at image.now) }
    ensures { result ≡ ending_fits (decode image.now) a.ending }
{
    // What is found is asked about below.
    let Some(n) = a.ending else {
        return true;
    };
    a.newest.0 < VIEWS && sent_as(image, n, MessageKind::End, 0).is_some_and(|m| m.view == a.newest)
}

#[tactic(auto, using(codec::specs::Laws::administrator_decode, codec::specs::Laws::used_decode), unfolding(protocol::specs::Readable::header_fits))]
pub fn header_fits(image: &Image) -> bool
    ensures { result ≡ header_fits (decode image.now) }
{
    let a = load_administrator(image);
    load_used(image) <= MESSAGES
        && records::view_within(a.newest, ViewNumber(VIEWS))
        && ending_fits(image, a)
}

// An image with a header that fits, and its administrator.
#[derive(Clone, Copy)]
pub struct Opened<'a> {
    pub image: &'a Image,
    pub administrator: Administrator,
    pub ghost open: { Open image.now × (administrator ≡ administrator_at image.now) },
}

impl Opened<'_> {
    // "an answer's request has kind 1 to 3"
    #[tactic(auto, using(crate::specs::Scan::open_used))]
    fn is_asked(&self, n: MessageNumber) -> bool
        ensures { result ≡ is_asked (decode self.now.image.now) n.0 }
    {
        sent(self.image, n).is_some_and(|m| m.is_request())
    }

    // A message that was sent.
    #[tactic(auto, using(crate::specs::Scan::sent_rule))]
    pub fn sent_fits(&self, m: Message) -> bool
        ensures { result ≡ sent_fits (decode self.now.image.now) m }
    {
        records::message_fits(m, self.administrator.newest, self.is_asked(m.request))
    }

    #[tactic(auto, using(crate::specs::Scan::open_used))]
    fn phase_fits(&self, c: u8, a: Client) -> bool
        ensures { result ≡ phase_fits (decode self.now.image.now) c a a.phase }
    {
        match a.phase {
            Phase::Idle => records::idle_fits(a),
            Phase::Reading(n) => {
                records::reading_fits(a, sent_as(self.image, n, MessageKind::Read, c).is_some())
            }
            // "in phase 2 it is what is written"
            Phase::Writing(n) => {
                records::kind_fits(a.kind)
                    && sent_as(self.image, n, MessageKind::Write, c).is_some_and(|m| same(
                        a.entry, m.entry,
                    ))
            }
        }
    }

    #[tactic(auto, using(crate::specs::Scan::client_rule_lem))]
    pub fn client_fits(&self, c: u8) -> bool
        requires { (1 ≤ c) × (c ≤ clients) }
        ensures { result ≡ client_fits (decode self.now.image.now) c }
    {
        let a = load_client(self.image, c);
        records::client_range(a) && self.phase_fits(c, a)
    }
}
