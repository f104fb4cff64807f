// Whether an image is readable. Ranges are `1..n + 1`: over `1..=n` a chain asks in each turn whether the last number has come,
// and the test takes 1.1 times as long.
// A number in range stays a number: a type for it would be made and taken apart at each call, with the same goal.
// What is gone over are numbers, not the elements of a slice.
ghost use Rattle.std.specs.Prelude.{◌≡◌, ◌≤◌};
ghost use Rattle.protocol.specs.Tools.{all_to};
ghost use Rattle.protocol.specs.Readable.{last_of};
ghost use Rattle.protocol.specs.Sizes.{clients, servers, views};
ghost use Rattle.codec.specs.Places.{used_at, administrator_at};
ghost use Rattle.readable.specs.Scan.{header_ok, view_ok, server_ok, client_ok, message_ok, messages_ok};
ghost use Rattle.readable.specs.Readable.{readable as is_readable};

use super::beyond::{beyond_zero, first_zero};
use super::sent::{Opened, header_fits};
use codec::bytes::array_at;
use codec::layout::{CLIENTS_AT, Image, MESSAGES_AT, SERVERS_AT, VIEWS_AT};
use codec::places::{load_administrator, load_message, load_server, load_used, load_view, record};
use codec::records::{client_plain, header_plain, message_plain, server_plain, view_plain};
use key_holders::holders_ok;
use protocol::limits::{CLIENTS, SERVERS, VIEWS};
use protocol::{Administrator, MessageNumber, ServerNumber, ViewNumber};

#[tactic(auto, unfolding(crate::specs::Scan::header_ok, codec::specs::Lists::part))]
fn header_ok(image: &Image) -> bool
    ensures { result ≡ header_ok image.now }
{
    header_plain(array_at(image, 0)) && header_fits(image)
}

#[tactic(auto, using(crate::specs::Scan::view_rule_lem), unfolding(crate::specs::Scan::view_ok))]
fn view_ok(image: &Image, t: ViewNumber, last: ViewNumber) -> bool
    requires { (1 ≤ t.0) × (t.0 ≤ views) × (last.0 ≡ last_of (administrator_at image.now)) }
    ensures { result ≡ view_ok image.now t.0 }
{
    view_plain(record(image, VIEWS_AT, t.0 as usize - 1))
        && records::view_fits(load_view(image, t), t, last)
}

// The last view that is not zero.
fn last_of(a: Administrator) -> ViewNumber
    requires { a.newest.0 ≤ views }
    ensures { result.0 ≡ last_of a }
{
    ViewNumber(a.newest.0 + a.ending.is_some() as u8)
}

impl Opened<'_> {
    #[tactic(auto, using(crate::specs::Scan::open_high))]
    fn views_ok(&self) -> bool
        ensures { result ≡ all_to (view_ok self.now.image.now) views }
    {
        let last = last_of(self.administrator);
        (1..VIEWS + 1).all(|t| view_ok(self.image, ViewNumber(t), last))
    }

    #[tactic(auto, using(crate::specs::Scan::server_rule_lem), unfolding(crate::specs::Scan::server_ok))]
    fn server_ok(&self, s: ServerNumber) -> bool
        requires { (1 ≤ s.0) × (s.0 ≤ servers) }
        ensures { result ≡ server_ok self.now.image.now s.0 }
    {
        server_plain(record(self.image, SERVERS_AT, s.0 as usize - 1))
            && records::server_fits(load_server(self.image, s), self.administrator.newest)
    }

    fn servers_ok(&self) -> bool
        ensures { result ≡ all_to (server_ok self.now.image.now) servers }
    {
        (1..SERVERS + 1).all(|s| self.server_ok(ServerNumber(s)))
    }

    #[tactic(auto, unfolding(crate::specs::Scan::client_ok))]
    fn client_ok(&self, c: u8) -> bool
        requires { (1 ≤ c) × (c ≤ clients) }
        ensures { result ≡ client_ok self.now.image.now c }
    {
        client_plain(record(self.image, CLIENTS_AT, c as usize - 1)) && self.client_fits(c)
    }

    fn clients_ok(&self) -> bool
        ensures { result ≡ all_to (client_ok self.now.image.now) clients }
    {
        (1..CLIENTS + 1).all(|c| self.client_ok(c))
    }

    // A message that was used.
    #[tactic(auto, using(crate::specs::Scan::open_used, codec::specs::Laws::message_decode, codec::specs::Laws::used_decode), unfolding(crate::specs::Scan::message_ok, protocol::specs::Readable::message_fits))]
    fn message_ok(&self, n: MessageNumber) -> bool
        requires { n.0 ≤ used_at self.now.image.now }
        ensures { result ≡ message_ok self.now.image.now n.0 }
    {
        message_plain(record(self.image, MESSAGES_AT, n.0 as usize))
            && self.sent_fits(load_message(self.image, n))
    }

    #[tactic(auto, using(crate::specs::Scan::open_used))]
    fn used_ok(&self, used: u16) -> bool
        requires { used ≡ used_at self.now.image.now }
        ensures { result ≡ all_to (message_ok self.now.image.now) used }
    {
        (1..used + 1).all(|n| self.message_ok(MessageNumber(n)))
    }

    #[tactic(auto, using(crate::specs::Scan::open_used), unfolding(crate::specs::Scan::messages_ok))]
    fn messages_ok(&self) -> bool
        ensures { result ≡ messages_ok self.now.image.now }
    {
        let used = load_used(self.image);
        first_zero(self.image) && beyond_zero(self.image, used) && self.used_ok(used)
    }
}

// The clauses of "An image is readable if ..." on the bytes of an image.
#[tactic(auto, using(crate::specs::Scan::open_header, crate::specs::Scan::servers_served, crate::specs::Scan::readable_scan), unfolding(crate::specs::Scan::scanned))]
pub fn scanned(image: &Image) -> bool
    ensures { result ≡ is_readable image.now }
{
    // What is opened asks for a header that fits.
    if !header_ok(image) {
        return false;
    }
    let administrator = load_administrator(image);
    let opened = Opened {
        image,
        administrator,
    };
    opened.views_ok()
        && opened.servers_ok()
        && opened.clients_ok()
        && opened.messages_ok()
        && opened.chains_fit()
        && holders_ok(image, administrator.newest)
}

// "An image is readable if ...": for every byte string of every length.
#[tactic(auto, using(crate::specs::Scan::readable_size))]
pub fn readable(image: &[u8]) -> bool
    ensures { result ≡ is_readable image.now }
{
    image.as_array().is_some_and(scanned)
}
