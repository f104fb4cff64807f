// The faulty key holders of each view: the full count, and the bytes that keep it. Ranges are `1..n + 1`: over `1..=n` a chain
// asks in each turn whether the last number has come, and the readable test takes 1.1 times as long.
// A number in range stays a number: a type for it would be made and taken apart at each call, with the same goal.
#![tactic(auto)]

// What is gone over are numbers, not the elements of a slice.
ghost use Rattle.std.specs.Prelude.{◌≡◌, ◌≤◌};
ghost use Rattle.protocol.specs.Tools.{count_to, all_to};
ghost use Rattle.protocol.specs.Sizes.{servers, views};
ghost use Rattle.protocol.specs.Worlds.{bad};
ghost use Rattle.codec.specs.Places.{administrator_at};
ghost use Rattle.codec.specs.Images.{holders, decode};
ghost use Rattle.key_holders.specs.Holders.{holder_ok, Served};

use codec::layout::Image;
use codec::places::{load_holders, load_server};
use protocol::limits::{SERVERS, VIEWS};
use protocol::{ServerNumber, ViewNumber};
use values::sets::has;

// "a faulty server counts against view t as long as it holds key t"
#[tactic(auto, using(codec::specs::Laws::server_decode), unfolding(protocol::specs::Worlds::bad))]
fn bad_server(image: &Image, t: ViewNumber, s: ServerNumber) -> bool
    requires { (1 ≤ t.0) × (t.0 ≤ views) × (1 ≤ s.0) × (s.0 ≤ servers) }
    ensures { result ≡ bad (decode image.now) t.0 s.0 }
{
    let v = load_server(image, s);
    v.faulty && has(v.keys, t)
}

fn bad_servers(image: &Image, t: ViewNumber) -> usize
    requires { (1 ≤ t.0) × (t.0 ≤ views) }
    ensures { result ≡ count_to (bad (decode image.now) t.0) servers }
{
    (1..SERVERS + 1)
        .filter(|&s| bad_server(image, t, ServerNumber(s)))
        .count()
}

// An image whose servers were tested, and its newest view.
#[derive(Clone, Copy)]
struct Tested<'a> {
    image: &'a Image,
    newest: ViewNumber,
    ghost served: { Served (decode image.now) × (newest.0 ≡ (administrator_at image.now).newest.0) },
}

impl Tested<'_> {
    // The number of the faulty key holders of view t. No key is of a view beyond the newest.
    #[tactic(auto, using(crate::specs::Holders::holders_over), unfolding(codec::specs::Images::holders))]
    fn holders_of(&self, t: ViewNumber) -> usize
        requires { (1 ≤ t.0) × (t.0 ≤ views) }
        ensures { result ≡ holders (decode self.now.image.now) t.0 }
    {
        if t <= self.newest {
            bad_servers(self.image, t)
        } else {
            0
        }
    }

    #[tactic(auto, unfolding(crate::specs::Holders::holder_ok))]
    fn holder_ok(&self, t: ViewNumber) -> bool
        requires { (1 ≤ t.0) × (t.0 ≤ views) }
        ensures { result ≡ holder_ok self.now.image.now t.0 }
    {
        load_holders(self.image, t) as usize == self.holders_of(t)
    }

    fn holders_ok(&self) -> bool
        ensures { result ≡ all_to (holder_ok self.now.image.now) views }
    {
        (1..VIEWS + 1).all(|t| self.holder_ok(ViewNumber(t)))
    }
}

// "an image whose byte differs from that is unreadable"
pub fn holders_ok(image: &Image, newest: ViewNumber) -> bool
    requires { Served (decode image.now) × (newest.0 ≡ (administrator_at image.now).newest.0) }
    ensures { result ≡ all_to (holder_ok image.now) views }
{
    Tested { image, newest }.holders_ok()
}
