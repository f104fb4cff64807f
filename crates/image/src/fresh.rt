// The fresh world.
// A number in range stays a number: a type for it would be made and taken apart at each call, with the same goal.
ghost use Rattle.std.specs.Prelude.{◌≡◌, ◌≤◌};
ghost use Rattle.protocol.specs.Refusals.{code};
ghost use Rattle.protocol.specs.Sizes.{servers};
ghost use Rattle.protocol.specs.Worlds.{fresh_server, fresh_world};
ghost use Rattle.codec.specs.Images.{encode};
ghost use Rattle.image.specs.Fresh.{idle_server, seeded, fresh_on};

use codec::bytes::{clear, put16};
use codec::layout::{Image, VERSION, VERSION_AT};
use codec::places::{store_administrator, store_server, store_view};
use protocol::limits::SERVERS;
use protocol::{
    Administrator, Entry, KeySet, Refusal, Server, ServerNumber, ServerSet, View, ViewNumber,
};
use values::sets::has;
use values::sizes::sized;

fn server_of(view: ViewNumber, keys: KeySet) -> Server
    ensures { result ≡ idle_server view.0 keys.0 }
{
    Server {
        view,
        faulty: false,
        keys,
        entry: Entry::default(),
    }
}

// "Members hold view 1, key 1 and the empty entry"
fn fresh_server(members: ServerSet, s: ServerNumber) -> Server
    requires { (1 ≤ s.0) × (s.0 ≤ servers) }
    ensures { result ≡ fresh_server members.0 s.0 }
{
    if has(members, s) {
        server_of(ViewNumber(1), KeySet(1))
    } else {
        server_of(ViewNumber(0), KeySet(0))
    }
}

fn store_servers(image: &mut Image, members: ServerSet)
    ensures { image.new ≡ seeded image.old members.0 servers }
{
    for s in 1..=SERVERS {
        let s = ServerNumber(s);
        store_server(image, s, fresh_server(members, s));
    }
}

// "all else is zero but version and newest view 1"
#[tactic(auto, using(crate::specs::Fresh::fresh_stored))]
fn store_fresh(image: &mut Image, v: View)
    ensures { image.new ≡ encode (fresh_world v) }
{
    let a = Administrator {
        newest: ViewNumber(1),
        ending: None,
    };
    clear(image);
    put16(image, VERSION_AT, VERSION);
    store_administrator(image, a);
    store_view(image, ViewNumber(1), v);
    store_servers(image, v.members);
}

// The fresh world of a view, on the bytes of an image: "8, size rule broken."
#[tactic(auto, unfolding(crate::specs::Fresh::fresh_on, protocol::specs::Tools::guard, protocol::specs::Worlds::fresh))]
pub fn fresh_view(image: &mut Image, v: View) -> Result<(), Refusal>
    ensures { (code result ≡ (fresh_on image.old v.members.0 v.f v.r).refusal)
        × (image.new ≡ (fresh_on image.old v.members.0 v.f v.r).image) }
{
    if !sized(v) {
        return Err(Refusal::WrongSize);
    }
    store_fresh(image, v);
    Ok(())
}

// "Fresh world (member bits, f)", and r: "1, buffer not" an image's length "; 8, size rule broken."
// Three numbers, as C and the program hand them in; below they are a `View`.
#[tactic(auto, unfolding(crate::specs::Fresh::fresh_on, protocol::specs::Tools::guard))]
pub fn fresh(image: &mut [u8], members: u32, f: u8, r: u8) -> Result<(), Refusal>
    ensures { (code result ≡ (fresh_on image.old members f r).refusal) × (image.new ≡ (fresh_on image.old members f r).image) }
{
    let Some(image) = image.as_mut_array() else {
        return Err(Refusal::WrongLength);
    };
    let v = View {
        members: ServerSet(members),
        f,
        r,
    };
    fresh_view(image, v)
}
