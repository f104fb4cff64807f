// The bytes that count the faulty key holders of each view, kept along with the servers' records.
// That the image is readable is asked, not held by a struct: behind `&mut` its field would have to be proved again at each
// return, and for a reader it would be made for one call.
// A number in range stays a number: a type for it would be made and taken apart at each call, with the same goal.
// What is gone over are numbers, as the definitions have it.
ghost use Rattle.std.specs.Prelude.{◌≡◌, ◌≤◌};
ghost use Rattle.protocol.specs.Sizes.{servers, views};
ghost use Rattle.codec.specs.Places.{put_server};
ghost use Rattle.mail.specs.Images.{Legible};
ghost use Rattle.deliveries.specs.Holders.{raised, gained};

use codec::layout::Image;
use codec::places::{load_holders, store_holders, store_server};
use protocol::limits::VIEWS;
use protocol::{KeySet, Server, ServerNumber, ViewNumber};
use values::sets::{alone, has};

// One more faulty server holds each of these keys.
pub fn raise(image: &mut Image, keys: KeySet)
    requires { Legible image.old }
    ensures { image.new ≡ raised image.old keys.0 views }
{
    // Not 1..=VIEWS, whose flag for the last turn stays in the compiled loop.
    for number in 1..VIEWS + 1 {
        let t = ViewNumber(number);
        let n = load_holders(image, t);
        store_holders(image, t, n + has(keys, t) as u8);
    }
}

// Server s is b after START of view t. A faulty one holds that key from now on.
pub fn keep_started(image: &mut Image, s: ServerNumber, b: Server, t: ViewNumber)
    requires { Legible image.old × (1 ≤ s.0) × (s.0 ≤ servers) }
    ensures { image.new ≡ put_server (gained image.old b t.0) s.0 b }
{
    if b.faulty {
        raise(image, alone(t));
    }
    store_server(image, s, b);
}
