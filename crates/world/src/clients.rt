// A client begins an operation, or gives it up.
// That the image is readable is asked, not held by a struct: behind `&mut` its field would have to be proved again at each
// return, and for a reader it would be made for one call.
// A number in range stays a number: a type for it would be made and taken apart at each call, with the same goal.
ghost use Rattle.std.specs.Prelude.{◌≤◌};
ghost use Rattle.protocol.specs.Sizes.{clients};
ghost use Rattle.protocol.specs.Steps.{begins as begins_on, gives_up};
ghost use Rattle.codec.specs.Images.{decode};
ghost use Rattle.mail.specs.Images.{Legible, Does};

use client_rules::{begin, give_up};
use codec::layout::Image;
use codec::places::{load_client, load_used, store_client};
use mail::{Stepped, next_number, request, send};
use protocol::{Entry, MessageKind, MessageNumber, ViewNumber};

// "Write, read: 4, client not idle; 10"
// The kind is a number: the enum would ask more of callers.
pub fn begins(image: &mut Image, c: u8, kind: u8, value: u32) -> Stepped
    requires { Legible image.old × (1 ≤ c) × (c ≤ clients) }
    ensures { Does result image.old image.new (begins_on (decode image.old) c kind value) }
{
    let next = MessageNumber(load_used(image) + 1);
    let begun = begin(load_client(image, c), kind, value, next)?;
    let number = next_number(image)?;
    let read = request(
        u8::from(MessageKind::Read),
        c,
        ViewNumber(0),
        Entry::default(),
    );
    store_client(image, c, begun);
    send(image, number, read);
    Ok(None)
}

// "Giving up an operation": 12, the client is idle.
pub fn gives_up(image: &mut Image, c: u8) -> Stepped
    requires { Legible image.old × (1 ≤ c) × (c ≤ clients) }
    ensures { Does result image.old image.new (gives_up (decode image.old) c) }
{
    let left = give_up(load_client(image, c))?;
    store_client(image, c, left);
    Ok(None)
}
