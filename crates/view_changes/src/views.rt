// New views of an image.
// That the image is readable is asked, not held by a struct: behind `&mut` its field would have to be proved again at each
// return, and for a reader it would be made for one call.
ghost use Rattle.protocol.specs.Steps.{new_view};
ghost use Rattle.codec.specs.Images.{decode};
ghost use Rattle.mail.specs.Images.{Legible, Does};

use administrator_rules::call;
use codec::layout::Image;
use codec::places::{load_administrator, load_used, store_administrator, store_view};
use mail::{Stepped, next_number, request, send};
use protocol::{Entry, MessageKind, MessageNumber, View, ViewNumber};

// "New view t+1, t being the newest: its members and f are recorded and END t is sent." "4, ending; 8, size rule broken or
// newest is 32; 10."
pub fn new_view(image: &mut Image, v: View) -> Stepped
    requires { Legible image.old }
    ensures { Does result image.old image.new (new_view (decode image.old) v) }
{
    let before = load_administrator(image);
    let a = call(before, v, MessageNumber(load_used(image) + 1))?;
    let number = next_number(image)?;
    let end = request(
        u8::from(MessageKind::End),
        0,
        before.newest,
        Entry::default(),
    );
    store_administrator(image, a);
    store_view(image, ViewNumber(before.newest.0 + 1), v);
    send(image, number, end);
    Ok(None)
}
