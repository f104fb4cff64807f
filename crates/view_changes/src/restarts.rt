// Restarts of the administrator on an image.
// That the image is readable is asked, not held by a struct: behind `&mut` its field would have to be proved again at each
// return, and for a reader it would be made for one call.
ghost use Rattle.std.specs.Prelude.{◌≡◌, Ok, None};
ghost use Rattle.protocol.specs.Worlds.{as_sent};
ghost use Rattle.protocol.specs.Chains.{follow};
ghost use Rattle.protocol.specs.Steps.{emptied, restarts as restarts_of};
ghost use Rattle.codec.specs.Images.{encode, decode};
ghost use Rattle.mail.specs.Images.{Legible, Does};
ghost use Rattle.takes.specs.Takes.{Walk};
ghost use Rattle.view_changes.specs.Restarts.{Emptying, Restarted};

use administrator_rules::restart;
use codec::layout::Image;
use codec::places::{
    load_administrator, load_message, store_administrator, store_message, store_view,
};
use mail::Stepped;
use protocol::limits::MESSAGES;
use protocol::{Administrator, MessageNumber, View, ViewNumber};
use takes::take::linked;

// "From a request the links are followed until zero": the answers from n on, with the links still allowed, are as they were sent,
// the last of them first.
fn unlink(image: &mut Image, n: MessageNumber, left: u16)
    requires { Walk image.old left n.0 }
    ensures { image.new ≡ encode (as_sent (decode image.old) (follow (decode image.old) left n.0)) }
{
    if n.0 == 0 || left == 0 {
        return;
    }
    let m = load_message(image, n);
    unlink(image, m.next, left - 1);
    store_message(image, n, linked(m, false, MessageNumber(0)));
}

// "empties the chain of the open END and marks its answers untaken": r is the END's number.
fn empty(image: &mut Image, r: MessageNumber)
    requires { Emptying image.old r.0 }
    ensures { image.new ≡ encode (emptied (decode image.old) r.0) }
{
    let q = load_message(image, r);
    unlink(image, q.next, MESSAGES);
    store_message(image, r, linked(q, false, MessageNumber(0)));
}

// A restart that its rule accepts: a is the administrator's record, r its END. "A value other than 0 is new member bits for the
// pending view, with f, and r in who": v, unless it has none.
fn renew(image: &mut Image, a: Administrator, r: MessageNumber, v: View)
    requires { Restarted image.old v a r.0 }
    ensures { Does (Ok None) image.old image.new (restarts_of (decode image.old) v) }
{
    empty(image, r);
    store_administrator(image, a);
    if v.members.0 != 0 {
        store_view(image, ViewNumber(a.newest.0 + 1), v);
    }
}

// "7, nothing is being ended; then 8."
pub fn restarts(image: &mut Image, v: View) -> Stepped
    requires { Legible image.old }
    ensures { Does result image.old image.new (restarts_of (decode image.old) v) }
{
    let before = load_administrator(image);
    let a = restart(before, v)?;
    renew(image, a, before.end(), v);
    Ok(None)
}
