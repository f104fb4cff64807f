// A message reaches a server, a server turns faulty, a faulty server answers.
// That the image is readable is asked, not held by a struct: behind `&mut` its field would have to be proved again at each
// return, and for a reader it would be made for one call.
// A number in range stays a number: a type for it would be made and taken apart at each call, with the same goal.
ghost use Rattle.std.specs.Prelude.{false, ◌≡◌, ◌≤◌, eqb, Some};
ghost use Rattle.protocol.specs.Tools.{if};
ghost use Rattle.protocol.specs.Sizes.{servers, views, messages};
ghost use Rattle.protocol.specs.Entries.{empty};
ghost use Rattle.protocol.specs.Worlds.{member as member_of, message};
ghost use Rattle.protocol.specs.Steps.{deliver as deliver_on, answers as answers_on, fault as fault_on, source? as is_source, lie as lie_on};
ghost use Rattle.codec.specs.Places.{server_at};
ghost use Rattle.codec.specs.Images.{decode};
ghost use Rattle.mail.specs.Images.{Legible, Does};

use super::holders::{keep_started, raise};
use codec::layout::Image;
use codec::places::{load_message, load_server, load_view, store_server};
use mail::{Stepped, answer, next_number, present, send};
use protocol::{
    Entry, MessageKind, MessageNumber, Refusal, Server, ServerNumber, Shown, ViewNumber,
};
use server_rules::{may_answer, serve};
use values::sets::has;

// Server s is in N(t).
#[tactic(auto, using(codec::specs::Laws::view_decode, crate::specs::Delivers::member_none), unfolding(protocol::specs::Worlds::member))]
fn is_member(image: &Image, t: ViewNumber, s: ServerNumber) -> bool
    requires { t.0 ≤ views }
    ensures { result ≡ member_of (decode image.now) t.0 s.0 }
{
    t.0 != 0 && has(load_view(image, t).members, s)
}

// A correct server's record is kept and its answer sent: 10 where no number is left.
fn reply(image: &mut Image, s: ServerNumber, n: MessageNumber, b: Server, x: Shown) -> Stepped
    requires { Legible image.old × (1 ≤ s.0) × (s.0 ≤ servers) × ((server_at image.old s.0).faulty ≡ false) × (b.faulty ≡ false) }
    ensures { Does result image.old image.new (answers_on (Some x) (decode image.old) s.0 n.0 b) }
{
    let number = next_number(image)?;
    store_server(image, s, b);
    send(image, number, answer(s, n, x));
    Ok(None)
}

// "Deliver: 5, no such message or an answer; 6 ...; 7, the server's rule does not apply; 10"
pub fn deliver(image: &mut Image, s: ServerNumber, n: MessageNumber) -> Stepped
    requires { Legible image.old × (1 ≤ s.0) × (s.0 ≤ servers) }
    ensures { Does result image.old image.new (deliver_on (decode image.old) s.0 n.0) }
{
    if !present(image, n) {
        return Err(Refusal::NoMessage);
    }
    let m = load_message(image, n);
    let a = load_server(image, s);
    let served = serve(a, m, is_member(image, m.view, s))?;
    let Some(shown) = served.answer else {
        keep_started(image, s, served.server, m.view);
        return Ok(None);
    };
    reply(image, s, n, served.server, shown)
}

// "Fault: 6, faulty already." It counts against every view whose key it holds.
pub fn fault(image: &mut Image, s: ServerNumber) -> Stepped
    requires { Legible image.old × (1 ≤ s.0) × (s.0 ≤ servers) }
    ensures { Does result image.old image.new (fault_on (decode image.old) s.0) }
{
    let a = load_server(image, s);
    if a.faulty {
        return Err(Refusal::FaultState);
    }
    raise(image, a.keys);
    store_server(image, s, Server { faulty: true, ..a });
    Ok(None)
}

// The entry shown is the empty one, or that of a WRITE sent.
fn is_source(image: &Image, n: MessageNumber) -> bool
    requires { Legible image.now }
    ensures { result ≡ is_source (decode image.now) n.0 }
{
    n.0 == 0 || present(image, n) && load_message(image, n).is(MessageKind::Write)
}

// The empty entry, or that of the message n.
#[tactic(auto, using(codec::specs::Laws::message_decode))]
fn shown_entry(image: &Image, n: MessageNumber) -> Entry
    requires { n.0 ≤ messages }
    ensures { result ≡ if (eqb n.0 0) empty (message (decode image.now) n.0).entry }
{
    if n.0 == 0 {
        Entry::default()
    } else {
        load_message(image, n).entry
    }
}

// "False answer: 5, message not of kind 1 to 3, or source neither 0 nor a WRITE; 6, server not faulty; 9, it lacks that key; 10."
pub fn false_answer(
    image: &mut Image,
    s: ServerNumber,
    t: ViewNumber,
    n: MessageNumber,
    source: MessageNumber,
) -> Stepped
    requires { Legible image.old × (1 ≤ s.0) × (s.0 ≤ servers) × (source.0 ≤ messages) }
    ensures { Does result image.old image.new (lie_on (decode image.old) s.0 t.0 n.0 source.0) }
{
    if !present(image, n) {
        return Err(Refusal::NoMessage);
    }
    let asked = load_message(image, n);
    let a = load_server(image, s);
    may_answer(a, t, asked, is_source(image, source))?;
    let number = next_number(image)?;
    let entry = shown_entry(image, source);
    send(image, number, answer(s, n, Shown { view: t, entry }));
    Ok(None)
}
