// Answers of an image are taken.
// That the image is readable is asked, not held by a struct: behind `&mut` its field would have to be proved again at each
// return, and for a reader it would be made for one call.
// A number in range stays a number: a type for it would be made and taken apart at each call, with the same goal.
ghost use Rattle.std.specs.Prelude.{◌≡◌, ◌≤◌, ◌<◌};
ghost use Rattle.protocol.specs.Sizes.{clients, views};
ghost use Rattle.protocol.specs.Worlds.{newest as newest_of};
ghost use Rattle.protocol.specs.Steps.{link as link_of, open?, closes as closes_of, starts, take as take_of};
ghost use Rattle.codec.specs.Images.{encode, decode};
ghost use Rattle.mail.specs.Images.{Legible, Does};
ghost use Rattle.takes.specs.Takes.{Takable, Asked, closes_with, linked as linked_of, wrote, end_taken, client_taken};

use super::tally::{Gathered, gather};
use administrator_rules::advance;
use client_rules::{close, close_size};
use codec::layout::Image;
use codec::places::{
    load_administrator, load_client, load_message, load_used, load_view, store_administrator,
    store_client, store_message,
};
use mail::{Stepped, next_number, present, request, send};
use protocol::limits::MESSAGES;
use protocol::{
    Choice, Client, Closing, Entry, Message, MessageKind, MessageNumber, Refusal, ServerNumber,
    ViewNumber,
};
use values::sets::alone;
use values::sizes::{at_once, write_size};
use values::tally::closes;

// "A phase closes when, by the answer just taken, the answers taken with that answer's view t come from at least q(t)
// different servers.": k is that answer, and size is q(t), the read size or the write size of t.
fn taken_with(image: &Image, k: MessageNumber, size: u32) -> Option<Choice>
    requires { Takable image.now k.0 }
    ensures { result ≡ closes_with (decode image.now) k.0 size }
{
    let m = load_message(image, k);
    let q = load_message(image, m.request);
    let first = Gathered::new(alone(ServerNumber(m.sender)), k, true);
    let answers = gather(image, m.view, q.next, MESSAGES, first);
    closes(answers.opened(image), size)
}

// A message with its mark and its link.
#[tactic(auto, unfolding(crate::specs::Takes::linked))]
pub fn linked(m: Message, taken: bool, next: MessageNumber) -> Message
    ensures { result ≡ linked_of m taken next }
{
    Message { taken, next, ..m }
}

// "a request's next is its newest taken answer": k becomes that.
fn link(image: &mut Image, k: MessageNumber)
    requires { Takable image.old k.0 }
    ensures { image.new ≡ encode (link_of (decode image.old) k.0) }
{
    let a = load_message(image, k);
    let q = load_message(image, a.request);
    store_message(image, k, linked(a, true, q.next));
    store_message(image, a.request, linked(q, q.taken, k));
}

// The request r, which is q, is "that of an open phase" or "the END number".
fn is_open(image: &Image, r: MessageNumber, q: Message) -> bool
    requires { Asked image.now r.0 q }
    ensures { result ≡ open? (decode image.now) r.0 }
{
    if q.is(MessageKind::End) {
        load_administrator(image).end() == r
    } else {
        load_client(image, q.sender).phase.request() == r
    }
}

// "A reader writes the chosen entry back. A writer writes (count+1, own number, its value).": a is client c with its WRITE
// next. 10, no number is left.
fn write_next(image: &mut Image, k: MessageNumber, c: u8, a: Client) -> Stepped
    requires { Takable image.old k.0 × (1 ≤ c) × (c ≤ clients) }
    ensures { Does result image.old image.new (wrote (decode image.old) k.0 c a) }
{
    let number = next_number(image)?;
    let write = request(u8::from(MessageKind::Write), c, ViewNumber(0), a.entry);
    link(image, k);
    store_client(image, c, a);
    send(image, number, write);
    Ok(None)
}

// A phase of client c closes with the entry e, and one says whether a read ends with it: the operation is complete, or its WRITE
// is next. 11, the closing write would need a count over 4,294,967,295; 10.
fn close_client(image: &mut Image, k: MessageNumber, c: u8, e: Entry, one: bool) -> Stepped
    requires { Takable image.old k.0 × (1 ≤ c) × (c ≤ clients) }
    ensures { Does result image.old image.new (closes_of (decode image.old) k.0 c e one) }
{
    let number = MessageNumber(load_used(image) + 1);
    match close(load_client(image, c), c, e, one, number)? {
        Closing::WritesNext(a) => write_next(image, k, c, a),
        Closing::Completed(a) => {
            link(image, k);
            store_client(image, c, a);
            Ok(Some(c))
        }
    }
}

// "the answer either closes its phase or leaves it open": the phase of client c. A read ends in one exchange only where the view
// permits it.
fn take_client(image: &mut Image, k: MessageNumber, c: u8) -> Stepped
    requires { Takable image.old k.0 × (1 ≤ c) × (c ≤ clients) }
    ensures { Does result image.old image.new (client_taken (decode image.old) k.0 c) }
{
    let m = load_message(image, k);
    let v = load_view(image, m.view);
    let size = close_size(load_client(image, c).phase, v);
    let Some(x) = taken_with(image, k, size) else {
        link(image, k);
        return Ok(None);
    };
    close_client(image, k, c, x.entry, at_once(x.one, v))
}

// "t+1 becomes the newest and START t+1 is sent with their largest entry", e. 10. A view that is ended is below 32, so that
// advance never refuses.
fn start_view(image: &mut Image, k: MessageNumber, e: Entry) -> Stepped
    requires { Takable image.old k.0 × (newest_of (decode image.old) < views) }
    ensures { Does result image.old image.new (starts (decode image.old) k.0 e) }
{
    let number = next_number(image)?;
    let a = advance(load_administrator(image))?;
    let start = request(u8::from(MessageKind::Start), 0, a.newest, e);
    link(image, k);
    store_administrator(image, a);
    send(image, number, start);
    Ok(None)
}

// "When answers tagged t from q(t) different servers are taken, t+1 becomes the newest": t is the newest. "Answers to END with
// another view are taken and count for nothing."
fn take_end(image: &mut Image, k: MessageNumber) -> Stepped
    requires { Takable image.old k.0 × (newest_of (decode image.old) < views) }
    ensures { Does result image.old image.new (end_taken (decode image.old) k.0) }
{
    let t = load_message(image, k).view;
    if t != load_administrator(image).newest {
        link(image, k);
        return Ok(None);
    }
    let size = write_size(load_view(image, t));
    let Some(x) = taken_with(image, k, size) else {
        link(image, k);
        return Ok(None);
    };
    start_view(image, k, x.entry)
}

// "Take: 5, not an answer; 7, taken before, or its request is neither that of an open phase nor the END number"; 11; 10.
pub fn take(image: &mut Image, k: MessageNumber) -> Stepped
    requires { Legible image.old }
    ensures { Does result image.old image.new (take_of (decode image.old) k.0) }
{
    if !present(image, k) {
        return Err(Refusal::NoMessage);
    }
    let m = load_message(image, k);
    if !m.is(MessageKind::Answer) {
        return Err(Refusal::NoMessage);
    }
    if m.taken {
        return Err(Refusal::NotApplicable);
    }
    let q = load_message(image, m.request);
    if !is_open(image, m.request, q) {
        return Err(Refusal::NotApplicable);
    }
    if q.is(MessageKind::End) {
        take_end(image, k)
    } else {
        take_client(image, k, q.sender)
    }
}
