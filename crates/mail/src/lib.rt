// What the steps of a world share: a step's answer, and the messages of an image, made, found and sent.
#![tactic(auto)]

ghost use Rattle.std.specs.Prelude.{◌≡◌, ◌≤◌};
ghost use Rattle.protocol.specs.Sizes.{messages};
ghost use Rattle.protocol.specs.Steps.{request as request_of, answer as answer_of};
ghost use Rattle.codec.specs.Places.{used_at};
ghost use Rattle.mail.specs.Images.{put_sent, number_left};

use codec::layout::Image;
pub use codec::places::present;
use codec::places::{load_used, store_message, store_used};
use protocol::limits::MESSAGES;
use protocol::{
    Entry, Message, MessageKind, MessageNumber, Refusal, ServerNumber, Shown, ViewNumber,
};

// A step's answer: a refusal, or the client whose operation it completed, if it completed one.
pub type Stepped = Result<Option<u8>, Refusal>;

// A message that is no answer.
// The kind is a number: the enum would ask more of callers.
pub fn request(kind: u8, sender: u8, view: ViewNumber, entry: Entry) -> Message
    ensures { result ≡ request_of kind sender view.0 entry }
{
    Message {
        kind,
        sender,
        view,
        entry,
        ..Message::default()
    }
}

// The answer of server s to message n.
pub fn answer(s: ServerNumber, n: MessageNumber, x: Shown) -> Message
    ensures { result ≡ answer_of s.0 n.0 x }
{
    Message {
        kind: u8::from(MessageKind::Answer),
        sender: s.0,
        view: x.view,
        request: n,
        entry: x.entry,
        ..Message::default()
    }
}

// "A new message takes the number after the last used." 10, "all 1,023 message numbers used".
pub fn next_number(image: &Image) -> Result<MessageNumber, Refusal>
    ensures { result ≡ number_left (used_at image.now) }
{
    let used = load_used(image);
    if used < MESSAGES {
        Ok(MessageNumber(used + 1))
    } else {
        Err(Refusal::NoNumber)
    }
}

// The message m is sent with the number n, the one after the last used.
pub fn send(image: &mut Image, n: MessageNumber, m: Message)
    requires { n.0 ≤ messages }
    ensures { image.new ≡ put_sent image.old n.0 m }
{
    store_used(image, n.0);
    store_message(image, n, m);
}
