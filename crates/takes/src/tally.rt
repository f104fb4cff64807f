// The tally of an answer's view along the chain of its request. That the image is readable is asked of the walk (`Walk`): a struct
// that holds it would be made for one call.
ghost use Rattle.std.specs.Prelude.{◌≡◌, ◌/◌, ◌%◌, ◌^◌, ◌≤◌, eqb};
ghost use Rattle.protocol.specs.Sizes.{messages};
ghost use Rattle.codec.specs.Places.{message_at};
ghost use Rattle.codec.specs.Images.{decode};
ghost use Rattle.values.specs.Tallies.{add_answer};
ghost use Rattle.takes.specs.Takes.{Walk};
ghost use Rattle.takes.specs.Gathered.{Packs, tally_on, opened as opened_in, Gathers};

use codec::layout::Image;
use codec::places::load_message;
use protocol::{Message, MessageNumber, ServerNumber, ServerSet, ViewNumber};
use values::sets::with;
use values::tally::{Tally, leader, still_one};

// A set of servers is below the first number; whether the answers differ stands there, and the number of an answer from the
// second on.
const DIFFER: u64 = 4294967296;

const ABOVE: u64 = 2 * DIFFER;

// What a walk carries as one number: the servers heard, the answer that leads, and whether all carry one entry.
#[derive(Clone, Copy)]
pub struct Gathered {
    bits: u64,
    ghost fits: { bits / 2 ^ 33 ≤ messages },
}

impl Gathered {
    pub fn new(seen: ServerSet, best: MessageNumber, one: bool) -> Gathered
        requires { best.0 ≤ messages }
        ensures { Packs result.bits seen best one }
    {
        let same = seen.0 as u64 + ABOVE * best.0 as u64;
        let bits = if one { same } else { same + DIFFER };
        Gathered { bits }
    }

    fn seen(self) -> ServerSet
        ensures { result ≡ record { 0 = self.bits % 2 ^ 32 } }
    {
        ServerSet((self.bits % DIFFER) as u32)
    }

    fn best(self) -> MessageNumber
        ensures { result ≡ record { 0 = self.bits / 2 ^ 33 } }
    {
        MessageNumber((self.bits / ABOVE) as u16)
    }

    fn one(self) -> bool
        ensures { result ≡ eqb (self.bits / 2 ^ 32 % 2) 0 }
    {
        self.bits / DIFFER % 2 == 0
    }

    // One older answer more, n, which is m.
    fn with_answer(self, image: &Image, n: MessageNumber, m: Message) -> Gathered
        requires { (n.0 ≤ messages) × (m ≡ message_at image.now n.0) }
        ensures { Gathers (decode image.now) result.bits (add_answer (opened_in (decode image.now) self.bits) m.view.0 m) }
    {
        let before = self.opened(image);
        let best = self.best();
        let heard = with(before.seen, ServerNumber(m.sender));
        let leads = leader(best, before.best, n, m.entry);
        let one = still_one(before.one, before.best, m.entry);
        Gathered::new(heard, leads, one)
    }

    // The tally that it stands for.
    pub fn opened(self, image: &Image) -> Tally
        ensures { result ≡ opened_in (decode image.now) self.bits }
    {
        Tally {
            seen: self.seen(),
            best: load_message(image, self.best()).entry,
            one: self.one(),
        }
    }
}

// "From a request the links are followed until zero": the tally of view t from message n on, with the links still allowed; g has
// what the answers before it show. An answer of another view changes nothing. All that it carries and answers fits in registers,
// so it is compiled to a loop.
pub fn gather(image: &Image, t: ViewNumber, n: MessageNumber, left: u16, g: Gathered) -> Gathered
    requires { Walk image.now left n.0 }
    ensures { Gathers (decode image.now) result.bits (tally_on (decode image.now) t.0 g.bits left n.0) }
{
    if n.0 == 0 || left == 0 {
        return g;
    }
    let m = load_message(image, n);
    if m.view != t {
        return gather(image, t, m.next, left - 1, g);
    }
    gather(image, t, m.next, left - 1, g.with_answer(image, n, m))
}
