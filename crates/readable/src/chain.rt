// The chain of a request's taken answers.
// A number in range stays a number: a type for it would be made and taken apart at each call, with the same goal.
ghost use Rattle.std.specs.Prelude.{◌≡◌, ◌+◌, ◌≤◌};
ghost use Rattle.protocol.specs.Sizes.{messages};
ghost use Rattle.protocol.specs.Tools.{bit};
ghost use Rattle.protocol.specs.Readable.{taken_answer};
ghost use Rattle.codec.specs.Images.{decode};
ghost use Rattle.readable.specs.Chains.{chains_fit, is_taken};
ghost use Rattle.readable.specs.Walks.{numbered, walked, chained};

use super::sent::{Opened, sent};
use codec::places::{load_message, load_used};
use protocol::limits::MESSAGES;
use protocol::{MessageKind, MessageNumber};

// What a walk answers where there is none: no walk follows so many links.
const BROKEN: u16 = MESSAGES + 1;

impl Opened<'_> {
    // Message n is a taken answer of that request.
    #[tactic(auto, using(crate::specs::Scan::open_used), unfolding(protocol::specs::Readable::taken_answer))]
    fn taken_answer(&self, request: MessageNumber, n: MessageNumber) -> bool
        ensures { result ≡ taken_answer (decode self.now.image.now) request.0 n.0 }
    {
        sent(self.image, n).is_some_and(|m| m.is(MessageKind::Answer)
            && m.taken
            && m.request == request)
    }

    // "From a request the links are followed until zero": from n on, with the links still allowed and those followed so far. It
    // answers a number: tried as an Option<u16>, it is not compiled to a loop, and the readable test of a full image takes 1.2
    // times as long.
    #[tactic(auto, using(crate::specs::Scan::open_used, crate::specs::Scan::taken_used, codec::specs::Laws::message_decode, crate::specs::Walks::walked_end, crate::specs::Walks::walked_out, crate::specs::Walks::walked_stray, crate::specs::Walks::walked_on))]
    fn walk(&self, request: MessageNumber, n: MessageNumber, left: u16, links: u16) -> u16
        requires { links + left ≤ messages }
        ensures { result ≡ numbered (walked (decode self.now.image.now) request.0 left n.0 links) }
    {
        if n.0 == 0 {
            return links;
        }
        if left == 0 || !self.taken_answer(request, n) {
            return BROKEN;
        }
        let next = load_message(self.image, n).next;
        self.walk(request, next, left - 1, links + 1)
    }

    // The links of the chain of message r, if it is whole; a message that is no request has none.
    #[tactic(auto, using(codec::specs::Laws::message_decode), unfolding(crate::specs::Walks::chained))]
    fn chain_of(&self, r: MessageNumber) -> Option<u16>
        requires { r.0 ≤ messages }
        ensures { result ≡ chained (decode self.now.image.now) r.0 }
    {
        let m = load_message(self.image, r);
        if !m.is_request() {
            return Some(0);
        }
        match self.walk(r, m.next, MESSAGES, 0) {
            BROKEN => None,
            links => Some(links),
        }
    }

    #[tactic(auto, using(codec::specs::Laws::message_decode))]
    fn taken_bit(&self, n: MessageNumber) -> u32
        requires { n.0 ≤ messages }
        ensures { result ≡ bit (is_taken (decode self.now.image.now) n.0) }
    {
        load_message(self.image, n).taken as u32
    }

    // "each chain holds only taken answers of its request, all of them, each one time"
    #[tactic(auto, using(crate::specs::Scan::open_used, crate::specs::Walks::counted_none, crate::specs::Walks::counted_more, crate::specs::Walks::counted_all, crate::specs::Walks::counted_out, protocol::proofs::Laws::Counts::count_le))]
    pub fn chains_fit(&self) -> bool
        ensures { result ≡ chains_fit (decode self.now.image.now) }
    {
        let mut sum = 0u32;
        let mut taken = 0u32;
        for n in 1..=load_used(self.image) {
            let n = MessageNumber(n);
            taken += self.taken_bit(n);
            // The links are added up below, so the way out stands here.
            let Some(links) = self.chain_of(n) else {
                return false;
            };
            sum += links as u32;
        }
        sum == taken
    }
}
