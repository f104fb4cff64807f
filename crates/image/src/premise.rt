// The premise report. Ranges are `1..n + 1`, which is compiled to a plainer loop than `1..=n`.
// A number in range stays a number: a type for it would be made and taken apart at each call, with the same goal.
// What is gone over are numbers, not the elements of a slice.
ghost use Rattle.std.specs.Prelude.{true, ◌≡◌, ◌+◌, ◌≤◌};
ghost use Rattle.protocol.specs.Refusals.{outcome};
ghost use Rattle.protocol.specs.Tools.{all_to};
ghost use Rattle.protocol.specs.Sizes.{views};
ghost use Rattle.protocol.specs.Worlds.{premise as premise_of};
ghost use Rattle.codec.specs.Images.{decode};
ghost use Rattle.readable.specs.Readable.{readable as is_readable};
ghost use Rattle.image.specs.Premise.{few_hold, group, premise_on};

use codec::bytes::get32;
use codec::layout::{HOLDER, HOLDERS_AT, Image};
use codec::places::{load_holders, load_threshold};
use protocol::limits::VIEWS;
use protocol::{Refusal, ViewNumber};
use readable::readable::scanned;

// No more faulty servers hold key t than its threshold, by the byte that counts them.
#[tactic(auto, unfolding(crate::specs::Premise::few_hold))]
fn view_holds(image: &Image, t: ViewNumber) -> bool
    requires { (1 ≤ t.0) × (t.0 ≤ views) }
    ensures { result ≡ few_hold image.now t.0 }
{
    load_holders(image, t) <= load_threshold(image, t)
}

// The views whose bytes are read as one u32.
const GROUP: u8 = 4;

fn each_holds(image: &Image, k: u8) -> bool
    requires { k + group ≤ views }
    ensures { result ≡ all_to (λ j. few_hold image.now (k + j)) group }
{
    (1..GROUP + 1).all(|j| view_holds(image, ViewNumber(k + j)))
}

// The same of the views k + 1 to k + 4. Most have no faulty key holder: then their bytes are zero, and nothing else is read.
fn group_holds(image: &Image, k: u8) -> bool
    requires { k + group ≤ views }
    ensures { result ≡ all_to (λ j. few_hold image.now (k + j)) group }
{
    get32(image, HOLDERS_AT + HOLDER * (k as usize)) == 0 || each_holds(image, k)
}

fn views_hold(image: &Image) -> bool
    ensures { result ≡ all_to (few_hold image.now) views }
{
    (1..VIEWS / GROUP + 1).all(|g| group_holds(image, GROUP * (g - 1)))
}

// "The premise holds if no view t has more than f(t) such servers": of a readable image. It reads their bytes and the views' f
// alone.
#[tactic(auto, using(crate::specs::Premise::premise_bytes, readable::specs::Readable::read))]
pub fn premise_holds(image: &Image) -> bool
    requires { is_readable image.now ≡ true }
    ensures { result ≡ premise_of (decode image.now) }
{
    views_hold(image)
}

// "Premise report: 1, 2."
#[tactic(auto, unfolding(crate::specs::Premise::premise_on, protocol::specs::Tools::guard))]
pub fn premise(image: &[u8]) -> Result<bool, Refusal>
    ensures { outcome result ≡ premise_on image.now }
{
    let Some(image) = image.as_array() else {
        return Err(Refusal::WrongLength);
    };
    if !scanned(image) {
        return Err(Refusal::Unreadable);
    }
    Ok(premise_holds(image))
}
