// The second form of replay: the image is tested once, and after each step the premise is read off the bytes that count the
// faulty key holders and the views' f. That the image is readable is asked, not held by a struct: tried, each contract then also
// had to say that the image that comes back is the one lent.
ghost use Rattle.std.specs.Prelude.{◌≡◌};
ghost use Rattle.protocol.specs.Runs.{replay as replay_of};
ghost use Rattle.codec.specs.Images.{decode};
ghost use Rattle.image.specs.Steps.{played};
ghost use Rattle.mail.specs.Images.{Legible};
ghost use Rattle.journal.specs.Watch.{broken_from, watch_on};
ghost use Rattle.journal.specs.Watches.{Watches, noticed, watch_steps};

use super::{Replayed, Watched};
use codec::layout::{Image, STEP};
use image::premise::premise_holds;
use protocol::Refusal;
use readable::readable::scanned;
use world::step::advance;

// The step named so far; or, where there is none, step n if the premise does not hold after it.
fn notice(image: &Image, named: Option<usize>, n: usize) -> Option<usize>
    requires { Legible image.now }
    ensures { result ≡ noticed (decode image.now) named n }
{
    if named.is_some() || premise_holds(image) {
        named
    } else {
        Some(n)
    }
}

// "beside a stop too": on a readable image. A loop of its own, since a replay without the premise takes less time.
fn observe(image: &mut Image, journal: &[[u8; STEP]]) -> Watched
    requires { Legible image.old }
    ensures { Watches result image.new
        (record { played = played (replay_of (decode image.old) journal.now); first = broken_from 0 (decode image.old) journal.now }) }
{
    let mut first = None;
    for (steps, step) in journal.iter().enumerate() {
        if let Err(refusal) = advance(image, step) {
            let replayed = Replayed {
                steps,
                refusal: Some(refusal),
            };
            return Watched { replayed, first };
        }
        first = notice(image, first, steps + 1);
    }
    let replayed = Replayed {
        steps: journal.len(),
        refusal: None,
    };
    Watched { replayed, first }
}

// A journal of whole steps on the bytes of an image. The tests are those of a replay: a function that hands both on once they
// have passed would need a clause for each way out.
fn tested(image: &mut Image, journal: &[[u8; STEP]]) -> Watched
    ensures { Watches result image.new (watch_steps image.old journal.now) }
{
    if scanned(image) {
        observe(image, journal)
    } else {
        Watched::refused(Refusal::Unreadable)
    }
}

// "A second form of replay also names, beside a stop too, the first accepted step after which the premise does not hold, or 0.":
// for every image and every journal.
pub fn watch(image: &mut [u8], journal: &[u8]) -> Watched
    ensures { Watches result image.new (watch_on image.old journal.now) }
{
    let Some(image) = image.as_mut_array() else {
        return Watched::refused(Refusal::WrongLength);
    };
    let (steps, rest) = journal.as_chunks();
    if !rest.is_empty() {
        return Watched::refused(Refusal::WrongLength);
    }
    tested(image, steps)
}
