// Replay: the image is tested once, then each step touches only what it changes.
// That the image is readable is asked, not held by a struct: tried, each contract then also had to say that the image that comes
// back is the one lent.
ghost use Rattle.std.specs.Prelude.{◌≤◌, length, take};
ghost use Rattle.protocol.specs.Steps.{step as step_of};
ghost use Rattle.protocol.specs.Runs.{step_width, step_of as step_in, replay as replay_of};
ghost use Rattle.codec.specs.Images.{decode};
ghost use Rattle.image.specs.Steps.{played, replay_on, resume_on};
ghost use Rattle.mail.specs.Images.{Legible, Does};
ghost use Rattle.journal.specs.Replays.{Plays, replay_steps};

use super::Replayed;
use codec::bytes::array_at;
use codec::layout::{Image, STEP};
use mail::Stepped;
use protocol::Refusal;
use readable::readable::scanned;
use world::step::advance;

// The first step of a journal's part, for a caller that goes along a journal by itself.
#[tactic(auto, unfolding(codec::specs::Lists::part))]
pub fn first(image: &mut Image, rest: &[u8]) -> Stepped
    requires { Legible image.old × (step_width ≤ length rest.now) }
    ensures { Does result image.old image.new (step_of (decode image.old) (step_in (take step_width rest.now))) }
{
    advance(image, array_at(rest, 0))
}

// "It stops at the first refused step": on a readable image.
pub fn play(image: &mut Image, journal: &[[u8; STEP]]) -> Replayed
    requires { Legible image.old }
    ensures { Plays result image.new (played (replay_of (decode image.old) journal.now)) }
{
    for (steps, step) in journal.iter().enumerate() {
        if let Err(refusal) = advance(image, step) {
            return Replayed {
                steps,
                refusal: Some(refusal),
            };
        }
    }
    Replayed {
        steps: journal.len(),
        refusal: None,
    }
}

// A journal of whole steps on the bytes of an image: "2".
fn tested(image: &mut Image, journal: &[[u8; STEP]]) -> Replayed
    ensures { Plays result image.new (replay_steps image.old journal.now) }
{
    if scanned(image) {
        play(image, journal)
    } else {
        Replayed::refused(Refusal::Unreadable)
    }
}

// "Replay (image, journal)": for every image and every journal. "1, journal not a multiple of 12 or image length wrong; 2."
pub fn replay(image: &mut [u8], journal: &[u8]) -> Replayed
    ensures { Plays result image.new (replay_on image.old journal.now) }
{
    let Some(image) = image.as_mut_array() else {
        return Replayed::refused(Refusal::WrongLength);
    };
    let (steps, rest) = journal.as_chunks();
    if !rest.is_empty() {
        return Replayed::refused(Refusal::WrongLength);
    }
    tested(image, steps)
}

// "The rest of the journal after the last accepted step can be replayed": what is left of it after its first steps. 1, it has
// fewer.
pub fn resume(image: &mut [u8], journal: &[u8], steps: usize) -> Replayed
    ensures { Plays result image.new (resume_on image.old journal.now steps) }
{
    if journal.len() / STEP < steps {
        return Replayed::refused(Refusal::WrongLength);
    }
    replay(image, &journal[steps * STEP..])
}
