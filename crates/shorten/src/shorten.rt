// The short journal: steps are dropped from the last to the first where the refusal remains, again until a pass drops nothing.
// The current journal is kept in the lent buffer, and each replay begins on the lent image, made fresh again.
ghost use Rattle.std.specs.Prelude.{◌+◌, ◌%◌, ◌≤◌, ◌<◌, ◌≡◌, length, eqb};
ghost use Rattle.protocol.specs.Worlds.{fresh_world};
ghost use Rattle.protocol.specs.Refusals.{refusal_number};
ghost use Rattle.protocol.specs.Runs.{step_width, replay as replay_of};
ghost use Rattle.codec.specs.Images.{encode};
ghost use Rattle.image.specs.Steps.{steps_in, steps_of};
ghost use Rattle.journal.specs.Replays.{stopped_by};
ghost use Rattle.shorten.specs.Passes.{without as without_step, dropped, sweep, passes as passes_of};
ghost use Rattle.shorten.specs.Journals.{stops_with, ended, shortened, steps_lent, shorten_on};
ghost use Rattle.shorten.specs.Buffers.{Held, Leaves, moved_down, removed};
ghost use Rattle.shorten.specs.Lent.{Begins, Shortens};

use codec::bytes::{clear, put_bytes};
use codec::layout::{Image, STEP};
use image::fresh::fresh_view;
use journal::replay::play;
use protocol::{Refusal, ServerSet, View};

// "at most 512 steps"
const MOST_STEPS: usize = 512;

// Moves all bytes behind a step to its place. The buffer is handed back whole, so a step in it is named by its place.
fn move_down(shorter: &mut [u8], at: usize)
    requires { at + step_width ≤ length shorter.old }
    ensures { shorter.new ≡ moved_down shorter.old at }
{
    shorter.copy_within(at + STEP.., at);
}

// Drops the step that begins at a byte: "zero after the short journal".
fn remove(shorter: &mut [u8], at: usize)
    requires { at + step_width ≤ length shorter.old }
    ensures { shorter.new ≡ removed shorter.old at }
{
    move_down(shorter, at);
    let end = shorter.len() - STEP;
    clear(&mut shorter[end..]);
}

// Whether a replay was stopped by that refusal.
fn is_stop(stop: Option<Refusal>, refusal: Refusal) -> bool
    ensures { result ≡ eqb (stopped_by stop) (refusal_number refusal) }
{
    stop == Some(refusal)
}

// The view of a fresh world.
#[derive(Clone, Copy)]
struct Start {
    view: View,
    ghost begins: { Begins view },
}

impl Start {
    // The fresh world.
    fn write(self, image: &mut Image)
        ensures { image.new ≡ encode (fresh_world self.view) }
    {
        let _ = fresh_view(image, self.view);
    }

    // The refusal of a journal's replay from the fresh world without the step at a place, if it is refused.
    fn refusal_without(
        self,
        image: &mut Image,
        journal: &[[u8; STEP]],
        place: usize,
    ) -> Option<Refusal>
        requires { place < length journal.now }
        ensures { stopped_by result ≡ (replay_of (fresh_world self.view) (without_step journal.now place)).refusal }
    {
        self.write(image);
        let first = play(image, &journal[..place]);
        if first.steps < place {
            return first.refusal;
        }
        play(image, &journal[place + 1..]).refusal
    }

    // "drop where the refusal remains": the step at a place of the first `steps`. The number of steps left.
    fn drop_step(
        self,
        image: &mut Image,
        shorter: &mut [u8],
        steps: usize,
        place: usize,
        refusal: Refusal,
    ) -> usize
        requires { Held shorter.old steps × (place < steps) }
        ensures { Leaves result shorter.new (length shorter.old) (dropped (stops_with (fresh_world self.view) (refusal_number refusal)) (steps_in steps shorter.old) place) }
    {
        let (journal, _) = shorter[..steps * STEP].as_chunks();
        let stop = self.refusal_without(image, journal, place);
        if !is_stop(stop, refusal) {
            return steps;
        }
        remove(shorter, place * STEP);
        steps - 1
    }

    // "Go from last step to first": one pass. The number of steps left.
    fn one_pass(
        self,
        image: &mut Image,
        shorter: &mut [u8],
        steps: usize,
        refusal: Refusal,
    ) -> usize
        requires { Held shorter.old steps }
        ensures { Leaves result shorter.new (length shorter.old) (sweep (stops_with (fresh_world self.view) (refusal_number refusal)) steps (steps_in steps shorter.old)) }
    {
        let mut left = steps;
        for place in (0..steps).rev() {
            left = self.drop_step(image, shorter, left, place, refusal);
        }
        left
    }

    // "again until a pass drops nothing". The number of steps left.
    fn passes(self, image: &mut Image, shorter: &mut [u8], steps: usize, refusal: Refusal) -> usize
        requires { Held shorter.old steps }
        ensures { Leaves result shorter.new (length shorter.old) (passes_of (stops_with (fresh_world self.view) (refusal_number refusal)) steps (steps_in steps shorter.old)) }
    {
        let mut before = steps + 1;
        let mut left = steps;
        // Not a `for`: no index is counted, and how many passes there are shows only when one drops nothing.
        while left < before {
            before = left;
            left = self.one_pass(image, shorter, left, refusal);
        }
        left
    }

    // From the image of the fresh world: "15, the replay stops on no refusal". The journal comes as its bytes, since these are
    // copied.
    fn reduce(self, image: &mut Image, journal: &[u8], shorter: &mut [u8]) -> Result<usize, Refusal>
        requires { (image.old ≡ encode (fresh_world self.view)) × (length journal.now % step_width ≡ 0) × (length shorter.old ≡ length journal.now) }
        ensures { Shortens result image.new shorter.new (ended (fresh_world self.view) shorter.old (shortened (fresh_world self.view) (steps_of journal.now))) }
    {
        let (steps, _) = journal.as_chunks();
        let Some(refusal) = play(image, steps).refusal else {
            self.write(image);
            return Err(Refusal::NoRefusal);
        };
        put_bytes(shorter, 0, journal);
        let left = self.passes(image, shorter, steps.len(), refusal);
        self.write(image);
        Ok(left)
    }
}

// "1, over 512 steps or a buffer of wrong length"
fn steps_lent(journal: &[u8], shorter: &[u8]) -> bool
    ensures { result ≡ steps_lent journal.now shorter.now }
{
    journal.len() % STEP == 0
        && journal.len() / STEP <= MOST_STEPS
        && shorter.len() == journal.len()
}

// `shorten` on the bytes of an image.
fn begun(
    image: &mut Image,
    view: View,
    journal: &[u8],
    shorter: &mut [u8],
) -> Result<usize, Refusal>
    ensures { Shortens result image.new shorter.new (shorten_on image.old view.members.0 view.f view.r journal.now shorter.old) }
{
    if !steps_lent(journal, shorter) {
        return Err(Refusal::WrongLength);
    }
    fresh_view(image, view)?;
    Start { view }.reduce(image, journal, shorter)
}

// "The short journal behind a refusal" from a fresh world: the number of its steps, for every image, journal and buffer.
// The view is three numbers, as C hands them in.
pub fn shorten(
    image: &mut [u8],
    members: u32,
    f: u8,
    r: u8,
    journal: &[u8],
    shorter: &mut [u8],
) -> Result<usize, Refusal>
    ensures { Shortens result image.new shorter.new (shorten_on image.old members f r journal.now shorter.old) }
{
    let Some(image) = image.as_mut_array() else {
        return Err(Refusal::WrongLength);
    };
    let view = View {
        members: ServerSet(members),
        f,
        r,
    };
    begun(image, view, journal, shorter)
}
