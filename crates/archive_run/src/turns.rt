// What the program does with each record of its input, on lent bytes.
// That the image is readable is asked, not held by a struct: tried, each contract then also had to say that the image that comes
// back is the one lent.
ghost use Rattle.std.specs.Prelude.{◌≡◌};
ghost use Rattle.protocol.specs.Refusals.{code, outcome_by};
ghost use Rattle.image.specs.Steps.{step_on, left_by};
ghost use Rattle.mail.specs.Images.{Legible};
ghost use Rattle.archive_run.specs.Turns.{first_fits, first_on, line_on, bytes_of, lined};

use codec::layout::Image;
use codec::places::load_client;
use codec::records::read_step;
use image::fresh::fresh;
use lines::{Line, operation_line};
use protocol::limits::CLIENTS;
use protocol::{Refusal, Step};
use world::step::advance;

// "kind 0, f, member bits in value, other fields zero", but r in who
#[tactic(auto, unfolding(crate::specs::Turns::first_fits))]
fn first_fits(s: Step) -> bool
    ensures { result ≡ first_fits s }
{
    s.kind == 0 && s.view.0 == 0 && s.message.0 == 0 && s.source.0 == 0
}

// The first record makes the world: "A record cut short stops it with 1, a first record of another form with 3, a refused world
// with 8."
#[tactic(auto, unfolding(crate::specs::Turns::first_on))]
pub fn first(image: &mut [u8], bytes: &[u8]) -> Result<(), Refusal>
    ensures { (code result ≡ (first_on image.old bytes.now).refusal) × (image.new ≡ (first_on image.old bytes.now).image) }
{
    let Some(bytes) = bytes.as_array() else {
        return Err(Refusal::WrongLength);
    };
    let s = read_step(bytes);
    if !first_fits(s) {
        return Err(Refusal::Unfit);
    }
    fresh(image, s.value, s.f, s.who)
}

// The line of the operation that client c completed, from its record in the image; none for no client.
#[tactic(auto, unfolding(crate::specs::Turns::line_on))]
fn completed(image: &Image, c: u8) -> Option<Line>
    ensures { bytes_of result ≡ line_on image.now c }
{
    if (1..=CLIENTS).contains(&c) {
        Some(operation_line(c, load_client(image, c)))
    } else {
        None
    }
}

// One step on a readable image, which stays readable, and the line of the operation that it completed, if it completed one.
pub fn turn(image: &mut Image, bytes: &[u8]) -> Result<Option<Line>, Refusal>
    requires { Legible image.old }
    ensures answer { (outcome_by bytes_of result ≡ lined (step_on image.old bytes.now))
        × (image.new ≡ left_by image.old (step_on image.old bytes.now)) }
    ensures legible { Legible image.new }
{
    let Some(bytes) = bytes.as_array() else {
        return Err(Refusal::WrongLength);
    };
    let client = advance(image, bytes)?;
    Ok(client.and_then(|c| completed(image, c)))
}
