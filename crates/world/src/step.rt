// One step on an image: check 3, then by kind; on any image and any bytes.
// That the image is readable is asked, not held by a struct: tried, each contract then also had to say that the image that comes
// back is the one lent.
ghost use Rattle.std.specs.Prelude.{true, ◌≡◌};
ghost use Rattle.protocol.specs.Steps.{fields_fit, perform as perform_on, step as step_of, view_asked};
ghost use Rattle.protocol.specs.Runs.{step_of as step_in};
ghost use Rattle.codec.specs.Images.{decode};
ghost use Rattle.image.specs.Steps.{step_on};
ghost use Rattle.mail.specs.Images.{Legible, Does};

use super::clients::{begins, gives_up};
use codec::layout::{Image, STEP};
use codec::records::read_step;
use deliveries::servers::{deliver, false_answer, fault};
use fields::check::fields_fit;
use mail::Stepped;
use protocol::{Operation, Refusal, ServerNumber, ServerSet, Step, StepKind, View};
use readable::readable::scanned;
use takes::take::take;
use view_changes::restarts::restarts;
use view_changes::views::new_view;

// "new view: f, value (member bits)", and the read size "in its who"; likewise a restart.
fn view_asked(st: Step) -> View
    ensures { result ≡ view_asked st }
{
    View {
        members: ServerSet(st.value),
        f: st.f,
        r: st.who,
    }
}

// "1 write ... 2 read ... 3 deliver ... 4 take ... 5 fault ... 6 false answer ... 7 new view"; 8, giving up; 9, the administrator
// restarted. Check 3 has passed, so that the kind is one of these.
fn perform(image: &mut Image, st: Step) -> Stepped
    requires { Legible image.old × (fields_fit st ≡ true) }
    ensures { Does result image.old image.new (perform_on (decode image.old) st) }
{
    let Ok(kind) = StepKind::try_from(st.kind) else {
        return Err(Refusal::Unfit);
    };
    let server = ServerNumber(st.who);
    match kind {
        StepKind::Write => begins(image, st.who, u8::from(Operation::Write), st.value),
        StepKind::Read => begins(image, st.who, u8::from(Operation::Read), 0),
        StepKind::Deliver => deliver(image, server, st.message),
        StepKind::Take => take(image, st.message),
        StepKind::Fault => fault(image, server),
        StepKind::FalseAnswer => false_answer(image, server, st.view, st.message, st.source),
        StepKind::NewView => new_view(image, view_asked(st)),
        StepKind::GiveUp => gives_up(image, st.who),
        StepKind::Restart => restarts(image, view_asked(st)),
    }
}

// A step on a readable image, which stays readable.
pub fn advance(image: &mut Image, bytes: &[u8; STEP]) -> Stepped
    requires { Legible image.old }
    ensures { Does result image.old image.new (step_of (decode image.old) (step_in bytes.now)) }
{
    let st = read_step(bytes);
    if !fields_fit(st) {
        return Err(Refusal::Unfit);
    }
    perform(image, st)
}

// A step on the bytes of an image: "2, unreadable; 3 ... Then by kind".
fn tested(image: &mut Image, bytes: &[u8; STEP]) -> Stepped
    ensures { Does result image.old image.new (step_on image.old bytes.now) }
{
    if !scanned(image) {
        return Err(Refusal::Unreadable);
    }
    advance(image, bytes)
}

// "Any step: 1, image or step of wrong length; 2, unreadable; 3 ... Then by kind": for every image and every step.
pub fn step(image: &mut [u8], bytes: &[u8]) -> Stepped
    ensures { Does result image.old image.new (step_on image.old bytes.now) }
{
    let Some(image) = image.as_mut_array() else {
        return Err(Refusal::WrongLength);
    };
    let Some(bytes) = bytes.as_array() else {
        return Err(Refusal::WrongLength);
    };
    tested(image, bytes)
}
