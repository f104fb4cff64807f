// The two calls on lent bytes, for every record and every answer.
// A number in range stays a number: a type for it would be made and taken apart at each call, with the same goal.
ghost use Rattle.std.specs.Prelude.{◌≡◌, ◌≤◌};
ghost use Rattle.protocol.specs.Tools.{number_of};
ghost use Rattle.protocol.specs.Refusals.{code};
ghost use Rattle.protocol.specs.Sizes.{views};
ghost use Rattle.phases.specs.Calls.{open_on, Opens, asked_plain, records_fit, may_take, Counted, Takes, taking, Writes, answer_by, answer_on, Answers};

use super::layout::{ASKED, HEAD, PHASE};
use super::phase_record::{
    Head, head_fits, load_head, load_tally, open_fits, store_head, store_tally, tally_fits,
};
use super::rules::{count_answer, record_closes};
use checked::{ranges, rules};
use codec::bytes::{array_at, clear, put_zeros};
use codec::layout::{ENTRY, MESSAGE};
use codec::records::{message_plain, read_message, read_view, view_plain, write_entry};
use protocol::{Choice, Message, MessageNumber, Refusal, View, ViewNumber};
use values::sizes;
use values::tally::Tally;

// A head is written in a record of which all else is zero: 3.
#[tactic(auto, using(crate::specs::Written::opened_put), unfolding(crate::specs::Calls::open_on, protocol::specs::Tools::guard))]
fn open_by(phase: &mut [u8; PHASE], h: Head) -> Result<(), Refusal>
    ensures { Opens (code result) phase.new phase.old (open_on phase.old h.kind h.view.0 h.request.0) }
{
    if !open_fits(h) {
        return Err(Refusal::Unfit);
    }
    clear(phase);
    store_head(phase, h);
    Ok(())
}

// Opens a phase of a kind and its request, or the END of a view: 1, 3. The kind may be any number, as a host hands it in.
#[tactic(auto, unfolding(crate::specs::Calls::open_on, protocol::specs::Tools::guard))]
pub fn open(
    phase: &mut [u8],
    kind: u8,
    view: ViewNumber,
    request: MessageNumber,
) -> Result<(), Refusal>
    ensures { Opens (code result) phase.new phase.old (open_on phase.old kind view.0 request.0) }
{
    let Some(phase) = phase.as_mut_array() else {
        return Err(Refusal::WrongLength);
    };
    let h = Head {
        kind,
        view,
        request,
    };
    open_by(phase, h)
}

// The spare bytes and flags of what is asked: an answer, then its view.
#[tactic(auto, unfolding(crate::specs::Calls::asked_plain))]
fn asked_plain(call: &[u8; ASKED]) -> bool
    ensures { result ≡ asked_plain call.now }
{
    message_plain(array_at(call, 0)) && view_plain(array_at(call, MESSAGE))
}

// The head, a message and the tally of its view are in their ranges.
#[tactic(auto, using(checked::specs::Ranges::message_view), unfolding(crate::specs::Calls::records_fit))]
fn records_fit(phase: &[u8; PHASE], m: Message) -> bool
    ensures { result ≡ records_fit phase.now m }
{
    head_fits(load_head(phase)) && ranges::message_in_range(m) && tally_fits(phase, m.view)
}

// Whether a message with its view may be taken: 3, 5, 7, 8.
#[tactic(auto, using(crate::proofs::Taking::rule_done), unfolding(crate::specs::Calls::may_take, protocol::specs::Tools::guard))]
fn may_take(phase: &[u8; PHASE], m: Message, v: View) -> Result<(), Refusal>
    ensures { code result ≡ number_of (may_take phase.now m v) }
{
    if !records_fit(phase, m) {
        return Err(Refusal::Unfit);
    }
    rules::take_rule(m, load_head(phase).request)?;
    if !sizes::sized(v) {
        return Err(Refusal::WrongSize);
    }
    Ok(())
}

// The tally of an answer's view with the answer, which is written.
fn count(phase: &mut [u8; PHASE], m: Message) -> Tally
    requires { (1 ≤ m.view.0) × (m.view.0 ≤ views) }
    ensures { Counted result phase.new phase.old m }
{
    let a = count_answer(load_tally(phase, m.view), m);
    store_tally(phase, m.view, a);
    a
}

// An answer with its view is taken; where it closes the phase nothing is open.
#[tactic(auto, unfolding(crate::specs::Calls::taking))]
fn take(phase: &mut [u8; PHASE], m: Message, v: View) -> Option<Choice>
    requires { (1 ≤ m.view.0) × (m.view.0 ≤ views) }
    ensures { Takes result phase.new (taking phase.old m v) }
{
    let h = load_head(phase);
    let a = count(phase, m);
    let x = record_closes(h, a, m.view, v)?;
    put_zeros(phase, 0, HEAD);
    Some(x)
}

// The entry of a phase that is closed.
#[tactic(auto, using(codec::specs::Lists::put_all, codec::specs::Records::length_entry_bytes))]
fn write_closed(entry: &mut [u8; ENTRY], closed: Option<Choice>) -> Option<bool>
    ensures { Writes result entry.new entry.old closed }
{
    let x = closed?;
    write_entry(entry, 0, x.entry);
    Some(x.one)
}

// The answer and its view may be taken, and are: 3, 5, 7, 8.
#[tactic(auto, using(crate::proofs::Taking::may_view, crate::proofs::Taking::told))]
fn answer_by(
    phase: &mut [u8; PHASE],
    m: Message,
    v: View,
    entry: &mut [u8; ENTRY],
) -> Result<Option<bool>, Refusal>
    ensures { Answers result phase.new entry.new phase.old entry.old (answer_by phase.old m v) }
{
    may_take(phase, m, v)?;
    Ok(write_closed(entry, take(phase, m, v)))
}

// One answer, with the view that it is tagged with, is given to a phase: 1, 3, 5, 7, 8. None, the phase is still open; else it
// is closed, and whether a read may end with it.
#[tactic(auto, unfolding(crate::specs::Calls::answer_on, protocol::specs::Tools::guard))]
pub fn answer(phase: &mut [u8], call: &[u8], entry: &mut [u8]) -> Result<Option<bool>, Refusal>
    ensures { Answers result phase.new entry.new phase.old entry.old (answer_on phase.old call.now entry.old) }
{
    let Some(call) = call.as_array() else {
        return Err(Refusal::WrongLength);
    };
    let Some(entry) = entry.as_mut_array() else {
        return Err(Refusal::WrongLength);
    };
    let Some(phase) = phase.as_mut_array() else {
        return Err(Refusal::WrongLength);
    };
    if !asked_plain(call) {
        return Err(Refusal::Unfit);
    }
    let m = read_message(array_at(call, 0));
    let v = read_view(array_at(call, MESSAGE));
    answer_by(phase, m, v, entry)
}
