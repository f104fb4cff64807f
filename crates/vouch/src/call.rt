// The two choices on lent bytes: for every list of answers and every number.
ghost use Rattle.protocol.specs.Refusals.{code};
ghost use Rattle.vouch.specs.Checks.{qualified, vouch_on, threshold_on, Leaves};

use super::answers::ANSWER;
use super::checks::{largest_fits, list_fits};
use super::choice::{best, candidate, standing};
use codec::layout::ENTRY;
use codec::records::write_entry;
use protocol::{Entry, Refusal};

// The entry chosen is written; 16, no entry qualifies.
#[tactic(auto, using(codec::specs::Lists::put_all, codec::specs::Records::length_entry_bytes))]
fn write_choice(room: &mut [u8; ENTRY], chosen: Option<Entry>) -> Result<(), Refusal>
    ensures { Leaves (code result) room.new room.old (qualified chosen) }
{
    let Some(e) = chosen else {
        return Err(Refusal::Unvouched);
    };
    write_entry(room, 0, e);
    Ok(())
}

// The first choice: 1, 14, 16.
#[tactic(auto, unfolding(crate::specs::Checks::vouch_on, protocol::specs::Tools::guard))]
pub fn vouch(answers: &[u8], n: u32, b: u32, room: &mut [u8]) -> Result<(), Refusal>
    ensures { Leaves (code result) room.new room.old (vouch_on answers.now n b room.old) }
{
    let Some(room) = room.as_mut_array() else {
        return Err(Refusal::WrongLength);
    };
    if answers.len() % ANSWER != 0 {
        return Err(Refusal::WrongLength);
    }
    if !list_fits(answers, n, b) {
        return Err(Refusal::Malformed);
    }
    let c = b as u64 + 1;
    write_choice(room, best(answers, |e| candidate(answers, c, e)))
}

// The second choice, for thresholds; largest is the largest permitted b: 1, 14, 16. A call of its own, with a clause of 14 and a test
// that the first has not.
#[tactic(auto, unfolding(crate::specs::Checks::threshold_on, protocol::specs::Tools::guard))]
pub fn vouch_threshold(
    answers: &[u8],
    n: u32,
    b: u32,
    largest: u32,
    room: &mut [u8],
) -> Result<(), Refusal>
    ensures { Leaves (code result) room.new room.old (threshold_on answers.now n b largest room.old) }
{
    let Some(room) = room.as_mut_array() else {
        return Err(Refusal::WrongLength);
    };
    if answers.len() % ANSWER != 0 {
        return Err(Refusal::WrongLength);
    }
    if !list_fits(answers, n, b) || !largest_fits(n, b, largest) {
        return Err(Refusal::Malformed);
    }
    let c = largest as u64 + 1;
    write_choice(room, best(answers, |e| standing(answers, c, e)))
}
