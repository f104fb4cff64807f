// The C interface. Every answer is refusal + 256 * result, which each call puts together from its own answer.
#![tactic(auto)]

ghost use Rattle.std.specs.Prelude.{◌≡◌, ◌+◌, ◌*◌, ◌%◌, ◌^◌, length};
ghost use Rattle.protocol.specs.Sizes.{quorum_size};
ghost use Rattle.image.specs.Fresh.{fresh_on};
ghost use Rattle.image.specs.Premise.{premise_on};
ghost use Rattle.image.specs.Steps.{step_on, left_by, answered, replay_on, resume_on};
ghost use Rattle.loads.specs.Load.{load_on};
ghost use Rattle.judging.specs.Verdict.{judged, listed_in, operations_in};
ghost use Rattle.journal.specs.Replays.{stopped_by};
ghost use Rattle.shorten.specs.Journals.{shorten_on};
ghost use Rattle.phases.specs.Calls.{open_on, Opens, answer_on, given_code};
ghost use Rattle.vouch.specs.Checks.{vouch_on, threshold_on, Leaves};
ghost use Rattle.zemawulo.specs.Answers.{packed, sizes_in, flagged, packed_replay, number_or_zero, first_in, watch_lent, Gives};
ghost use Rattle.single.specs.Calls.{server_call, replied, server_left, client_call, completed, client_left, administrator_call, accepted, administrator_left};

use codec::bytes::put32;
use codec::layout::U32;
use codec::records::{write_administrator, write_client, write_server};
use image::fresh::fresh;
use image::premise::premise;
use journal::replay::{replay, resume};
use journal::watch::watch;
use journal::{Replayed, Watched};
use judging::judge::judge;
use loads::journal::load;
use phases::call::{answer, open};
use protocol::refusals::code;
use protocol::{Closing, MessageNumber, Refusal, ViewNumber};
use shorten::shorten::shorten;
use single::calls::{administrator_call, client_call, server_call};
use values::sizes::quorum_size;
use vouch::call::{vouch, vouch_threshold};
use world::step::step;

// "Fresh world (member bits, f)", and r: refusal.
#[unsafe(no_mangle)]
pub extern "C" fn zw_fresh(image: &mut [u8], members: u32, f: u8, r: u8) -> u64
    ensures { (result ≡ (fresh_on image.old members f r).refusal) × (image.new ≡ (fresh_on image.old members f r).image) }
{
    code(fresh(image, members, f, r)) as u64
}

// "Quorum size takes r and returns both": refusal, read size + 256 * write size.
#[unsafe(no_mangle)]
pub extern "C" fn zw_quorum(n: u32, f: u32, r: u32) -> u64
    ensures { result ≡ packed (sizes_in (quorum_size n f r)) }
{
    match quorum_size(n, f, r) {
        Ok(size) => 256 * (size.read as u64 + 256 * size.write as u64),
        Err(refusal) => refusal.number() as u64,
    }
}

// "Any step": refusal, the client whose operation completed or 0.
#[unsafe(no_mangle)]
pub extern "C" fn zw_step(image: &mut [u8], bytes: &[u8]) -> u64
    ensures { (result ≡ packed (answered (step_on image.old bytes.now)))
        × (image.new ≡ left_by image.old (step_on image.old bytes.now)) }
{
    match step(image, bytes) {
        Ok(Some(client)) => 256 * client as u64,
        Ok(None) => 0,
        Err(refusal) => refusal.number() as u64,
    }
}

// "Premise report": refusal, 1 if it holds.
#[unsafe(no_mangle)]
pub extern "C" fn zw_premise(image: &[u8]) -> u64
    ensures { result ≡ packed (flagged (premise_on image.now)) }
{
    match premise(image) {
        Ok(holds) => 256 * holds as u64,
        Err(refusal) => refusal.number() as u64,
    }
}

// What is left of an answer beside the refusal: 2^56. No journal that fits a memory has as many steps.
const STEPS: u64 = 72057594037927936;

// The number of what stopped a replay, or 0.
fn stopped_by(done: Replayed) -> u8
    ensures { result ≡ stopped_by done.refusal }
{
    match done.refusal {
        Some(refusal) => refusal.number(),
        None => 0,
    }
}

// The answer of a replay: what stopped it, and its steps in what is left.
fn packed_replay(done: Replayed) -> u64
    ensures { result ≡ stopped_by done.refusal + 256 * (done.steps % 2 ^ 56) }
{
    stopped_by(done) as u64 + 256 * (done.steps as u64 % STEPS)
}

// "Replay (image, journal)": refusal, steps done.
#[unsafe(no_mangle)]
pub extern "C" fn zw_replay(image: &mut [u8], journal: &[u8]) -> u64
    ensures { (result ≡ packed_replay (replay_on image.old journal.now))
        × (image.new ≡ (replay_on image.old journal.now).image) }
{
    packed_replay(replay(image, journal))
}

// The length of the buffer for the step that a watched replay names, and how far its lower half counts.
const FIRST: usize = 2 * U32;

const HALF: u64 = 4294967296;

// The step named by a replay that was watched, unless it was refused with 1 or 2. By the number: with a pattern on the refusal the
// check does not find the equation of the bytes.
fn write_first(first: &mut [u8; FIRST], done: Watched)
    ensures { first.new ≡ first_in first.old (stopped_by done.replayed.refusal) (number_or_zero done.first) }
{
    let stop = stopped_by(done.replayed);
    if stop == 1 || stop == 2 {
        return;
    }
    let n = done.first.unwrap_or(0) as u64;
    put32(first, 0, (n % HALF) as u32);
    put32(first, U32, (n / HALF) as u32);
}

// "A second form of replay also names ... the first accepted step after which the premise does not hold, or 0": refusal, steps
// done; the step named is written as a u64.
#[unsafe(no_mangle)]
pub extern "C" fn zw_watch(image: &mut [u8], journal: &[u8], first: &mut [u8]) -> u64
    ensures { (result ≡ packed_replay (watch_lent image.old journal.now first.old).played)
        × (image.new ≡ (watch_lent image.old journal.now first.old).played.image)
        × (first.new ≡ (watch_lent image.old journal.now first.old).first) }
{
    let Some(first) = first.as_mut_array() else {
        return Refusal::WrongLength.number() as u64;
    };
    let done = watch(image, journal);
    write_first(first, done);
    packed_replay(done.replayed)
}

// "The rest of the journal after the last accepted step can be replayed": what is left of it after its first steps. Refusal,
// steps done; 1, it has fewer.
#[unsafe(no_mangle)]
pub extern "C" fn zw_resume(image: &mut [u8], journal: &[u8], steps: u64) -> u64
    ensures { (result ≡ packed_replay (resume_on image.old journal.now steps))
        × (image.new ≡ (resume_on image.old journal.now steps).image) }
{
    packed_replay(resume(image, journal, steps as usize))
}

// "From a seed (u32) and a number of steps, write a journal": refusal.
#[unsafe(no_mangle)]
pub extern "C" fn zw_load(journal: &mut [u8], seed: u32, steps: u32) -> u64
    ensures { (result ≡ (load_on journal.old seed steps).refusal) × (journal.new ≡ (load_on journal.old seed steps).journal) }
{
    code(load(journal, seed, steps)) as u64
}

// "Tell whether an order exists": refusal, operations in the order.
#[unsafe(no_mangle)]
pub extern "C" fn zw_judge(log: &[u8], order: &mut [u8]) -> u64
    ensures { (result ≡ packed (operations_in (judged log.now (length order.old))))
        × (order.new ≡ listed_in order.old (judged log.now (length order.old))) }
{
    match judge(log, order) {
        Ok(operations) => 256 * operations as u64,
        Err(refusal) => refusal.number() as u64,
    }
}

// "The short journal behind a refusal": refusal, the number of its steps.
#[unsafe(no_mangle)]
pub extern "C" fn zw_shorten(
    image: &mut [u8],
    members: u32,
    f: u8,
    r: u8,
    journal: &[u8],
    shorter: &mut [u8],
) -> u64
    ensures { (result ≡ packed (shorten_on image.old members f r journal.now shorter.old).answer)
        × (image.new ≡ (shorten_on image.old members f r journal.now shorter.old).image)
        × (shorter.new ≡ (shorten_on image.old members f r journal.now shorter.old).shorter) }
{
    match shorten(image, members, f, r, journal, shorter) {
        Ok(steps) => 256 * steps as u64,
        Err(refusal) => refusal.number() as u64,
    }
}

// Entries without a signature, the first choice: refusal. The entry is written when done.
#[unsafe(no_mangle)]
pub extern "C" fn zw_vouch(answers: &[u8], n: u32, b: u32, room: &mut [u8]) -> u64
    ensures { Leaves result room.new room.old (vouch_on answers.now n b room.old) }
{
    code(vouch(answers, n, b, room)) as u64
}

// The second choice, for thresholds: refusal. The entry is written when done.
#[unsafe(no_mangle)]
pub extern "C" fn zw_vouch_threshold(
    answers: &[u8],
    n: u32,
    b: u32,
    largest: u32,
    room: &mut [u8],
) -> u64
    ensures { Leaves result room.new room.old (threshold_on answers.now n b largest room.old) }
{
    code(vouch_threshold(answers, n, b, largest, room)) as u64
}

// A server's rule on its record: refusal, 1 if it answers what reached it; 0 for a false answer.
#[unsafe(no_mangle)]
pub extern "C" fn zw_server(server: &mut [u8], call: &[u8]) -> u64
    ensures { (result ≡ packed (replied (server_call server.old call.now)))
        × (server.new ≡ server_left server.old (server_call server.old call.now)) }
{
    match server_call(server, call) {
        Ok(reply) => {
            write_server(server, 0, reply.server);
            256 * reply.answer.is_some() as u64
        }
        Err(refusal) => refusal.number() as u64,
    }
}

// A client's rule on its record: refusal, 1 if its operation is complete.
#[unsafe(no_mangle)]
pub extern "C" fn zw_client(client: &mut [u8], call: &[u8]) -> u64
    ensures { (result ≡ packed (completed (client_call client.old call.now)))
        × (client.new ≡ client_left client.old (client_call client.old call.now)) }
{
    match client_call(client, call) {
        Ok(Closing::WritesNext(c)) => {
            write_client(client, 0, c);
            0
        }
        Ok(Closing::Completed(c)) => {
            write_client(client, 0, c);
            256
        }
        Err(refusal) => refusal.number() as u64,
    }
}

// The administrator's rule on its record: refusal.
#[unsafe(no_mangle)]
pub extern "C" fn zw_administrator(administrator: &mut [u8], call: &[u8]) -> u64
    ensures { (result ≡ packed (accepted (administrator_call administrator.old call.now)))
        × (administrator.new ≡ administrator_left administrator.old (administrator_call administrator.old call.now)) }
{
    match administrator_call(administrator, call) {
        Ok(a) => {
            write_administrator(administrator, 0, a);
            0
        }
        Err(refusal) => refusal.number() as u64,
    }
}

// The record of a phase of a kind and its request, or of the END of a view, is opened: refusal.
#[unsafe(no_mangle)]
pub extern "C" fn zw_open(phase: &mut [u8], kind: u8, view: u8, request: u16) -> u64
    ensures { Opens result phase.new phase.old (open_on phase.old kind view request) }
{
    code(open(phase, kind, ViewNumber(view), MessageNumber(request))) as u64
}

// What an answer given to a phase comes to.
fn packed_answer(given: Result<Option<bool>, Refusal>) -> u64
    ensures { result ≡ packed (given_code given) }
{
    match given {
        Ok(None) => 0,
        Ok(Some(one)) => 256 + 256 * one as u64,
        Err(refusal) => refusal.number() as u64,
    }
}

// One answer is given to it: refusal; 0 it is open, 1 closed, 2 closed, and a read may end with it. The entry is written when
// closed.
#[unsafe(no_mangle)]
pub extern "C" fn zw_answer(phase: &mut [u8], call: &[u8], entry: &mut [u8]) -> u64
    ensures { Gives result phase.new entry.new phase.old entry.old (answer_on phase.old call.now entry.old) }
{
    packed_answer(answer(phase, call, entry))
}
