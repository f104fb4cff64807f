// The rules of one client.
#![tactic(auto)]

ghost use Rattle.std.specs.Prelude.{◌≡◌};
ghost use Rattle.protocol.specs.Refusals.{outcome, outcome_by};
ghost use Rattle.protocol.specs.Clients.{begin, give_up, close_size, count_left, write_next, complete_with, once, close, closing};
ghost use Rattle.client_rules.specs.Counts.{count_next};

use protocol::kinds::NONE;
use protocol::{
    Client, Closing, Entry, MessageNumber, Operation, Phase, Refusal, StampCount, View,
};
use values::{entries, sizes};

// The answers that close a phase.
pub fn close_size(p: Phase, v: View) -> u32
    ensures { result ≡ close_size p v }
{
    match p {
        Phase::Reading(_) => sizes::read_size(v),
        Phase::Idle | Phase::Writing(_) => sizes::write_size(v),
    }
}

// An operation begins, kind 1 a write of the value or 2 a read, with its READ, number n. 4, client not idle.
// The kind is a number: the enum would ask more of callers.
#[tactic(auto, unfolding(protocol::specs::Clients::begin, protocol::specs::Tools::guard))]
pub fn begin(c: Client, kind: u8, value: u32, n: MessageNumber) -> Result<Client, Refusal>
    ensures { outcome result ≡ begin c kind value n.0 }
{
    if !c.phase.is_idle() {
        return Err(Refusal::Busy);
    }
    let entry = entries::entry_of(StampCount(0), 0, value);
    Ok(Client {
        phase: Phase::Reading(n),
        kind,
        entry,
        ..c
    })
}

// A client gives its operation up: its phase is idle, and it keeps the largest count that it gave. 12, the client is idle.
#[tactic(auto, unfolding(protocol::specs::Clients::give_up, protocol::specs::Tools::guard))]
pub fn give_up(c: Client) -> Result<Client, Refusal>
    ensures { outcome result ≡ give_up c }
{
    if c.phase.is_idle() {
        return Err(Refusal::Idle);
    }
    Ok(Client {
        phase: Phase::Idle,
        kind: NONE,
        entry: Entry::default(),
        ..c
    })
}

// The count of a write of its own: one above the larger of the count read and the largest that this client ever gave one.
// None, no count is left.
#[tactic(auto, unfolding(protocol::specs::Clients::next_count))]
fn next_count(c: Client, e: Entry) -> Option<StampCount>
    ensures { result ≡ count_next c e }
{
    let before = e.stamp.count.0.max(c.given.0);
    before.checked_add(1).map(StampCount)
}

// Whether the count that a closing write needs is left.
#[tactic(auto, unfolding(protocol::specs::Clients::count_left))]
pub fn count_left(c: Client, e: Entry) -> bool
    ensures { result ≡ count_left c e }
{
    !c.is_on(Operation::Write) || next_count(c, e).is_some()
}

// READ closed with the entry e: the WRITE, number n, is next. A reader writes e back, a writer its value with the next count.
// 11, the closing write would need a count over 4,294,967,295.
#[tactic(auto, unfolding(protocol::specs::Clients::count_left, protocol::specs::Clients::to_write, protocol::specs::Clients::given_by, protocol::specs::Tools::guard))]
fn write_next(c: Client, who: u8, e: Entry, n: MessageNumber) -> Result<Closing, Refusal>
    ensures { outcome_by closing result ≡ write_next c who e n.0 }
{
    let phase = Phase::Writing(n);
    let next = if c.is_on(Operation::Write) {
        let count = next_count(c, e).ok_or(Refusal::NoCount)?;
        Client {
            phase,
            entry: entries::entry_of(count, who, c.entry.value),
            given: count,
            ..c
        }
    } else {
        Client {
            phase,
            entry: e,
            ..c
        }
    };
    Ok(Closing::WritesNext(next))
}

// The operation is complete, and e is its result.
fn complete(c: Client, e: Entry) -> Closing
    ensures { closing result ≡ complete_with c e }
{
    Closing::Completed(Client {
        phase: Phase::Idle,
        entry: e,
        ..c
    })
}

// Whether a READ phase that closes completes its operation: it is a read, and all answers carry one entry.
pub fn once(c: Client, one: bool) -> bool
    ensures { result ≡ once c one }
{
    c.is_on(Operation::Read) && one
}

// A phase of client number who closes with the entry e; one says whether all answers of the chosen view carry it. 7, no phase
// is open; 11.
#[tactic(auto, unfolding(protocol::specs::Clients::close))]
pub fn close(c: Client, who: u8, e: Entry, one: bool, n: MessageNumber) -> Result<Closing, Refusal>
    ensures { outcome_by closing result ≡ close c who e one n.0 }
{
    match c.phase {
        Phase::Idle => Err(Refusal::NotApplicable),
        Phase::Reading(_) if once(c, one) => Ok(complete(c, e)),
        Phase::Reading(_) => write_next(c, who, e, n),
        Phase::Writing(_) => Ok(complete(c, c.entry)),
    }
}
