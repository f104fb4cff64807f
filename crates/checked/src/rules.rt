// What a host calls: each rule of one machine, 3 for a record out of range, then as its step.
// Each is its own function: the records and their ranges are of another machine, and only the refusal 3 is common.
ghost use Rattle.std.specs.Prelude.{◌≡◌, ◌&&◌};
ghost use Rattle.protocol.specs.Tools.{guard, number_of};
ghost use Rattle.protocol.specs.Refusals.{code, outcome, outcome_by};
ghost use Rattle.protocol.specs.Clients.{begin, closing, bare_fits};
ghost use Rattle.protocol.specs.Kinds.{operation_code};
ghost use Rattle.checked.specs.Ranges.{client_in_range, number_fits};
ghost use Rattle.checked.specs.Rules.{serve_rule, false_answer_rule, write_rule, read_rule, give_up_rule, take_rule, close_number_fits, close_rule, call_rule, restart_rule, advance_rule};

use super::ranges;
use protocol::limits::{CLIENTS, MESSAGES, VIEWS};
use protocol::{
    Administrator, Client, Closing, Entry, Message, MessageKind, MessageNumber, Operation, Phase,
    Refusal, Reply, Server, ServerSet, View, ViewNumber,
};
use values::entries;

// A message reaches a server: 3, 5, 6, 7.
#[tactic(auto, using(crate::specs::Ranges::message_view, server_rules::specs::Servers::serve_in_lem), unfolding(crate::specs::Rules::serve_rule, protocol::specs::Tools::guard))]
#[inline(always)]
pub fn serve_rule(a: Server, m: Message, member: bool) -> Result<Reply, Refusal>
    ensures { outcome result ≡ serve_rule a m member }
{
    if !ranges::server_in_range(a) || !ranges::message_in_range(m) {
        return Err(Refusal::Unfit);
    }
    server_rules::serve(a, m, member)
}

// Whether a faulty server may answer a request with view t: 3, 5, 6, 9.
#[tactic(auto, unfolding(crate::specs::Rules::false_answer_rule, protocol::specs::Tools::guard))]
pub fn false_answer_rule(a: Server, t: ViewNumber, m: Message, source: bool) -> Result<(), Refusal>
    ensures { code result ≡ number_of (false_answer_rule a t.0 m source) }
{
    if !ranges::server_in_range(a)
        || !ranges::message_in_range(m)
        || !records::view_within(t, ViewNumber(VIEWS))
    {
        return Err(Refusal::Unfit);
    }
    server_rules::may_answer(a, t, m, source)
}

// A client begins an operation with its READ, number n: 3, 4.
#[tactic(auto, unfolding(protocol::specs::Tools::guard))]
fn begin_rule(
    c: Client,
    operation: Operation,
    value: u32,
    n: MessageNumber,
) -> Result<Client, Refusal>
    ensures { outcome result ≡ guard (client_in_range c && number_fits n.0) 3 (begin c (operation_code operation) value n.0) }
{
    if !ranges::client_in_range(c) || !ranges::number_fits(n) {
        return Err(Refusal::Unfit);
    }
    client_rules::begin(c, u8::from(operation), value, n)
}

// A client begins a write of a value with its READ, number n: 3, 4.
#[tactic(auto, unfolding(crate::specs::Rules::write_rule))]
pub fn write_rule(c: Client, value: u32, n: MessageNumber) -> Result<Client, Refusal>
    ensures { outcome result ≡ write_rule c value n.0 }
{
    begin_rule(c, Operation::Write, value, n)
}

// A client begins a read with its READ, number n: 3, 4.
#[tactic(auto, unfolding(crate::specs::Rules::read_rule))]
pub fn read_rule(c: Client, n: MessageNumber) -> Result<Client, Refusal>
    ensures { outcome result ≡ read_rule c n.0 }
{
    begin_rule(c, Operation::Read, 0, n)
}

// A client gives its operation up: 3, 12.
#[tactic(auto, unfolding(crate::specs::Rules::give_up_rule, protocol::specs::Tools::guard))]
pub fn give_up_rule(c: Client) -> Result<Client, Refusal>
    ensures { outcome result ≡ give_up_rule c }
{
    if !ranges::client_in_range(c) {
        return Err(Refusal::Unfit);
    }
    client_rules::give_up(c)
}

// Whether a message is an answer that may be taken, r being the request that waits, or 0: 3; 5, not an answer; 7, taken before,
// or of another request.
#[tactic(auto, unfolding(crate::specs::Rules::take_rule, protocol::specs::Tools::guard))]
pub fn take_rule(m: Message, r: MessageNumber) -> Result<(), Refusal>
    ensures { code result ≡ number_of (take_rule m r.0) }
{
    if !ranges::message_in_range(m) || r.0 > MESSAGES {
        return Err(Refusal::Unfit);
    }
    if !m.is(MessageKind::Answer) {
        return Err(Refusal::NoMessage);
    }
    if m.taken || m.request != r {
        return Err(Refusal::NotApplicable);
    }
    Ok(())
}

// The number of the message that closing a phase sends, where it sends one.
fn close_number_fits(c: Client, one: bool, n: MessageNumber) -> bool
    ensures { result ≡ close_number_fits c one n.0 }
{
    !matches!(c.phase, Phase::Reading(_)) || client_rules::once(c, one) || ranges::number_fits(n)
}

// A phase of client number who closes with the entry e; one says whether all answers of the chosen view carry it and the view
// permits one exchange, and the WRITE that closing READ sends has the number n: 3, 7, 11.
#[tactic(auto, unfolding(crate::specs::Rules::close_rule, protocol::specs::Tools::guard))]
pub fn close_rule(
    c: Client,
    who: u8,
    e: Entry,
    one: bool,
    n: MessageNumber,
) -> Result<Closing, Refusal>
    ensures { outcome_by closing result ≡ close_rule c who e one n.0 }
{
    if !ranges::client_in_range(c)
        || !(1..=CLIENTS).contains(&who)
        || !entries::entry_fits(e)
        || !close_number_fits(c, one, n)
    {
        return Err(Refusal::Unfit);
    }
    client_rules::close(c, who, e, one, n)
}

// The administrator calls a new view with END of the newest, number n: 3, 4, 8.
#[tactic(auto, unfolding(crate::specs::Rules::call_rule, protocol::specs::Tools::guard))]
pub fn call_rule(a: Administrator, v: View, n: MessageNumber) -> Result<Administrator, Refusal>
    ensures { outcome result ≡ call_rule a v n.0 }
{
    if !ranges::administrator_in_range(a) || !ranges::number_fits(n) {
        return Err(Refusal::Unfit);
    }
    administrator_rules::call(a, v, n)
}

// Without member bits a restart names neither f nor a read size.
fn bare_fits(v: View) -> bool
    ensures { result ≡ bare_fits v }
{
    v.members != ServerSet(0) || v.f == 0 && v.r == 0
}

// The administrator restarted: 3, 7, nothing is being ended; 8.
#[tactic(auto, unfolding(crate::specs::Rules::restart_rule, protocol::specs::Tools::guard))]
pub fn restart_rule(a: Administrator, v: View) -> Result<Administrator, Refusal>
    ensures { outcome result ≡ restart_rule a v }
{
    if !ranges::administrator_in_range(a) || !bare_fits(v) {
        return Err(Refusal::Unfit);
    }
    administrator_rules::restart(a, v)
}

// END closes, and the called view becomes the newest: 3, 7, not ending.
#[tactic(auto, using(crate::specs::Ranges::ending_newest, administrator_rules::specs::Advances::advance_in_lem), unfolding(crate::specs::Rules::advance_rule, protocol::specs::Tools::guard))]
pub fn advance_rule(a: Administrator) -> Result<Administrator, Refusal>
    ensures { outcome result ≡ advance_rule a }
{
    if !ranges::administrator_in_range(a) {
        return Err(Refusal::Unfit);
    }
    a.ending.ok_or(Refusal::NotApplicable)?;
    administrator_rules::advance(a)
}
