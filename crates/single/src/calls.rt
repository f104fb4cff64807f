// The calls of single machines: a record and what is asked of it, as lent bytes. They stay three functions: only that both are made
// arrays is common, and the records, their order of bytes and the spare ones are each machine's own.
ghost use Rattle.std.specs.Prelude.{◌≡◌};
ghost use Rattle.protocol.specs.Refusals.{outcome, outcome_by};
ghost use Rattle.protocol.specs.Clients.{closing};
ghost use Rattle.single.specs.Calls.{server_call, client_call, administrator_call};

use super::rules::{administrator_asked, client_asked, server_asked};
use codec::bytes::{array_at, get16};
use codec::layout::{ENTRY, MESSAGE, U8, U16, VIEW};
use codec::records::{
    administrator_plain, client_plain, entry_plain, message_plain, read_administrator, read_client,
    read_entry, read_message, read_server, read_view, server_plain, view_plain,
};
use protocol::{Administrator, Closing, MessageNumber, Refusal, Reply};

// What is asked begins with four bytes of its own: the rule, three more by the machine.
const RULE_AT: usize = 0;

const FLAG_AT: usize = 1;

const VIEW_AT: usize = 2;

const SERVER_SPARE_AT: usize = 3;

const CLIENT_AT: usize = 1;

const NUMBER_AT: usize = 2;

const ADMINISTRATOR_SPARE_AT: usize = 1;

const ASKED: usize = NUMBER_AT + U16;

// What is asked of a client ends with a flag: all answers of the chosen view carry the entry, and the view permits one exchange.
const ONE_AT: usize = ASKED + ENTRY;

// The width of what is asked, by the machine.
const SERVER_CALL: usize = ASKED + MESSAGE;

const CLIENT_CALL: usize = ONE_AT + U8;

const ADMINISTRATOR_CALL: usize = ASKED + VIEW;

// "rule u8, flag u8, view u8, 1 zero, message"
#[tactic(auto, unfolding(crate::specs::Calls::server_call, protocol::specs::Tools::guard))]
pub fn server_call(server: &[u8], call: &[u8]) -> Result<Reply, Refusal>
    ensures { outcome result ≡ server_call server.now call.now }
{
    let Some(server) = server.as_array() else {
        return Err(Refusal::WrongLength);
    };
    let Some(call) = call.as_array::<SERVER_CALL>() else {
        return Err(Refusal::WrongLength);
    };
    let asked = array_at::<MESSAGE>(call, ASKED);
    if !server_plain(server) || call[SERVER_SPARE_AT] != 0 || !message_plain(asked) {
        return Err(Refusal::Unfit);
    }
    let a = read_server(server);
    let m = read_message(asked);
    server_asked(a, m, call[RULE_AT], call[FLAG_AT], call[VIEW_AT])
}

// "rule u8, client u8, number u16, entry, one u8"
#[tactic(auto, unfolding(crate::specs::Calls::client_call, protocol::specs::Tools::guard))]
pub fn client_call(client: &[u8], call: &[u8]) -> Result<Closing, Refusal>
    ensures { outcome_by closing result ≡ client_call client.now call.now }
{
    let Some(client) = client.as_array() else {
        return Err(Refusal::WrongLength);
    };
    let Some(call) = call.as_array::<CLIENT_CALL>() else {
        return Err(Refusal::WrongLength);
    };
    let asked = array_at::<ENTRY>(call, ASKED);
    if !client_plain(client) || !entry_plain(asked) {
        return Err(Refusal::Unfit);
    }
    let c = read_client(client);
    let e = read_entry(asked);
    let n = MessageNumber(get16(call, NUMBER_AT));
    client_asked(c, call[RULE_AT], call[CLIENT_AT], n, e, call[ONE_AT])
}

// "rule u8, 1 zero, number u16, view"
#[tactic(auto, unfolding(crate::specs::Calls::administrator_call, protocol::specs::Tools::guard))]
pub fn administrator_call(administrator: &[u8], call: &[u8]) -> Result<Administrator, Refusal>
    ensures { outcome result ≡ administrator_call administrator.now call.now }
{
    let Some(administrator) = administrator.as_array() else {
        return Err(Refusal::WrongLength);
    };
    let Some(call) = call.as_array::<ADMINISTRATOR_CALL>() else {
        return Err(Refusal::WrongLength);
    };
    let asked = array_at::<VIEW>(call, ASKED);
    if !administrator_plain(administrator)
        || call[ADMINISTRATOR_SPARE_AT] != 0
        || !view_plain(asked)
    {
        return Err(Refusal::Unfit);
    }
    let a = read_administrator(administrator);
    let v = read_view(asked);
    let n = MessageNumber(get16(call, NUMBER_AT));
    administrator_asked(a, call[RULE_AT], n, v)
}
