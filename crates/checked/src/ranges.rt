// The ranges of single records, for a machine that knows no newest view.
ghost use Rattle.std.specs.Prelude.{◌≡◌};
ghost use Rattle.checked.specs.Ranges.{number_fits, server_in_range, message_in_range, client_in_range, ending_in_range, administrator_in_range};

use protocol::limits::{MESSAGES, VIEWS};
use protocol::{Administrator, Client, Message, MessageNumber, Phase, Server, ViewNumber};

// The number of a message: 1 to 1,023.
#[tactic(auto, unfolding(crate::specs::Ranges::number_fits))]
pub fn number_fits(n: MessageNumber) -> bool
    ensures { result ≡ number_fits n.0 }
{
    records::number_within(n, MESSAGES)
}

// A server: its view is at most 32, a correct one has no key but its own view's, and its entry fits.
#[tactic(auto, unfolding(crate::specs::Ranges::server_in_range))]
pub fn server_in_range(a: Server) -> bool
    ensures { result ≡ server_in_range a }
{
    records::server_fits(a, ViewNumber(VIEWS))
}

// A message of kind 1 to 5: its view is at most 32, its next at most 1,023, and the request of an answer is a message's number.
#[tactic(auto, unfolding(crate::specs::Ranges::message_in_range))]
#[inline(always)]
pub fn message_in_range(m: Message) -> bool
    ensures { result ≡ message_in_range m }
{
    m.next.0 <= MESSAGES && records::message_fits(m, ViewNumber(VIEWS), number_fits(m.request))
}

// A client.
#[tactic(auto, unfolding(crate::specs::Ranges::client_in_range))]
pub fn client_in_range(c: Client) -> bool
    ensures { result ≡ client_in_range c }
{
    records::client_range(c)
        && match c.phase {
            Phase::Idle => records::idle_fits(c),
            Phase::Reading(n) => records::reading_fits(c, number_fits(n)),
            Phase::Writing(n) => records::kind_fits(c.kind) && number_fits(n),
        }
}

// The administrator's END, if it sent one: then the newest view is below 32, and the END number is a message's.
#[tactic(auto, unfolding(crate::specs::Ranges::end_fits))]
fn ending_in_range(newest: ViewNumber, ending: Option<MessageNumber>) -> bool
    ensures { result ≡ ending_in_range newest.0 ending }
{
    match ending {
        None => true,
        Some(n) => newest.0 < VIEWS && number_fits(n),
    }
}

// The administrator.
#[tactic(auto, unfolding(crate::specs::Ranges::administrator_in_range))]
pub fn administrator_in_range(a: Administrator) -> bool
    ensures { result ≡ administrator_in_range a }
{
    records::view_within(a.newest, ViewNumber(VIEWS)) && ending_in_range(a.newest, a.ending)
}
