// The rules of the administrator.
#![tactic(auto)]

ghost use Rattle.std.specs.Prelude.{◌≡◌};
ghost use Rattle.protocol.specs.Refusals.{outcome};
ghost use Rattle.protocol.specs.Clients.{call, restart};
ghost use Rattle.administrator_rules.specs.Advances.{advance_in};

use protocol::limits::VIEWS;
use protocol::{Administrator, MessageNumber, Refusal, ServerSet, View, ViewNumber};
use values::sizes;

// A new view is called: END of the newest is sent, number n. 4, ending; 8, size rule broken or newest is 32.
#[tactic(auto, unfolding(protocol::specs::Clients::call, protocol::specs::Tools::guard))]
pub fn call(a: Administrator, v: View, n: MessageNumber) -> Result<Administrator, Refusal>
    ensures { outcome result ≡ call a v n.0 }
{
    if a.ending.is_some() {
        return Err(Refusal::Busy);
    }
    if !sizes::sized(v) || a.newest.0 >= VIEWS {
        return Err(Refusal::WrongSize);
    }
    Ok(Administrator {
        ending: Some(n),
        ..a
    })
}

// It restarted, and its record stays as it is; v is the new pending view, or has no members. 7, nothing is being ended; 8, size
// rule broken.
#[tactic(auto, unfolding(protocol::specs::Clients::restart, protocol::specs::Tools::guard))]
pub fn restart(a: Administrator, v: View) -> Result<Administrator, Refusal>
    ensures { outcome result ≡ restart a v }
{
    if a.ending.is_none() {
        return Err(Refusal::NotApplicable);
    }
    if v.members != ServerSet(0) && !sizes::sized(v) {
        return Err(Refusal::WrongSize);
    }
    Ok(a)
}

// END closes: the next view becomes the newest. 3, there is no view after it.
#[tactic(auto, unfolding(crate::specs::Advances::advance_in, protocol::specs::Clients::advance, protocol::specs::Tools::guard))]
pub fn advance(a: Administrator) -> Result<Administrator, Refusal>
    ensures { outcome result ≡ advance_in a }
{
    if a.newest.0 >= VIEWS {
        return Err(Refusal::Unfit);
    }
    Ok(Administrator {
        newest: ViewNumber(a.newest.0 + 1),
        ending: None,
    })
}
