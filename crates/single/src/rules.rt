// The rules of single machines, chosen by number: a byte of a host's call, which may hold any.
ghost use Rattle.std.specs.Prelude.{◌≡◌};
ghost use Rattle.protocol.specs.Refusals.{outcome, outcome_by};
ghost use Rattle.protocol.specs.Clients.{closing};
ghost use Rattle.single.specs.Rules.{server_asked, client_asked, administrator_asked};

use checked::rules;
use protocol::{
    Administrator, Client, Closing, Entry, Message, MessageNumber, Refusal, Reply, Server, Stamp,
    StepKind, View, ViewNumber,
};

// A server's rules, by the kinds of their steps: 3 deliver, 6 false answer.
#[tactic(auto, unfolding(crate::specs::Rules::server_asked, protocol::specs::Tools::guard))]
pub fn server_asked(a: Server, m: Message, rule: u8, flag: u8, view: u8) -> Result<Reply, Refusal>
    ensures { outcome result ≡ server_asked a m rule flag view }
{
    if flag > 1 {
        return Err(Refusal::Unfit);
    }
    match StepKind::try_from(rule) {
        Ok(StepKind::Deliver) if view == 0 => rules::serve_rule(a, m, flag == 1),
        Ok(StepKind::FalseAnswer) => {
            rules::false_answer_rule(a, ViewNumber(view), m, flag == 1)?;
            Ok(Reply {
                server: a,
                answer: None,
            })
        }
        _ => Err(Refusal::Unfit),
    }
}

// A client's rules, by the kinds of their steps: 1 write, 2 read, 4 the close by an answer taken, whose flag says whether all
// answers of the chosen view carry the entry and the view permits one exchange, and 8 giving up. What a rule does not use is
// zero.
#[tactic(auto, unfolding(crate::specs::Rules::client_asked, crate::specs::Rules::operation_rule, crate::specs::Rules::dropping_rule, protocol::specs::Tools::guard, protocol::specs::Entries::same))]
pub fn client_asked(
    c: Client,
    rule: u8,
    who: u8,
    n: MessageNumber,
    e: Entry,
    flag: u8,
) -> Result<Closing, Refusal>
    ensures { outcome_by closing result ≡ client_asked c rule who n.0 e flag }
{
    let bare = flag == 0 && who == 0 && e.stamp == Stamp::default();
    match StepKind::try_from(rule) {
        Ok(StepKind::Take) if flag <= 1 => rules::close_rule(c, who, e, flag == 1, n),
        Ok(StepKind::Write) if bare => rules::write_rule(c, e.value, n).map(Closing::WritesNext),
        Ok(StepKind::Read) if bare && e.value == 0 => {
            rules::read_rule(c, n).map(Closing::WritesNext)
        }
        Ok(StepKind::GiveUp) if bare && e.value == 0 && n == MessageNumber(0) => {
            rules::give_up_rule(c).map(Closing::WritesNext)
        }
        _ => Err(Refusal::Unfit),
    }
}

// The administrator's rules, by the kinds of their steps: 7 new view, 4 the close of END by an answer taken, and 9 a restart.
// What a rule does not use is zero.
#[tactic(auto, unfolding(crate::specs::Rules::administrator_asked, crate::specs::Rules::calling_rule, crate::specs::Rules::restarting_rule, protocol::specs::Tools::guard))]
pub fn administrator_asked(
    a: Administrator,
    rule: u8,
    n: MessageNumber,
    v: View,
) -> Result<Administrator, Refusal>
    ensures { outcome result ≡ administrator_asked a rule n.0 v }
{
    match StepKind::try_from(rule) {
        Ok(StepKind::NewView) => rules::call_rule(a, v, n),
        Ok(StepKind::Take) if n == MessageNumber(0) && v == View::default() => {
            rules::advance_rule(a)
        }
        Ok(StepKind::Restart) if n == MessageNumber(0) => rules::restart_rule(a, v),
        _ => Err(Refusal::Unfit),
    }
}
