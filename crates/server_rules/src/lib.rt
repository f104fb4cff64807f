// The rules of one server.
#![tactic(auto)]

ghost use Rattle.std.specs.Prelude.{◌≡◌, ◌≤◌};
ghost use Rattle.protocol.specs.Tools.{number_of};
ghost use Rattle.protocol.specs.Refusals.{code, outcome};
ghost use Rattle.protocol.specs.Servers.{comparing, replacing, acknowledging, without_key, joining, gathering, write, start, may_answer};
ghost use Rattle.server_rules.specs.Servers.{shown_by, requested, serve_in, entering, replying};

use protocol::limits::VIEWS;
use protocol::{Entry, KeySet, Message, MessageKind, Refusal, Reply, Server, Shown, ViewNumber};
use values::{entries, sets};

// What a server answers with: its view and entry.
fn shown_by(a: Server) -> Shown
    ensures { result ≡ shown_by a }
{
    Shown {
        view: a.view,
        entry: a.entry,
    }
}

// WRITE, compare: whether the stamp held is below the written one.
#[tactic(auto, unfolding(protocol::specs::Servers::comparing))]
fn comparing(a: Server, e: Entry) -> bool
    ensures { result ≡ comparing a e }
{
    entries::below(a.entry, e)
}

// WRITE, replace: where it is, the written entry is held.
#[tactic(auto, unfolding(protocol::specs::Servers::replacing))]
fn replacing(a: Server, e: Entry, later: bool) -> Server
    ensures { result ≡ replacing a e later }
{
    if later { Server { entry: e, ..a } } else { a }
}

// WRITE, acknowledge: it answers with the view and entry that it holds now.
fn acknowledging(a: Server) -> Reply
    ensures { result ≡ acknowledging a }
{
    Reply {
        server: a,
        answer: Some(shown_by(a)),
    }
}

// WRITE, in the sequence of document 000: compare the held stamp, replace, acknowledge. Inlined, as what calls it up to the step and
// the exports is: called, its records go through memory, and a server's rule takes twice as long.
#[inline(always)]
fn write(a: Server, e: Entry) -> Reply
    ensures { result ≡ write a e }
{
    let later = comparing(a, e);
    let b = replacing(a, e, later);
    acknowledging(b)
}

// It gives the key up.
#[tactic(auto, unfolding(protocol::specs::Servers::without_key))]
pub fn without_key(a: Server) -> Server
    ensures { result ≡ without_key a }
{
    Server {
        keys: KeySet(0),
        ..a
    }
}

// It takes the view of a START and its key, drops any older key, and keeps the larger stamp.
#[tactic(auto, using(values::specs::Bits::bit_in_lem), unfolding(protocol::specs::Servers::joining))]
#[inline(always)]
fn joining(a: Server, m: Message) -> Server
    requires { m.view.0 ≤ 32 }
    ensures { result ≡ joining a m }
{
    Server {
        view: m.view,
        keys: sets::alone(m.view),
        entry: entries::larger(a.entry, m.entry),
        ..a
    }
}

// A faulty server gathers the key of a START; nothing else of its record changes.
#[tactic(auto, using(values::specs::Bits::bit_in_lem), unfolding(protocol::specs::Servers::gathering))]
fn gathering(a: Server, m: Message) -> Server
    requires { m.view.0 ≤ 32 }
    ensures { result ≡ gathering a m }
{
    Server {
        keys: sets::with(a.keys, m.view),
        ..a
    }
}

// Whether START is served, or refused with 7.
#[tactic(auto, unfolding(protocol::specs::Tools::guard))]
fn admits_start(a: Server, m: Message, member: bool) -> Result<(), Refusal>
    ensures { code result ≡ number_of (start a m member) }
{
    if !member || m.view <= a.view || a.faulty && sets::has(a.keys, m.view) {
        return Err(Refusal::NotApplicable);
    }
    Ok(())
}

// Whether READ, WRITE, or any other kind as END is served: 6, the server is faulty; 7.
#[tactic(auto, unfolding(protocol::specs::Tools::guard))]
#[inline(always)]
fn admits_request(a: Server, m: Message) -> Result<(), Refusal>
    ensures { code result ≡ number_of (requested a m) }
{
    if a.faulty {
        return Err(Refusal::FaultState);
    }
    let ends = !m.is(MessageKind::Read) && !m.is(MessageKind::Write);
    if !sets::has(a.keys, a.view) || ends && m.view != a.view {
        return Err(Refusal::NotApplicable);
    }
    Ok(())
}

// Whether the server's rule serves a message, or why not; member says whether it is in the server set of the message's view.
// 3, a view over 32; 5, an answer or no message; 6, the server is faulty and the kind is 1 to 3; 7, the rule does not apply.
#[tactic(auto, unfolding(crate::specs::Servers::serve_in, protocol::specs::Servers::serve, protocol::specs::Tools::guard))]
#[inline(always)]
pub fn admits(a: Server, m: Message, member: bool) -> Result<(), Refusal>
    ensures { code result ≡ number_of (serve_in a m member) }
{
    if m.view.0 > VIEWS {
        return Err(Refusal::Unfit);
    }
    match MessageKind::try_from(m.kind) {
        Ok(MessageKind::Start) => admits_start(a, m, member),
        Ok(MessageKind::Read | MessageKind::Write | MessageKind::End) => admits_request(a, m),
        Ok(MessageKind::Answer) | Err(_) => Err(Refusal::NoMessage),
    }
}

// START, served: a faulty server gathers the key, a correct one joins the view; a view over 32 changes nothing.
#[tactic(auto, unfolding(crate::specs::Servers::entering))]
#[inline(always)]
pub fn entering(a: Server, m: Message) -> Server
    ensures { result ≡ entering a m }
{
    if m.view.0 > VIEWS {
        a
    } else if a.faulty {
        gathering(a, m)
    } else {
        joining(a, m)
    }
}

// READ, WRITE, or any other kind as END, served: the server's record after it, and its answer.
#[tactic(auto, unfolding(crate::specs::Servers::replying))]
#[inline(always)]
pub fn replying(a: Server, m: Message) -> Reply
    ensures { result ≡ replying a m }
{
    match MessageKind::try_from(m.kind) {
        Ok(MessageKind::Write) => write(a, m.entry),
        Ok(MessageKind::Read) => acknowledging(a),
        _ => Reply {
            server: without_key(a),
            answer: Some(shown_by(a)),
        },
    }
}

// A message reaches a server: its record after it, and what it answers. START has no answer.
#[tactic(auto, using(crate::specs::Servers::serve_done))]
#[inline(always)]
pub fn serve(a: Server, m: Message, member: bool) -> Result<Reply, Refusal>
    ensures { outcome result ≡ serve_in a m member }
{
    admits(a, m, member)?;
    if m.is(MessageKind::Start) {
        return Ok(Reply {
            server: entering(a, m),
            answer: None,
        });
    }
    Ok(replying(a, m))
}

// Whether a faulty server may answer a request with view t. 5, no request, or source, which says whether the entry shown is the
// empty one or that of a WRITE sent, is false; 6, not faulty; 9, it lacks that key.
#[tactic(auto, unfolding(protocol::specs::Servers::may_answer, protocol::specs::Tools::guard))]
pub fn may_answer(a: Server, t: ViewNumber, m: Message, source: bool) -> Result<(), Refusal>
    ensures { code result ≡ number_of (may_answer a t.0 m source) }
{
    if !m.is_request() || !source {
        return Err(Refusal::NoMessage);
    }
    if !a.faulty {
        return Err(Refusal::FaultState);
    }
    if !sets::has(a.keys, t) {
        return Err(Refusal::NoKey);
    }
    Ok(())
}
