// The tests of single records that need no image. `newest` is the newest view of an image, and 32 for a host that knows none.
#![tactic(auto)]

ghost use Rattle.std.specs.Prelude.{◌≡◌, ◌^◌, ltb};
ghost use Rattle.protocol.specs.Tools.{within};
ghost use Rattle.protocol.specs.Readable.{view_rule, key_rule, server_rule, client_range, idle_rule, kind_rule, asking_rule, reading_rule};
ghost use Rattle.protocol.specs.Readable.{sender_fits, tag_rule, request_rule, next_fits, entry_zero, message_rule, zero_message};

use protocol::kinds::NONE;
use protocol::limits::{CLIENTS, SERVERS, VIEWS};
use protocol::{
    Client, KeySet, Message, MessageKind, MessageNumber, Operation, Server, Stamp, View, ViewNumber,
};
use values::{entries, sets, sizes};

// The number of a message: 1 to the last.
pub fn number_within(n: MessageNumber, last: u16) -> bool
    ensures { result ≡ within 1 last n.0 }
{
    (1..=last).contains(&n.0)
}

// The number of a view: 1 to the last.
pub fn view_within(t: ViewNumber, last: ViewNumber) -> bool
    ensures { result ≡ within 1 last.0 t.0 }
{
    (1..=last.0).contains(&t.0)
}

// "views obey the size rule"; "Beyond newest (newest+1 while ending) all zero."
pub fn view_fits(v: View, t: ViewNumber, last: ViewNumber) -> bool
    ensures { result ≡ view_rule last.0 t.0 v }
{
    if t <= last {
        sizes::sized(v)
    } else {
        v == View::default()
    }
}

// The keys are those of views 1 to newest.
#[tactic(auto, using(crate::proofs::Keys::full_set, crate::proofs::Keys::shifted_out))]
fn keys_within(keys: KeySet, newest: ViewNumber) -> bool
    ensures { result ≡ ltb keys.0 (2 ^ newest.0) }
{
    newest.0 >= VIEWS || keys.0 >> newest.0 == 0
}

// "a correct server has no key but its own view's"
#[tactic(auto, using(values::specs::Bits::own_in))]
fn key_fits(s: Server) -> bool
    ensures { result ≡ key_rule s }
{
    s.faulty || s.keys == KeySet(0) || s.keys == sets::alone(s.view)
}

// "server ... and key views do not exceed newest"; "writers are at most 16"
pub fn server_fits(s: Server, newest: ViewNumber) -> bool
    ensures { result ≡ server_rule newest.0 s }
{
    s.view <= newest && keys_within(s.keys, newest) && key_fits(s) && entries::entry_fits(s.entry)
}

// The ranges of a client's entry and of the largest count that it gave, which may be any.
#[tactic(auto, unfolding(protocol::specs::Readable::client_range))]
pub fn client_range(a: Client) -> bool
    ensures { result ≡ client_range a }
{
    entries::entry_fits(a.entry)
}

// "Kind 0 goes only with phase 0 and the empty entry."
pub fn idle_fits(a: Client) -> bool
    ensures { result ≡ idle_rule a }
{
    if a.kind == NONE {
        entries::is_empty(a.entry)
    } else {
        kind_fits(a.kind)
    }
}

// An open phase is that of a write or a read.
// The number may be any, as in the bytes of a record.
pub fn kind_fits(kind: u8) -> bool
    ensures { result ≡ kind_rule kind }
{
    Operation::try_from(kind).is_ok()
}

// "in phase 1 of a write only its value is set, of a read it is zero"
fn asking_fits(a: Client) -> bool
    ensures { result ≡ asking_rule a }
{
    a.entry.stamp == Stamp::default() && (a.is_on(Operation::Write) || a.entry.value == 0)
}

// A reading client; `sent`: its READ was.
pub fn reading_fits(a: Client, sent: bool) -> bool
    ensures { result ≡ reading_rule a sent }
{
    kind_fits(a.kind) && sent && asking_fits(a)
}

// The kinds of messages by their numbers. What follows asks by number and returns at each test: by the enum, in one match or in
// chains, the fields no longer fit the registers, and the readable test of a full image took 1.2 times as long.
const READ: u8 = MessageKind::Read as u8;

const WRITE: u8 = MessageKind::Write as u8;

const END: u8 = MessageKind::End as u8;

const START: u8 = MessageKind::Start as u8;

const ANSWER: u8 = MessageKind::Answer as u8;

// "sender u8 (client; administrator 0; server for an answer)"
fn sender_fits(kind: u8, sender: u8) -> bool
    ensures { result ≡ sender_fits kind sender }
{
    if kind > WRITE {
        if kind > START {
            return (1..=SERVERS).contains(&sender);
        }
        return sender == 0;
    }
    (1..=CLIENTS).contains(&sender)
}

// "view u8 (0 for 1 and 2)", else 1 to newest
fn tag_fits(newest: ViewNumber, kind: u8, t: ViewNumber) -> bool
    ensures { result ≡ tag_rule newest.0 kind t.0 }
{
    if kind <= WRITE {
        return t == ViewNumber(0);
    }
    view_within(t, newest)
}

// "taken u8 (0 or 1) and request u16 (both 0 but in answers)"; `asked`: the request can be an answer's
fn request_fits(m: Message, asked: bool) -> bool
    ensures { result ≡ request_rule m asked }
{
    if m.kind == ANSWER {
        return asked;
    }
    if m.taken {
        return false;
    }
    m.request == MessageNumber(0)
}

// "next u16 (0 in a START and an untaken answer)"
fn next_fits(m: Message) -> bool
    ensures { result ≡ next_fits m }
{
    if m.taken {
        return true;
    }
    if m.kind < READ {
        return m.next == MessageNumber(0);
    }
    if m.kind <= END {
        return true;
    }
    m.next == MessageNumber(0)
}

// "entry (zero for 1 and 3)"
fn entry_zero(m: Message) -> bool
    ensures { result ≡ entry_zero m }
{
    if m.kind == READ {
        return entries::is_empty(m.entry);
    }
    if m.kind == END {
        return entries::is_empty(m.entry);
    }
    true
}

// "kind u8 (1 to 4, or 5 answer)", and the other fields by the kind
pub fn message_fits(m: Message, newest: ViewNumber, asked: bool) -> bool
    ensures { result ≡ message_rule newest.0 m asked }
{
    if m.kind < READ {
        return false;
    }
    if m.kind > ANSWER {
        return false;
    }
    if !sender_fits(m.kind, m.sender) {
        return false;
    }
    if !tag_fits(newest, m.kind, m.view) {
        return false;
    }
    if !request_fits(m, asked) {
        return false;
    }
    if !next_fits(m) {
        return false;
    }
    if !entry_zero(m) {
        return false;
    }
    entries::entry_fits(m.entry)
}

// "message 0 all zero"; "messages beyond used are zero"
#[tactic(auto, unfolding(protocol::specs::Readable::zero_message, protocol::specs::Entries::same))]
pub fn zero_message(m: Message) -> bool
    ensures { result ≡ zero_message m }
{
    m == Message::default()
}
