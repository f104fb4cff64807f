// Each record as bytes: read, written from a place on, and the test of its spare bytes, flags and tags. Writers take the buffer
// with a place: to lend a part out would need clauses on how it comes back.
// A function for each record: a trait over the names that six crates use would be longer. Tags of a phase and of an ending are
// bytes of the format, made and read here alone.
ghost use Rattle.std.specs.Prelude.{◌≡◌, ◌+◌, ◌≤◌, length};
ghost use Rattle.codec.specs.Layout.{entry_width, view_width, server_width, client_width, message_width, administrator_width};
ghost use Rattle.protocol.specs.Runs.{step_of};
ghost use Rattle.codec.specs.Lists.{put};
ghost use Rattle.codec.specs.Records.{entry_of, entry_bytes, entry_plain, view_of, view_bytes, view_plain, server_of, server_bytes, server_plain};
ghost use Rattle.codec.specs.Records.{client_of, client_bytes, client_plain, phase_of, phase_tag, untagged, message_of, message_bytes, message_plain};
ghost use Rattle.codec.specs.Records.{administrator_of, administrator_bytes, administrator_plain, ending_of, header_plain};

use super::bytes::{are_zero, array_at, get16, get32, put_zeros, put8, put16, put32};
use super::layout::{
    ADMINISTRATOR, ADMINISTRATOR_AT, CLIENT, CLIENT_ENTRY_AT, CLIENT_KIND_AT, CLIENT_REQUEST_AT,
    COUNT_AT, END_AT, ENDING_AT, ENTRY, ENTRY_REST, ENTRY_REST_AT, ENTRY_SPARE, ENTRY_SPARE_AT,
    FAULTY_AT, GIVEN_AT, HEADER, HEADER_SPARE, HEADER_SPARE_AT, KEYS_AT, LAST_PHASE, MEMBERS_AT,
    MESSAGE, MESSAGE_ENTRY_AT, MESSAGE_KIND_AT, MESSAGE_REQUEST_AT, MESSAGE_VIEW_AT, NEWEST_AT,
    NEXT_AT, PHASE_AT, READ_SIZE_AT, SENDER_AT, SERVER, SERVER_ENTRY_AT, SERVER_SPARE,
    SERVER_SPARE_AT, SERVER_VIEW_AT, SOURCE_AT, STEP, STEP_KIND_AT, STEP_MESSAGE_AT,
    STEP_THRESHOLD_AT, STEP_VALUE_AT, STEP_VIEW_AT, TAKEN_AT, THRESHOLD_AT, VALUE_AT, VERSION,
    VERSION_AT, VIEW, VIEW_SPARE, VIEW_SPARE_AT, WHO_AT, WRITER_AT,
};
use protocol::{
    Administrator, Client, Entry, KeySet, Message, MessageNumber, Phase, Server, ServerSet, Stamp,
    StampCount, Step, View, ViewNumber,
};

// "Entry, 12: count u32, writer u8, 3 zero bytes, value u32."
#[tactic(auto, unfolding(crate::specs::Records::entry_of))]
pub fn read_entry(b: &[u8; ENTRY]) -> Entry
    ensures { result ≡ entry_of b.now }
{
    Entry {
        stamp: Stamp {
            count: StampCount(get32(b, COUNT_AT)),
            writer: b[WRITER_AT],
        },
        value: get32(b, VALUE_AT),
    }
}

pub fn write_entry(image: &mut [u8], at: usize, e: Entry)
    requires { at + entry_width ≤ length image.old }
    ensures { image.new ≡ put image.old at (entry_bytes e) }
{
    put32(image, at + COUNT_AT, e.stamp.count.0);
    put8(image, at + WRITER_AT, e.stamp.writer);
    put_zeros(image, at + ENTRY_SPARE_AT, ENTRY_SPARE);
    put32(image, at + VALUE_AT, e.value);
    put_zeros(image, at + ENTRY_REST_AT, ENTRY_REST);
}

#[tactic(auto, unfolding(crate::specs::Records::entry_plain))]
pub fn entry_plain(b: &[u8; ENTRY]) -> bool
    ensures { result ≡ entry_plain b.now }
{
    are_zero(b, ENTRY_SPARE_AT, ENTRY_SPARE) && are_zero(b, ENTRY_REST_AT, ENTRY_REST)
}

// "View: member bits u32 (bit s-1 is server s), f u8, 3 zero."; "a read size r in the first of its zero bytes"
#[tactic(auto, unfolding(crate::specs::Records::view_of))]
pub fn read_view(b: &[u8; VIEW]) -> View
    ensures { result ≡ view_of b.now }
{
    View {
        members: ServerSet(get32(b, MEMBERS_AT)),
        f: b[THRESHOLD_AT],
        r: b[READ_SIZE_AT],
    }
}

#[tactic(auto, using(crate::specs::Lists::put_more), unfolding(crate::specs::Records::view_bytes))]
pub fn write_view(image: &mut [u8], at: usize, v: View)
    requires { at + view_width ≤ length image.old }
    ensures { image.new ≡ put image.old at (view_bytes v) }
{
    put32(image, at + MEMBERS_AT, v.members.0);
    put8(image, at + THRESHOLD_AT, v.f);
    put8(image, at + READ_SIZE_AT, v.r);
    put_zeros(image, at + VIEW_SPARE_AT, VIEW_SPARE);
}

#[tactic(auto, unfolding(crate::specs::Records::view_plain))]
pub fn view_plain(b: &[u8; VIEW]) -> bool
    ensures { result ≡ view_plain b.now }
{
    are_zero(b, VIEW_SPARE_AT, VIEW_SPARE)
}

// "Server: view u8 (0 none yet), faulty u8, 2 zero, key bits u32 (bit t-1), entry."
#[tactic(auto, unfolding(crate::specs::Records::server_of, crate::specs::Lists::part))]
pub fn read_server(b: &[u8; SERVER]) -> Server
    ensures { result ≡ server_of b.now }
{
    Server {
        view: ViewNumber(b[SERVER_VIEW_AT]),
        faulty: b[FAULTY_AT] != 0,
        keys: KeySet(get32(b, KEYS_AT)),
        entry: read_entry(array_at::<ENTRY>(b, SERVER_ENTRY_AT)),
    }
}

#[tactic(auto, using(crate::specs::Lists::put_more), unfolding(crate::specs::Records::server_bytes))]
pub fn write_server(image: &mut [u8], at: usize, v: Server)
    requires { at + server_width ≤ length image.old }
    ensures { image.new ≡ put image.old at (server_bytes v) }
{
    put8(image, at + SERVER_VIEW_AT, v.view.0);
    put8(image, at + FAULTY_AT, v.faulty as u8);
    put_zeros(image, at + SERVER_SPARE_AT, SERVER_SPARE);
    put32(image, at + KEYS_AT, v.keys.0);
    write_entry(image, at + SERVER_ENTRY_AT, v.entry);
}

#[tactic(auto, unfolding(crate::specs::Records::server_plain, crate::specs::Lists::part))]
pub fn server_plain(b: &[u8; SERVER]) -> bool
    ensures { result ≡ server_plain b.now }
{
    b[FAULTY_AT] <= 1
        && are_zero(b, SERVER_SPARE_AT, SERVER_SPARE)
        && entry_plain(array_at::<ENTRY>(b, SERVER_ENTRY_AT))
}

// "phase u8 (0 idle, 1 reading, 2 writing)", "request u16 (0 when idle)"
#[tactic(auto, unfolding(crate::specs::Records::phase_of))]
fn phase_of(tag: u8, request: MessageNumber) -> Phase
    ensures { result ≡ phase_of tag request.0 }
{
    match tag {
        0 => Phase::Idle,
        1 => Phase::Reading(request),
        _ => Phase::Writing(request),
    }
}

fn phase_tag(p: Phase) -> u8
    ensures { result ≡ phase_tag p }
{
    match p {
        Phase::Idle => 0,
        Phase::Reading(_) => 1,
        Phase::Writing(_) => 2,
    }
}

// A number that is 0 where its tag is 0.
fn untagged_zero(tag: u8, n: u16) -> bool
    ensures { result ≡ untagged tag n }
{
    tag != 0 || n == 0
}

// "Client: phase u8, kind u8 ..., request u16, entry", and the largest count that it gave.
#[tactic(auto, unfolding(crate::specs::Records::client_of, crate::specs::Lists::part))]
pub fn read_client(b: &[u8; CLIENT]) -> Client
    ensures { result ≡ client_of b.now }
{
    Client {
        phase: phase_of(b[PHASE_AT], MessageNumber(get16(b, CLIENT_REQUEST_AT))),
        kind: b[CLIENT_KIND_AT],
        entry: read_entry(array_at::<ENTRY>(b, CLIENT_ENTRY_AT)),
        given: StampCount(get32(b, GIVEN_AT)),
    }
}

#[tactic(auto, using(crate::specs::Lists::put_more, crate::specs::Records::length_entry_bytes), unfolding(crate::specs::Records::client_bytes))]
pub fn write_client(image: &mut [u8], at: usize, v: Client)
    requires { at + client_width ≤ length image.old }
    ensures { image.new ≡ put image.old at (client_bytes v) }
{
    put8(image, at + PHASE_AT, phase_tag(v.phase));
    put8(image, at + CLIENT_KIND_AT, v.kind);
    put16(image, at + CLIENT_REQUEST_AT, v.phase.request().0);
    write_entry(image, at + CLIENT_ENTRY_AT, v.entry);
    put32(image, at + GIVEN_AT, v.given.0);
}

#[tactic(auto, unfolding(crate::specs::Records::client_plain, crate::specs::Lists::part))]
pub fn client_plain(b: &[u8; CLIENT]) -> bool
    ensures { result ≡ client_plain b.now }
{
    b[PHASE_AT] <= LAST_PHASE
        && untagged_zero(b[PHASE_AT], get16(b, CLIENT_REQUEST_AT))
        && entry_plain(array_at::<ENTRY>(b, CLIENT_ENTRY_AT))
}

// "Message: kind u8 ..., sender u8 ..., view u8 ..., taken u8 (0 or 1) and request u16 ..., next u16 ..., entry"
#[tactic(auto, unfolding(crate::specs::Records::message_of, crate::specs::Lists::part))]
pub fn read_message(b: &[u8; MESSAGE]) -> Message
    ensures { result ≡ message_of b.now }
{
    Message {
        kind: b[MESSAGE_KIND_AT],
        sender: b[SENDER_AT],
        view: ViewNumber(b[MESSAGE_VIEW_AT]),
        taken: b[TAKEN_AT] != 0,
        request: MessageNumber(get16(b, MESSAGE_REQUEST_AT)),
        next: MessageNumber(get16(b, NEXT_AT)),
        entry: read_entry(array_at::<ENTRY>(b, MESSAGE_ENTRY_AT)),
    }
}

#[tactic(auto, using(crate::specs::Lists::put_more), unfolding(crate::specs::Records::message_bytes))]
pub fn write_message(image: &mut [u8], at: usize, v: Message)
    requires { at + message_width ≤ length image.old }
    ensures { image.new ≡ put image.old at (message_bytes v) }
{
    put8(image, at + MESSAGE_KIND_AT, v.kind);
    put8(image, at + SENDER_AT, v.sender);
    put8(image, at + MESSAGE_VIEW_AT, v.view.0);
    put8(image, at + TAKEN_AT, v.taken as u8);
    put16(image, at + MESSAGE_REQUEST_AT, v.request.0);
    put16(image, at + NEXT_AT, v.next.0);
    write_entry(image, at + MESSAGE_ENTRY_AT, v.entry);
}

#[tactic(auto, unfolding(crate::specs::Records::message_plain, crate::specs::Lists::part))]
pub fn message_plain(b: &[u8; MESSAGE]) -> bool
    ensures { result ≡ message_plain b.now }
{
    b[TAKEN_AT] <= 1 && entry_plain(array_at::<ENTRY>(b, MESSAGE_ENTRY_AT))
}

// "ending u8 (0 or 1), END number u16 (0 unless ending)"
#[tactic(auto, unfolding(crate::specs::Records::ending_of))]
fn ending_of(tag: u8, end: MessageNumber) -> Option<MessageNumber>
    ensures { result ≡ ending_of tag end.0 }
{
    if tag == 0 { None } else { Some(end) }
}

#[tactic(auto, unfolding(crate::specs::Records::administrator_of))]
pub fn read_administrator(b: &[u8; ADMINISTRATOR]) -> Administrator
    ensures { result ≡ administrator_of b.now }
{
    Administrator {
        newest: ViewNumber(b[NEWEST_AT]),
        ending: ending_of(b[ENDING_AT], MessageNumber(get16(b, END_AT))),
    }
}

#[tactic(auto, using(crate::specs::Lists::put_more), unfolding(crate::specs::Records::administrator_bytes))]
pub fn write_administrator(image: &mut [u8], at: usize, v: Administrator)
    requires { at + administrator_width ≤ length image.old }
    ensures { image.new ≡ put image.old at (administrator_bytes v) }
{
    put8(image, at + NEWEST_AT, v.newest.0);
    put8(image, at + ENDING_AT, v.ending.is_some() as u8);
    put16(image, at + END_AT, v.end().0);
}

#[tactic(auto, unfolding(crate::specs::Records::administrator_plain))]
pub fn administrator_plain(b: &[u8; ADMINISTRATOR]) -> bool
    ensures { result ≡ administrator_plain b.now }
{
    b[ENDING_AT] <= 1 && untagged_zero(b[ENDING_AT], get16(b, END_AT))
}

// "Header: version u16, messages used u16, ..., 8 zero bytes."
#[tactic(auto, unfolding(crate::specs::Records::header_plain, crate::specs::Lists::part))]
pub fn header_plain(b: &[u8; HEADER]) -> bool
    ensures { result ≡ header_plain b.now }
{
    get16(b, VERSION_AT) == VERSION
        && administrator_plain(array_at::<ADMINISTRATOR>(b, ADMINISTRATOR_AT))
        && are_zero(b, HEADER_SPARE_AT, HEADER_SPARE)
}

// "Step, 12 bytes: kind u8, who u8, view u8, f u8, message u16, source u16, value u32."
#[tactic(auto, unfolding(protocol::specs::Runs::step_of))]
pub fn read_step(b: &[u8; STEP]) -> Step
    ensures { result ≡ step_of b.now }
{
    Step {
        kind: b[STEP_KIND_AT],
        who: b[WHO_AT],
        view: ViewNumber(b[STEP_VIEW_AT]),
        f: b[STEP_THRESHOLD_AT],
        message: MessageNumber(get16(b, STEP_MESSAGE_AT)),
        source: MessageNumber(get16(b, SOURCE_AT)),
        value: get32(b, STEP_VALUE_AT),
    }
}
