// The records of the protocol. The rules on them are the definitions in specs/.
#![tactic(auto)]

ghost use Rattle.std.specs.Prelude.{◌≡◌, eqb};
ghost use Rattle.protocol.specs.Kinds.{message_code, operation_code, step_code};
ghost use Rattle.protocol.specs.Servers.{is_request};
ghost use Rattle.protocol.specs.Clients.{is_idle, request_of, end_of};

pub mod kinds;
pub mod limits;
pub mod refusals;

pub use kinds::{MessageKind, Operation, StepKind};
pub use refusals::Refusal;

// Four counters, counted apart.
#[derive(Clone, Copy, Debug, Default, PartialEq, Eq, PartialOrd, Ord)]
pub struct StampCount(pub u32);

#[derive(Clone, Copy, Debug, Default, PartialEq, Eq, PartialOrd, Ord)]
pub struct ViewNumber(pub u8);

#[derive(Clone, Copy, Debug, Default, PartialEq, Eq, PartialOrd, Ord)]
pub struct MessageNumber(pub u16);

#[derive(Clone, Copy, Debug, Default, PartialEq, Eq, PartialOrd, Ord)]
pub struct ServerNumber(pub u8);

// Two sets of numbers as bits, not of one type: the servers of a view, server s at bit s-1, and the keys of a server, key t at bit t-1.
#[derive(Clone, Copy, Debug, Default, PartialEq, Eq)]
pub struct ServerSet(pub u32);

#[derive(Clone, Copy, Debug, Default, PartialEq, Eq)]
pub struct KeySet(pub u32);

// Compared by count, then writer.
#[derive(Clone, Copy, Debug, Default, PartialEq, Eq, PartialOrd, Ord)]
pub struct Stamp {
    pub count: StampCount,
    pub writer: u8,
}

#[derive(Clone, Copy, Debug, Default, PartialEq, Eq)]
pub struct Entry {
    pub stamp: Stamp,
    pub value: u32,
}

// A view: its server set, its threshold and its read size, 0 for that of a quorum.
#[derive(Clone, Copy, Debug, Default, PartialEq, Eq)]
pub struct View {
    pub members: ServerSet,
    pub f: u8,
    pub r: u8,
}

// A server's record.
#[derive(Clone, Copy, Debug, PartialEq, Eq)]
pub struct Server {
    pub view: ViewNumber,
    pub faulty: bool,
    pub keys: KeySet,
    pub entry: Entry,
}

// An open phase carries its request's number.
#[derive(Clone, Copy, Debug, PartialEq, Eq)]
pub enum Phase {
    Idle,
    Reading(MessageNumber),
    Writing(MessageNumber),
}

impl Phase {
    pub fn is_idle(self) -> bool
        ensures { result ≡ is_idle self }
    {
        matches!(self, Phase::Idle)
    }

    // The request of an open phase; 0 when idle, as a client's record has it.
    pub fn request(self) -> MessageNumber
        ensures { result.0 ≡ request_of self }
    {
        match self {
            Phase::Idle => MessageNumber(0),
            Phase::Reading(request) | Phase::Writing(request) => request,
        }
    }
}

// A client's record; kind is 0 none yet, 1 write, 2 read; given is the largest count that it ever gave a write of its own.
#[derive(Clone, Copy, Debug, PartialEq, Eq)]
pub struct Client {
    pub phase: Phase,
    pub kind: u8,
    pub entry: Entry,
    pub given: StampCount,
}

impl Client {
    // Whether its operation is that one; as of a message.
    pub fn is_on(self, operation: Operation) -> bool
        ensures { result ≡ eqb self.kind (operation_code operation) }
    {
        self.kind == u8::from(operation)
    }
}

// The administrator's record: the newest view, and the number of the END that was sent while that view is being ended.
#[derive(Clone, Copy, Debug, PartialEq, Eq)]
pub struct Administrator {
    pub newest: ViewNumber,
    pub ending: Option<MessageNumber>,
}

impl Administrator {
    // The number of the END that is open; 0 unless ending, as the record has it.
    pub fn end(self) -> MessageNumber
        ensures { result.0 ≡ end_of self.ending }
    {
        self.ending.unwrap_or_default()
    }
}

// A message: kind 1 READ, 2 WRITE, 3 END, 4 START, 5 answer.
#[derive(Clone, Copy, Debug, Default, PartialEq, Eq)]
pub struct Message {
    pub kind: u8,
    pub sender: u8,
    pub view: ViewNumber,
    pub taken: bool,
    pub request: MessageNumber,
    pub next: MessageNumber,
    pub entry: Entry,
}

impl Message {
    // Whether it is of that kind. Each record asks it of its own field: a trait over the field would be longer than the bodies.
    pub fn is(self, kind: MessageKind) -> bool
        ensures { result ≡ eqb self.kind (message_code kind) }
    {
        self.kind == u8::from(kind)
    }

    // "kind 1 to 3": READ, WRITE or END.
    pub fn is_request(self) -> bool
        ensures { result ≡ is_request self.kind }
    {
        self.is(MessageKind::Read) || self.is(MessageKind::Write) || self.is(MessageKind::End)
    }
}

// A step: kind 1 write, 2 read, 3 deliver, 4 take, 5 fault, 6 false answer, 7 new view, 8 giving up, 9 the administrator restarted.
#[derive(Clone, Copy, Debug, PartialEq, Eq)]
pub struct Step {
    pub kind: u8,
    pub who: u8,
    pub view: ViewNumber,
    pub f: u8,
    pub message: MessageNumber,
    pub source: MessageNumber,
    pub value: u32,
}

impl Step {
    // Whether it is of that kind; as of a message.
    pub fn is(self, step: StepKind) -> bool
        ensures { result ≡ eqb self.kind (step_code step) }
    {
        self.kind == u8::from(step)
    }
}

// The values that a used field of a step may have.
#[derive(Clone, Copy, Debug, PartialEq, Eq)]
pub struct Range {
    pub low: u32,
    pub high: u32,
}

// What an answer shows: its server's view and entry.
#[derive(Clone, Copy, Debug, PartialEq, Eq)]
pub struct Shown {
    pub view: ViewNumber,
    pub entry: Entry,
}

// A server's record after a rule, and what it answers, if it does.
#[derive(Clone, Copy, Debug, PartialEq, Eq)]
pub struct Reply {
    pub server: Server,
    pub answer: Option<Shown>,
}

// What answers of one view show: the entry chosen of them, and whether all carry it.
#[derive(Clone, Copy, Debug, PartialEq, Eq)]
pub struct Choice {
    pub entry: Entry,
    pub one: bool,
}

// A client's phase closes: a WRITE of its entry is next, or its operation is complete. Both are answers, and a refusal is the
// `Err` around it.
#[derive(Clone, Copy, Debug, PartialEq, Eq)]
pub enum Closing {
    WritesNext(Client),
    Completed(Client),
}
