// The kinds of messages, of a client's operation and of steps. The bytes of an image, of a step and of a record may hold any number
// where a kind stands, which the tests of those bytes refuse: so the records keep the number, and what a rule does goes by its kind.
// From and TryFrom are written out, kind by kind: no library of the kit derives them, and an impl by a macro of one's own is refused.
ghost use Rattle.std.specs.Prelude.{◌≡◌};
ghost use Rattle.protocol.specs.Kinds.{message_code, named_message, operation_code, named_operation, step_code, named_step};

// A number that no kind has.
#[derive(Clone, Copy, Debug, PartialEq, Eq)]
pub struct UnknownKind(pub u8);

// "READ (1)", "WRITE (2)", "END (3)", "START (4)", "5 answer"
#[derive(Clone, Copy, Debug, PartialEq, Eq)]
pub enum MessageKind {
    Read = 1,
    Write = 2,
    End = 3,
    Start = 4,
    Answer = 5,
}

impl From<MessageKind> for u8 {
    ghost from_gives = { λ kind n. n ≡ message_code kind };

    fn from(kind: MessageKind) -> u8 {
        kind as u8
    }
}

impl TryFrom<u8> for MessageKind {
    type Error = UnknownKind;

    ghost try_from_gives = { λ n kind. kind ≡ named_message n };

    fn try_from(number: u8) -> Result<Self, UnknownKind> {
        match number {
            1 => Ok(MessageKind::Read),
            2 => Ok(MessageKind::Write),
            3 => Ok(MessageKind::End),
            4 => Ok(MessageKind::Start),
            5 => Ok(MessageKind::Answer),
            _ => Err(UnknownKind(number)),
        }
    }
}

// The kind of a client's record that did nothing: "0 none yet".
pub const NONE: u8 = 0;

// What a client does: "1 write, 2 read". `NONE` is no operation.
#[derive(Clone, Copy, Debug, PartialEq, Eq)]
pub enum Operation {
    Write = 1,
    Read = 2,
}

impl From<Operation> for u8 {
    ghost from_gives = { λ operation n. n ≡ operation_code operation };

    fn from(operation: Operation) -> u8 {
        operation as u8
    }
}

impl TryFrom<u8> for Operation {
    type Error = UnknownKind;

    ghost try_from_gives = { λ n operation. operation ≡ named_operation n };

    fn try_from(number: u8) -> Result<Self, UnknownKind> {
        match number {
            1 => Ok(Operation::Write),
            2 => Ok(Operation::Read),
            _ => Err(UnknownKind(number)),
        }
    }
}

// "1 write", "2 read", "3 deliver", "4 take", "5 fault", "6 false answer", "7 new view"; 8, giving up; 9, the administrator restarted.
#[derive(Clone, Copy, Debug, PartialEq, Eq)]
pub enum StepKind {
    Write = 1,
    Read = 2,
    Deliver = 3,
    Take = 4,
    Fault = 5,
    FalseAnswer = 6,
    NewView = 7,
    GiveUp = 8,
    Restart = 9,
}

impl From<StepKind> for u8 {
    ghost from_gives = { λ kind n. n ≡ step_code kind };

    fn from(kind: StepKind) -> u8 {
        kind as u8
    }
}

impl TryFrom<u8> for StepKind {
    type Error = UnknownKind;

    ghost try_from_gives = { λ n kind. kind ≡ named_step n };

    fn try_from(number: u8) -> Result<Self, UnknownKind> {
        match number {
            1 => Ok(StepKind::Write),
            2 => Ok(StepKind::Read),
            3 => Ok(StepKind::Deliver),
            4 => Ok(StepKind::Take),
            5 => Ok(StepKind::Fault),
            6 => Ok(StepKind::FalseAnswer),
            7 => Ok(StepKind::NewView),
            8 => Ok(StepKind::GiveUp),
            9 => Ok(StepKind::Restart),
            _ => Err(UnknownKind(number)),
        }
    }
}
