// The refusals, by the numbers that the documents give them. Done has none: its number is 0.
ghost use Rattle.std.specs.Prelude.{◌≡◌};
ghost use Rattle.protocol.specs.Refusals.{refusal_number, code};

// Why a call did nothing.
#[derive(Clone, Copy, Debug, PartialEq, Eq)]
pub enum Refusal {
    // "1, image or step of wrong length", a record or a buffer too
    WrongLength = 1,

    // "2, unreadable"
    Unreadable = 2,

    // "3, unknown kind, a field out of range or an unused field set", "3, record out of range"
    Unfit = 3,

    // "4, client not idle", "4, ending"
    Busy = 4,

    // "5, no such message or an answer", "5, not an answer", "5, message not of kind 1 to 3, or source neither 0 nor a WRITE"
    NoMessage = 5,

    // "6, the server is faulty and the kind is 1 to 3", "6, faulty already", "6, server not faulty"
    FaultState = 6,

    // "7, the server's rule does not apply", "7, taken before, or its request is neither that of an open phase nor the END number", "7, nothing is being ended"
    NotApplicable = 7,

    // "8, size rule broken", "or newest is 32"
    WrongSize = 8,

    // "9, it lacks that key"
    NoKey = 9,

    // "10, all 1,023 message numbers used"
    NoNumber = 10,

    // "11, the closing write would need a count over 4,294,967,295"
    NoCount = 11,

    // "12, the client is idle"
    Idle = 12,

    // "13, no order exists"
    NoOrder = 13,

    // "14, malformed", of a log and of answers without a signature
    Malformed = 14,

    // "15, the replay stops on no refusal"
    NoRefusal = 15,

    // "16, no entry qualifies"
    Unvouched = 16,
}

impl Refusal {
    // The documents number the refusals: the name reads plainer than a conversion in the arms that answer C.
    pub fn number(self) -> u8
        ensures { result ≡ refusal_number self }
    {
        self as u8
    }
}

// The number of an answer that has no value: 0, or its refusal's.
pub fn code(done: Result<(), Refusal>) -> u8
    ensures { result ≡ code done }
{
    match done {
        Ok(()) => 0,
        Err(refusal) => refusal.number(),
    }
}
