// A journal and its replay on a lent image.
#![tactic(auto)]

pub mod replay;
pub mod watch;

ghost use Rattle.std.specs.Prelude.{◌≡◌, Some, None};
ghost use Rattle.journal.specs.Replays.{stopped_at};

use protocol::Refusal;

// The number of steps done, and the refusal that stopped the replay, if one did.
#[derive(Clone, Copy, Debug, PartialEq, Eq)]
pub struct Replayed {
    pub steps: usize,
    pub refusal: Option<Refusal>,
}

impl Replayed {
    // A replay that did not begin.
    fn refused(refusal: Refusal) -> Replayed
        ensures { result ≡ stopped_at 0 (Some refusal) }
    {
        Replayed {
            steps: 0,
            refusal: Some(refusal),
        }
    }
}

// A replay, and the first step after which the premise does not hold, if there is one.
#[derive(Clone, Copy, Debug, PartialEq, Eq)]
pub struct Watched {
    pub replayed: Replayed,
    pub first: Option<usize>,
}

impl Watched {
    // A replay that did not begin names no step.
    fn refused(refusal: Refusal) -> Watched
        ensures { result ≡ record { replayed = stopped_at 0 (Some refusal); first = None } }
    {
        Watched {
            replayed: Replayed::refused(refusal),
            first: None,
        }
    }
}
