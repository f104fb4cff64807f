// Sizes of views and of the answers that close a phase.
ghost use Rattle.std.specs.Prelude.{◌≡◌, ◌&&◌, ◌≤◌};
ghost use Rattle.protocol.specs.Refusals.{outcome_by};
ghost use Rattle.protocol.specs.Sizes.{servers, size_rule, quorum, read_of, write_of, quorum_size, size, sized, read_size, write_size, one_exchange};
ghost use Rattle.values.specs.Sizes.{sizing};

use super::sets;
use protocol::limits::SERVERS;
use protocol::{Refusal, View};

const LAST_SERVER: u32 = SERVERS as u32;

// 32 servers are enough for no larger threshold.
const MOST_FAULTS: u32 = 10;

// The answers that close READ and those that close WRITE and END.
#[derive(Clone, Copy, Debug, PartialEq, Eq)]
pub struct QuorumSize {
    pub read: u32,
    pub write: u32,
}

// n servers, the threshold f, and the read size r, 0 for that of a quorum.
#[derive(Clone, Copy)]
struct Shape {
    n: u32,
    f: u32,
    r: u32,
    ghost few: { n ≤ servers },
    ghost low: { f ≤ 255 },
}

impl Shape {
    #[tactic(auto, using(crate::specs::Sizes::size_le))]
    fn of(v: View) -> Shape
        ensures n { result.n ≡ size v }
        ensures f { result.f ≡ v.f }
        ensures r { result.r ≡ v.r }
    {
        Shape {
            n: size_of(v),
            f: u32::from(v.f),
            r: u32::from(v.r),
        }
    }

    // "n at least 1 and at least 3f+1"; r is 0, or at least 2f+1 and twice r at most n+f+1.
    fn is_sized(self) -> bool
        ensures { result ≡ size_rule self.n self.f self.r }
    {
        1 <= self.n
            && 3 * self.f + 1 <= self.n
            && (self.r == 0 || 2 * self.f + 1 <= self.r && self.r <= (self.n + self.f + 1) / 2)
    }

    // (n+f+1)/2, rounded up.
    #[tactic(auto, unfolding(protocol::specs::Sizes::quorum))]
    fn quorum(self) -> u32
        ensures { result ≡ quorum self.n self.f }
    {
        (self.n + self.f + 2) / 2
    }

    // "0 means q for everything", else READ closes with r servers.
    fn reads(self) -> u32
        ensures { result ≡ read_of self.n self.f self.r }
    {
        if self.r == 0 { self.quorum() } else { self.r }
    }

    // "0 means q for everything", else WRITE and END close with n+f+1-r servers.
    fn writes(self) -> u32
        ensures { result ≡ write_of self.n self.f self.r }
    {
        if self.r == 0 {
            self.quorum()
        } else {
            (self.n + self.f + 1).saturating_sub(self.r)
        }
    }
}

// Both sizes of n servers with the threshold f and the read size r: 8 if n is 0 or over 32, n < 3f+1, or r is outside its bounds.
#[tactic(auto, unfolding(protocol::specs::Sizes::quorum_size, protocol::specs::Tools::guard))]
pub fn quorum_size(n: u32, f: u32, r: u32) -> Result<QuorumSize, Refusal>
    ensures { outcome_by sizing result ≡ quorum_size n f r }
{
    if n > LAST_SERVER || f > MOST_FAULTS {
        return Err(Refusal::WrongSize);
    }
    let shape = Shape { n, f, r };
    if !shape.is_sized() {
        return Err(Refusal::WrongSize);
    }
    Ok(QuorumSize {
        read: shape.reads(),
        write: shape.writes(),
    })
}

// The number of servers of a view.
#[tactic(auto, unfolding(protocol::specs::Sizes::size))]
pub fn size_of(v: View) -> u32
    ensures { result ≡ size v }
{
    sets::servers_in(v.members)
}

// The size rule of a view.
#[tactic(auto, unfolding(protocol::specs::Sizes::sized))]
pub fn sized(v: View) -> bool
    ensures { result ≡ sized v }
{
    Shape::of(v).is_sized()
}

// The answers that close READ.
#[tactic(auto, unfolding(protocol::specs::Sizes::read_size))]
pub fn read_size(v: View) -> u32
    ensures { result ≡ read_size v }
{
    Shape::of(v).reads()
}

// The answers that close WRITE and END.
#[tactic(auto, unfolding(protocol::specs::Sizes::write_size))]
pub fn write_size(v: View) -> u32
    ensures { result ≡ write_size v }
{
    Shape::of(v).writes()
}

// Whether a read ends in one exchange: all answers of its view carry one entry, and the read size is not below the write size.
#[tactic(auto, unfolding(protocol::specs::Sizes::one_exchange))]
pub fn at_once(one: bool, v: View) -> bool
    ensures { result ≡ one && one_exchange v }
{
    one && write_size(v) <= read_size(v)
}
