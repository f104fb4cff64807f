// Sets of numbers as bits: servers, and keys of views.
ghost use Rattle.std.specs.Prelude.{◌≡◌, ℕ};
ghost use Rattle.std.specs.Int.Bits.{bit_or};
ghost use Rattle.protocol.specs.Tools.{count_to, holds};
ghost use Rattle.protocol.specs.Sizes.{servers};
ghost use Rattle.values.specs.Bits.{bit_in};

use protocol::{KeySet, ServerNumber, ServerSet, ViewNumber};

// A set of bits holds the numbers 1 to 32.
const LAST_NUMBER: u8 = 32;

// A set of numbers as bits, number k at bit k-1.
pub trait NumberSet: Copy {
    type Number: Copy;

    ghost bits_of: { Self → ℕ };

    ghost with_bits: { ℕ → Self };

    ghost number_of: { Self.Number → ℕ };

    fn bits(self) -> u32
        ensures { result ≡ bits_of self };

    fn from_bits(bits: u32) -> Self
        ensures { result ≡ with_bits bits };

    fn number(k: Self::Number) -> u8
        ensures { result ≡ number_of k };
}

impl NumberSet for ServerSet {
    type Number = ServerNumber;

    ghost bits_of = { λ set. set.0 };

    ghost with_bits = { λ n. record { 0 = n } };

    ghost number_of = { λ s. s.0 };

    fn bits(self) -> u32 {
        self.0
    }

    fn from_bits(bits: u32) -> Self {
        ServerSet(bits)
    }

    fn number(s: ServerNumber) -> u8 {
        s.0
    }
}

impl NumberSet for KeySet {
    type Number = ViewNumber;

    ghost bits_of = { λ set. set.0 };

    ghost with_bits = { λ n. record { 0 = n } };

    ghost number_of = { λ t. t.0 };

    fn bits(self) -> u32 {
        self.0
    }

    fn from_bits(bits: u32) -> Self {
        KeySet(bits)
    }

    fn number(t: ViewNumber) -> u8 {
        t.0
    }
}

// Whether number k is in a set of bits.
#[tactic(auto, using(crate::specs::Bits::holds_at, crate::specs::Bits::holds_high), unfolding(protocol::specs::Tools::holds))]
fn holds(bits: u32, k: u8) -> bool
    ensures { result ≡ holds bits k }
{
    (1..=LAST_NUMBER).contains(&k) && (bits >> (k - 1)) % 2 == 1
}

// The set of number k alone; none for 0 and for a number over 32.
#[tactic(auto, using(crate::specs::Bits::bit_shift), unfolding(crate::specs::Bits::bit_in, protocol::specs::Tools::bit_of))]
fn bit_of(k: u8) -> u32
    ensures { result ≡ bit_in k }
{
    if (1..=LAST_NUMBER).contains(&k) {
        1u32 << (k - 1)
    } else {
        0
    }
}

// Whether number k is in a set.
pub fn has<S: NumberSet>(set: S, k: S::Number) -> bool
    ensures { result ≡ holds (S.bits_of set) (S.number_of k) }
{
    holds(set.bits(), S::number(k))
}

// Number k alone.
pub fn alone<S: NumberSet>(k: S::Number) -> S
    ensures { result ≡ S.with_bits (bit_in (S.number_of k)) }
{
    S::from_bits(bit_of(S::number(k)))
}

// A set with number k in it.
pub fn with<S: NumberSet>(set: S, k: S::Number) -> S
    ensures { result ≡ S.with_bits (bit_or (S.bits_of set) (bit_in (S.number_of k))) }
{
    S::from_bits(set.bits() | bit_of(S::number(k)))
}

// How many servers are in a set.
#[tactic(auto, using(crate::specs::Bits::ones_size))]
pub fn servers_in(set: ServerSet) -> u32
    ensures { result ≡ count_to (holds set.0) servers }
{
    u32::count_ones(set.0)
}
