// Entries and their stamps.
ghost use Rattle.std.specs.Prelude.{◌≡◌};
ghost use Rattle.protocol.specs.Entries.{entry, empty, below, larger, same, entry_fits};

use protocol::limits::CLIENTS;
use protocol::{Entry, Stamp, StampCount};
use std::cmp::Ordering;

// The entry of a count, a writer and a value.
pub fn entry_of(count: StampCount, writer: u8, value: u32) -> Entry
    ensures { result ≡ entry count.0 writer value }
{
    Entry {
        stamp: Stamp { count, writer },
        value,
    }
}

// Whether the stamp of a is below that of b: by count, then writer. Test by test: derived, the walk of take waits for each
// comparison before it reads on, and took 1.45 times as long on a long chain.
#[tactic(auto, unfolding(protocol::specs::Entries::below))]
pub fn below(a: Entry, b: Entry) -> bool
    ensures { result ≡ below a b }
{
    match a.stamp.count.0.cmp(&b.stamp.count.0) {
        Ordering::Less => true,
        Ordering::Greater => false,
        Ordering::Equal => a.stamp.writer < b.stamp.writer,
    }
}

// The larger stamp of two; a where the stamps are equal.
#[tactic(auto, unfolding(protocol::specs::Entries::larger))]
pub fn larger(a: Entry, b: Entry) -> Entry
    ensures { result ≡ larger a b }
{
    if below(a, b) { b } else { a }
}

// Whether two entries agree in every field, the count first, as few agree in it.
#[tactic(auto, unfolding(protocol::specs::Entries::same))]
pub fn same(a: Entry, b: Entry) -> bool
    ensures { result ≡ same a b }
{
    a.stamp.count == b.stamp.count && a.stamp.writer == b.stamp.writer && a.value == b.value
}

// Whether an entry is the empty one.
pub fn is_empty(e: Entry) -> bool
    ensures { result ≡ same e empty }
{
    same(e, Entry::default())
}

// The ranges of an entry's fields: a writer is at most 16.
#[tactic(auto, unfolding(protocol::specs::Entries::entry_fits))]
pub fn entry_fits(e: Entry) -> bool
    ensures { result ≡ entry_fits e }
{
    e.stamp.writer <= CLIENTS
}
