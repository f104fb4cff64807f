// The messages that are zero: message 0, and those beyond the messages used.
ghost use Rattle.std.specs.Prelude.{◌≡◌, ◌&&◌, ◌+◌, ◌≤◌, drop};
ghost use Rattle.protocol.specs.Sizes.{messages};
ghost use Rattle.protocol.specs.Tools.{all_to};
ghost use Rattle.codec.specs.Layout.{message_place};
ghost use Rattle.codec.specs.Places.{used_at};
ghost use Rattle.readable.specs.Scan.{first_ok, message_ok};
ghost use Rattle.readable.specs.Beyond.{zero_bytes};

use codec::layout::{Image, MESSAGE, MESSAGES_AT};
use codec::places::record;

// Every byte is zero: all are joined and tested one time, which the compiler turns into vector code.
#[tactic(auto, using(crate::specs::Beyond::zero_joined))]
fn zero_bytes(b: &[u8]) -> bool
    ensures { result ≡ zero_bytes b.now }
{
    b.iter().fold(0, |joined, x| joined | x) == 0
}

// "message 0 all zero"
pub fn first_zero(image: &Image) -> bool
    ensures { result ≡ first_ok image.now }
{
    zero_bytes(record::<MESSAGE>(image, MESSAGES_AT, 0))
}

// "messages beyond used are zero": of the messages used of an image, it goes with the tests of those.
pub fn beyond_zero(image: &Image, used: u16) -> bool
    requires { used ≤ messages }
    ensures bytes { result ≡ zero_bytes (drop (message_place (used + 1)) image.now) }
    ensures all { used ≡ used_at image.now → all_to (message_ok image.now) messages ≡ all_to (message_ok image.now) used && result }
{
    zero_bytes(&image[MESSAGES_AT + MESSAGE * (used as usize + 1)..])
}
