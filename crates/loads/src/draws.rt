// Draws, and the fields that take them.
ghost use Rattle.std.specs.Prelude.{◌≡◌, ◌≤◌};
ghost use Rattle.loads.specs.Draws.{draw as draw_of, start as start_of, drawn as drawn_by};

use protocol::Range;

// The draws of a load, by the state that the next one starts from.
#[derive(Clone, Copy, Debug, PartialEq, Eq)]
pub struct Draws {
    pub state: u32,
}

impl Draws {
    // "a seed of 0 stands for 1"
    #[tactic(auto, unfolding(crate::specs::Draws::start))]
    pub fn new(seed: u32) -> Draws
        ensures { result.state ≡ start_of seed }
    {
        Draws { state: seed.max(1) }
    }

    // "Marsaglia's 32-bit xorshift with shifts 13 left, 17 right, 5 left, a draw being the state after them"
    #[tactic(auto, unfolding(crate::specs::Draws::draw))]
    fn draw(&mut self) -> u32
        ensures value { result ≡ draw_of self.old.state }
        ensures state { self.new.state ≡ draw_of self.old.state }
    {
        self.state ^= self.state << 13;
        self.state ^= self.state >> 17;
        self.state ^= self.state << 5;
        self.state
    }

    // A used field takes one draw: "its remainder by the size of the field's range plus the lowest value". An unused one takes
    // none: the test comes first, so that a kind without the field jumps over the draw.
    #[tactic(auto, unfolding(crate::specs::Draws::drawn))]
    pub fn field(&mut self, used: bool, range: Range) -> u32
        requires { range.low ≤ range.high }
        ensures value { result ≡ (drawn_by used range self.old.state).value }
        ensures state { self.new.state ≡ (drawn_by used range self.old.state).state }
        ensures high { result ≤ range.high }
    {
        if used {
            let size = range.high as u64 + 1 - range.low as u64;
            (self.draw() as u64 % size) as u32 + range.low
        } else {
            0
        }
    }
}
