// A step by its draws, "in the step's order, kind (1 to 8) first".
ghost use Rattle.std.specs.Prelude.{◌≡◌};
ghost use Rattle.loads.specs.Draws.{drawn_step};

use super::draws::Draws;
use fields::table::{
    F, MESSAGE, MESSAGE_RANGE, Row, SOURCE, SOURCE_RANGE, VALUE, VALUE_RANGE, VIEW, VIEW_RANGE,
};
use protocol::{MessageNumber, Range, Step, StepKind, ViewNumber};

// The kinds of a load.
const KINDS: Range = Range {
    low: StepKind::Write as u32,
    high: StepKind::GiveUp as u32,
};

// "A new view's f is the remainder by 4."
const THRESHOLDS: Range = Range { low: 0, high: 3 };

impl Draws {
    // A read size is 0 "without a draw".
    #[tactic(auto, unfolding(crate::specs::Draws::drawn_step))]
    pub fn step(&mut self) -> Step
        ensures step { result ≡ (drawn_step self.old.state).step }
        ensures state { self.new.state ≡ (drawn_step self.old.state).state }
    {
        let kind = self.field(true, KINDS) as u8;
        let row = Row::of(kind);
        let who = self.field(row.who_named(), row.who_range()) as u8;
        let view = self.field(row.uses(VIEW), VIEW_RANGE) as u8;
        let f = self.field(row.uses(F), THRESHOLDS) as u8;
        let message = self.field(row.uses(MESSAGE), MESSAGE_RANGE) as u16;
        let source = self.field(row.uses(SOURCE), SOURCE_RANGE) as u16;
        let value = self.field(row.uses(VALUE), VALUE_RANGE);
        Step {
            kind,
            who,
            view: ViewNumber(view),
            f,
            message: MessageNumber(message),
            source: MessageNumber(source),
            value,
        }
    }
}
