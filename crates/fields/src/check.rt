// Check 3: "3, unknown kind, a field out of range or an unused field set".
ghost use Rattle.std.specs.Prelude.{◌≡◌};
ghost use Rattle.protocol.specs.Steps.{field, restart_fits, fields_fit};

use super::table::{
    F, MESSAGE, MESSAGE_RANGE, Row, SOURCE, SOURCE_RANGE, THRESHOLD_RANGE, VALUE, VALUE_RANGE,
    VIEW, VIEW_RANGE,
};
use protocol::{Range, Step, StepKind};

// A used field is in its range; "an unused field is zero".
fn fits(used: bool, range: Range, x: u32) -> bool
    ensures { result ≡ field used range x }
{
    if used {
        (range.low..=range.high).contains(&x)
    } else {
        x == 0
    }
}

// "with value 0 both are 0, else 3": a restart that leaves the pending view names neither f nor a read size.
fn restart_fits(st: Step) -> bool
    ensures { result ≡ restart_fits st }
{
    !st.is(StepKind::Restart) || st.value != 0 || st.f == 0 && st.who == 0
}

#[tactic(auto, using(crate::proofs::Known::known), unfolding(protocol::specs::Steps::fields_fit))]
pub fn fields_fit(st: Step) -> bool
    ensures { result ≡ fields_fit st }
{
    let row = Row::of(st.kind);
    StepKind::try_from(st.kind).is_ok()
        && fits(row.who_used(), row.who_range(), st.who as u32)
        && fits(row.uses(VIEW), VIEW_RANGE, st.view.0 as u32)
        && fits(row.uses(F), THRESHOLD_RANGE, st.f as u32)
        && fits(row.uses(MESSAGE), MESSAGE_RANGE, st.message.0 as u32)
        && fits(row.uses(SOURCE), SOURCE_RANGE, st.source.0 as u32)
        && fits(row.uses(VALUE), VALUE_RANGE, st.value)
        && restart_fits(st)
}
