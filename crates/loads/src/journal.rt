// The journal of a load, written into a lent buffer.
ghost use Rattle.std.specs.Prelude.{◌≡◌, ◌*◌, ◌+◌, length};
ghost use Rattle.protocol.specs.Runs.{step_width};
ghost use Rattle.protocol.specs.Refusals.{code};
ghost use Rattle.loads.specs.Load.{spelled, load_from, load_on};

use super::draws::Draws;
use protocol::{Refusal, Step};

// The width of a step.
pub const STEP: usize = 12;

// "little-endian"
#[tactic(auto, unfolding(crate::specs::Load::spelled))]
fn step_bytes(st: Step) -> [u8; STEP]
    ensures { result ≡ spelled st }
{
    let [m0, m1] = st.message.0.to_le_bytes();
    let [s0, s1] = st.source.0.to_le_bytes();
    let [v0, v1, v2, v3] = st.value.to_le_bytes();
    [
        st.kind, st.who, st.view.0, st.f, m0, m1, s0, s1, v0, v1, v2, v3,
    ]
}

// Writes the steps that the next draws make, as many as the definitions draw. By an index: std says nothing of what a slice holds once its chunks were lent.
#[tactic(auto, using(std::proofs::lemmas::Grind::common_steps, std::proofs::lemmas::Slice::overwrites), unfolding(crate::specs::Load::load_from, crate::specs::Load::longer))]
pub fn fill(journal: &mut [u8], draws: &mut Draws, steps: u32)
    requires { length journal.old ≡ step_width * steps }
    ensures state { draws.new.state ≡ (load_from draws.old.state steps).state }
    ensures journal { journal.new ≡ (load_from draws.old.state steps).journal }
{
    for i in 0..steps as usize {
        journal[STEP * i..STEP * (i + 1)].copy_from_slice(&step_bytes(draws.step()));
    }
}

// "From a seed (u32) and a number of steps, write a journal." 1, a buffer of another length.
#[tactic(auto, unfolding(crate::specs::Load::load_on, crate::specs::Load::journal_of))]
pub fn load(journal: &mut [u8], seed: u32, steps: u32) -> Result<(), Refusal>
    ensures refusal { code result ≡ (load_on journal.old seed steps).refusal }
    ensures journal { journal.new ≡ (load_on journal.old seed steps).journal }
{
    if journal.len() != STEP * steps as usize {
        return Err(Refusal::WrongLength);
    }
    fill(journal, &mut Draws::new(seed), steps);
    Ok(())
}
