// Every accepted step keeps a world readable. The crate has no code: its theorem stands in specs/Kept.antt and is proved in proofs/.
#![tactic(auto)]
