// Demand 3 on worlds. The crate has no code: its theorem stands in specs/Theorem.antt and is proved in proofs/.
#![tactic(auto)]
