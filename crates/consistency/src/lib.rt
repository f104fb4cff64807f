// Demand 3 on images. The crate has no code: its theorems stand in specs/Theorem.antt and are proved in proofs/.
#![tactic(auto)]
