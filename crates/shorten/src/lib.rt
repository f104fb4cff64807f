// The short journal behind a refusal.
#![tactic(auto)]

pub mod shorten;
