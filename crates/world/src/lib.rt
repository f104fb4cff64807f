// The steps of a world on its lent image, by kind.
#![tactic(auto)]

pub mod clients;
pub mod step;
