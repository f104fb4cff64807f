// The fresh world in an image, and the premise of one.
#![tactic(auto)]

pub mod fresh;
pub mod premise;
