// The step take on a lent image: the walk along the taken answers, and the close.
#![tactic(auto)]

pub mod take;
mod tally;
