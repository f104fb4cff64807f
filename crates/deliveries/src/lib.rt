// The steps of servers on a lent image: a message delivered, a fault, a false answer.
#![tactic(auto)]

mod holders;
pub mod servers;
