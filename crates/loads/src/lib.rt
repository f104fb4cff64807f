// "A load that anyone can make again": a journal from a seed and a number of steps.
#![tactic(auto)]

pub mod draws;
pub mod journal;
pub mod steps;
