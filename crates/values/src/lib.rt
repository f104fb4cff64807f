// Values that every machine computes with: sets of numbers as bits, sizes of quorums, entries, tallies of answers.
#![tactic(auto)]

pub mod entries;
pub mod sets;
pub mod sizes;
pub mod tally;
