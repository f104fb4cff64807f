// "Which fields each kind uses is one table": the table, the ranges of the fields, and check 3, which reads both.
#![tactic(auto)]

pub mod check;
pub mod table;
