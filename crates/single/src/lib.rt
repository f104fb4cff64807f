// Single machines as lent bytes: a record, what is asked of it, and the record written back.
#![tactic(auto)]

pub mod calls;
pub mod rules;
