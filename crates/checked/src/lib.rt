// What a host calls: the rules of single machines, for every record, with its ranges checked first.
#![tactic(auto)]

pub mod ranges;
pub mod rules;
