// A phase of a client, or an END of the administrator, as a lent record of the answers taken so far: opened, and given one
// answer at a time until it is closed.
#![tactic(auto)]

pub mod call;
mod layout;
mod phase_record;
mod rules;
