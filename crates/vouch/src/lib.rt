// Entries without a signature: chosen by how many servers show them.
#![tactic(auto)]

mod answers;
pub mod call;
mod checks;
mod choice;
mod support;
