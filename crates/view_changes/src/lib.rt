// The steps of the administrator on a lent image: a new view called, and a restart.
#![tactic(auto)]

pub mod restarts;
pub mod views;
