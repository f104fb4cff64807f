// The records of the archive as bytes of a lent image.
#![tactic(auto)]

pub mod bytes;
pub mod layout;
pub mod places;
pub mod records;
