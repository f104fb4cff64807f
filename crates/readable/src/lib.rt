// Whether an image is the image of a readable world: header, records, chains, the bytes beyond them, and the counts of key
// holders.
#![tactic(auto)]

mod beyond;
mod chain;
pub mod readable;
mod sent;
