// Numbers of two bytes, low byte first.
// specs/Pair.antt says which bytes they are, and what the calls answer and leave.
#![tactic(auto)]

mod read;
mod word;
mod write;

pub use read::read_pairs;
pub use write::{first_wide, write_pairs};
