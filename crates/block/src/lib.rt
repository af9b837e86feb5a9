// What blocks hold: a header or a run as bytes, one block at a time, and the bytes of each kind that are no numbers.
// specs/Layout.antt makes the bytes of headers and runs, specs/Reading.antt says what reading and writing answer.
#![tactic(auto)]

mod header;
mod kind;
mod layout;
mod runs;

pub use header::{read_header, write_header};
pub use kind::{Kind, check_kind};
pub use layout::{MOST, PIECE};
pub use runs::{read_run, write_run, write_run_body};
