// Blocks of 512 bytes, whatever they hold: their check, their zeros, and a block of two parts.
// specs/Seal.antt has the block of its first bytes and its checks, specs/Parts.antt what a block of parts is, specs/Scan.antt bytes that become zero.
#![tactic(auto)]

mod fill;
mod layout;
mod parts;
mod scan;
mod sums;

pub use fill::clear;
pub use layout::SIZE;
pub use parts::{is_parts, write_parts};
pub use scan::check_unnamed;
pub use sums::check_block;
