// Which footprints are good, and leaf functions of numbers and rings, which other crates need too.
// Definitions: the crates `rules`, `refusal` and `decide`.
#![tactic(auto)]

mod checks;
mod corners;
mod edges;
mod extent;
mod number;
mod point;
mod ring;

pub use checks::{check_footprint, sized};
pub use number::{least, less, most, ranged, reaches, same_side, wide};
pub use ring::around;
