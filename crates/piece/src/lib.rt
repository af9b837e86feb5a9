// The geometry: where a point lies, and when a run meets a piece.
// What is good: the crate `good`, which also says which run and which piece plain numbers are. Definitions: the crates `rules` and `refusal`.

#![tactic(auto)]

ghost use Rattle.good.specs.Numbers.{run_of, piece_of, pt};
ghost use Rattle.piece.specs.Place.{Lies};
ghost use Rattle.piece.specs.Tells.{Tells};

use good::{Run, Slab, check_piece, check_place, check_run};
use refusal::Refusal;

mod code;
mod corners;
mod mark;
mod motion;
mod point;
mod span;
mod spot;

pub use code::coded;
pub use spot::Spot;

// Clear, as a verdict is coded in an entry and for C, whose formats have no Option: no mark is as large.
pub const NONE: u32 = 0xFFFF_FFFF;

// Where a point of the grid lies against a footprint.
pub fn place(x: i32, y: i32, corners: &[i32]) -> Result<Spot, Refusal>
    ensures { Lies (pt x y) corners.now result }
{
    check_place(x, y, corners)?;
    Ok(spot::grid_spot(x, y, corners))
}

// The verdict of a run and a piece, None where it is clear: the run is checked first, then the piece.
#[tactic(auto, using(crate::proofs::Tells::run_refused, crate::proofs::Tells::piece_refused))]
pub fn verdict(run: Run, slab: Slab, corners: &[i32]) -> Result<Option<u32>, Refusal>
    ensures { Tells (run_of run) (piece_of slab corners.now) result }
{
    check_run(run)?;
    check_piece(slab, corners)?;
    Ok(mark::mark(run, slab, corners))
}
