// Which runs, pieces and points are good: the first fault of their numbers, and then of the footprint.
// The footprint's own checks: the crate `footprint`. Definitions: the crates `rules` and `refusal`; specs/Numbers.antt says which run, piece and point plain numbers are.
#![tactic(auto)]

ghost use Rattle.rules.specs.Good.{run_checks, piece_checks};
ghost use Rattle.rules.specs.Place.{place_checks};
ghost use Rattle.refusal.specs.Said.{Finds};
ghost use Rattle.good.specs.Numbers.{run_of, piece_of, pt};

use crate::reach::{check_numbers, is_length, is_speed, is_top};
use footprint::{check_footprint, reaches, sized};
use refusal::Refusal;

mod reach;

// A run in plain numbers.
#[derive(Clone, Copy)]
pub struct Run {
    pub x: i32,
    pub y: i32,
    pub z: i32,
    pub vx: i32,
    pub vy: i32,
    pub vz: i32,
    pub ticks: u32,
}

// A piece in plain numbers, but for its corners, which stand in a list x, y, x, y ..: the heights that it takes up, and its velocity.
#[derive(Clone, Copy)]
pub struct Slab {
    pub bottom: i32,
    pub top: i32,
    pub vx: i32,
    pub vy: i32,
    pub vz: i32,
}

// Whether a run is good.
pub fn check_run(run: Run) -> Result<(), Refusal>
    ensures { Finds (run_checks (run_of run)) result }
{
    check_numbers(&[
        reaches(run.x),
        reaches(run.y),
        reaches(run.z),
        is_speed(run.vx),
        is_speed(run.vy),
        is_speed(run.vz),
        is_length(run.ticks),
    ])
}

// Whether a piece is good: the corners' count, the band's numbers, and then the footprint. A top below the bottom counts as out of reach.
pub fn check_piece(slab: Slab, corners: &[i32]) -> Result<(), Refusal>
    ensures { Finds (piece_checks (piece_of slab corners.now)) result }
{
    if !sized(corners) {
        return Err(Refusal::Corners);
    }
    check_numbers(&[
        reaches(slab.bottom),
        is_top(slab.bottom, slab.top),
        is_speed(slab.vx),
        is_speed(slab.vy),
        is_speed(slab.vz),
    ])?;
    check_footprint(corners)
}

// The checks before a place is answered: the point's numbers, then the footprint.
pub fn check_place(x: i32, y: i32, l: &[i32]) -> Result<(), Refusal>
    ensures { Finds (place_checks (pt x y) l.now) result }
{
    check_numbers(&[reaches(x), reaches(y)])?;
    check_footprint(l)
}
