// Runs and pieces in plain numbers.
ghost use Rattle.rules.specs.Reach.{run, piece};
ghost use Rattle.good.specs.Numbers.{pt};
ghost use Rattle.baker.specs.Calls.{CheckRunGives, CheckPieceGives, PlaceGives, VerdictGives};

use crate::given::{run_of, slab_of};
use coding::Code;

#[unsafe(no_mangle)]
pub extern "C" fn baker_check_run(
    x: i32,
    y: i32,
    z: i32,
    vx: i32,
    vy: i32,
    vz: i32,
    ticks: u32,
) -> u64
    ensures { CheckRunGives (run x y z vx vy vz ticks) result }
{
    let run = run_of(x, y, z, vx, vy, vz, ticks);
    good::check_run(run).code()
}

#[unsafe(no_mangle)]
pub extern "C" fn baker_check_piece(
    bottom: i32,
    top: i32,
    vx: i32,
    vy: i32,
    vz: i32,
    corners: &[i32],
) -> u64
    ensures { CheckPieceGives (piece bottom top vx vy vz corners.now) result }
{
    let slab = slab_of(bottom, top, vx, vy, vz);
    good::check_piece(slab, corners).code()
}

#[unsafe(no_mangle)]
pub extern "C" fn baker_place(x: i32, y: i32, corners: &[i32]) -> u64
    ensures { PlaceGives (pt x y) corners.now result }
{
    piece::place(x, y, corners).code()
}

#[unsafe(no_mangle)]
pub extern "C" fn baker_verdict(
    x: i32,
    y: i32,
    z: i32,
    vx: i32,
    vy: i32,
    vz: i32,
    ticks: u32,
    bottom: i32,
    top: i32,
    ux: i32,
    uy: i32,
    uz: i32,
    corners: &[i32],
) -> u64
    ensures { VerdictGives (run x y z vx vy vz ticks) (piece bottom top ux uy uz corners.now) result }
{
    let run = run_of(x, y, z, vx, vy, vz, ticks);
    let slab = slab_of(bottom, top, ux, uy, uz);
    piece::verdict(run, slab, corners).code()
}
