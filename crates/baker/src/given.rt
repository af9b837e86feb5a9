// The run and the slab that a call's numbers say.
ghost use Rattle.std.specs.Prelude.{◌≡◌, List, ℤ};
ghost use Rattle.rules.specs.Reach.{run, piece};
ghost use Rattle.good.specs.Numbers.{run_of, piece_of};

use good::{Run, Slab};

pub(crate) fn run_of(x: i32, y: i32, z: i32, vx: i32, vy: i32, vz: i32, ticks: u32) -> Run
    ensures { run_of result ≡ run x y z vx vy vz ticks }
{
    Run {
        x,
        y,
        z,
        vx,
        vy,
        vz,
        ticks,
    }
}

// Whatever corners stand beside it.
pub(crate) fn slab_of(bottom: i32, top: i32, vx: i32, vy: i32, vz: i32) -> Slab
    ensures { (l : List ℤ) → piece_of result l ≡ piece bottom top vx vy vz l }
{
    Slab {
        bottom,
        top,
        vx,
        vy,
        vz,
    }
}
