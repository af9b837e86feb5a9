// Exported numbers, one by one or as a footprint.
ghost use Rattle.std.specs.Prelude.{◌*◌, ◌≤◌, length};
ghost use Rattle.baker.specs.Export.{Exported, Paired};
ghost use Rattle.baker.specs.Calls.{TakeGives, IntakeGives};

use coding::Code;
use grid::{Taken, take};
use intake::Corner;
use refusal::Refusal;

// A case is a number and what it holds is written where C lends it, since C has no enum with parts.
#[unsafe(no_mangle)]
pub extern "C" fn baker_take(x: f32, grid: &mut i32, floor: &mut f32) -> u64
    ensures { TakeGives x grid.old floor.old grid.new floor.new result }
{
    match take(x) {
        Taken::Grid(k) => {
            *grid = k;
            0
        }
        Taken::OffGrid(below) => {
            *floor = below;
            1
        }
        Taken::NotNumber => 2,
        Taken::Beyond => 3,
    }
}

// The first corners of an export, in an array of the most that a footprint has, since nothing is on a heap.
fn corners_of(numbers: &[f32], count: usize) -> [Corner; 64]
    requires { (count ≤ 64) × (2 * count ≤ length numbers.now) }
    ensures { Paired numbers.now count result }
{
    let mut corners = [Corner { x: 0.0, y: 0.0 }; 64];
    for i in 0..count {
        corners[i] = Corner {
            x: numbers[2 * i],
            y: numbers[2 * i + 1],
        };
    }
    corners
}

#[tactic(auto, using(crate::proofs::Pairs::odd_refused, crate::proofs::Pairs::many_refused))]
fn export(numbers: &[f32], list: &mut [i32]) -> Result<(), Refusal>
    ensures { Exported numbers.now list.old list.new result }
{
    let count = numbers.len() / 2;
    if numbers.len() % 2 != 0 || 64 < count {
        return Err(Refusal::Corners);
    }
    intake::intake(corners_of(numbers, count), count, list)
}

#[unsafe(no_mangle)]
pub extern "C" fn baker_intake(numbers: &[f32], list: &mut [i32]) -> u64
    ensures { IntakeGives numbers.now list.old list.new result }
{
    export(numbers, list).code()
}
