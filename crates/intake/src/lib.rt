// The intake of exported corners into a lent list; the crate `grid` answers one number.
#![tactic(auto)]

ghost use Rattle.std.specs.Prelude.{◌≤◌};
ghost use Rattle.intake.specs.Footprint.{Put, Refuses, Paired, Gathered, Intake};

use grid::{Taken, take};
use refusal::Refusal;

// A corner as exported.
#[derive(Clone, Copy)]
pub struct Corner {
    pub x: f32,
    pub y: f32,
}

// The refusal of a number that is not taken: not a number, out of reach, or else off grid. A grid number is not asked about.
fn refused(answer: Taken, corner: usize, axis: usize) -> Refusal
    ensures { Refuses answer corner axis result }
{
    match answer {
        Taken::NotNumber => Refusal::NotNumber(corner, axis),
        Taken::Beyond => Refusal::Beyond(corner, axis),
        _ => Refusal::OffGrid(corner, axis),
    }
}

// x is looked at before y. The specification asks for each answer taken apart by let .. else.
fn pair(corner: Corner, i: usize) -> Result<(i32, i32), Refusal>
    ensures { Paired corner i result }
{
    let first = take(corner.x);
    let Taken::Grid(x) = first else {
        return Err(refused(first, i, 0));
    };
    let second = take(corner.y);
    let Taken::Grid(y) = second else {
        return Err(refused(second, i, 1));
    };
    Ok((x, y))
}

// The corners in their order, into numbers of our own.
fn gather(corners: [Corner; 64], count: usize) -> Result<[i32; 128], Refusal>
    requires { count ≤ 64 }
    ensures { Gathered corners count result }
{
    let mut numbers = [0; 128];
    for i in 0..count {
        let (x, y) = pair(corners[i], i)?;
        numbers[2 * i] = x;
        numbers[2 * i + 1] = y;
    }
    Ok(numbers)
}

// Numbers into a lent list, from its begin on.
pub fn put(numbers: &[i32], list: &mut [i32]) -> Result<(), Refusal>
    ensures { Put numbers.now list.old result list.new }
{
    if list.len() < numbers.len() {
        return Err(Refusal::Short);
    }
    list[..numbers.len()].copy_from_slice(numbers);
    Ok(())
}

// A footprint: `count` corners into a lent list, x then y. The list changes only where every corner is taken.
// The specification asks for corners by value.
pub fn intake(corners: [Corner; 64], count: usize, list: &mut [i32]) -> Result<(), Refusal>
    ensures { Intake corners count list.old result list.new }
{
    if count < 3 || 64 < count {
        return Err(Refusal::Corners);
    }
    if list.len() < 2 * count {
        return Err(Refusal::Short);
    }
    let numbers = gather(corners, count)?;
    put(&numbers[..2 * count], list)
}
