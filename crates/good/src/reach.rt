// The numbers of runs, pieces and points, but for the corners, by rising offset.
ghost use Rattle.std.specs.Prelude.{◌≤ℤ◌};
ghost use Rattle.rules.specs.Reach.{Reach, Speed, Ticks};
ghost use Rattle.whole.specs.Decide.{Decides};
ghost use Rattle.refusal.specs.Said.{Finds};
ghost use Rattle.good.specs.Numbers.{tests_checks};

use footprint::reaches;
use refusal::Refusal;

pub(crate) fn is_speed(v: i32) -> bool
    ensures { Decides (Speed v) result }
{
    -255 <= v && v <= 255
}

// Whether the top is in reach and not below the bottom.
pub(crate) fn is_top(bottom: i32, top: i32) -> bool
    ensures { Decides (Reach top × (bottom ≤ℤ top)) result }
{
    reaches(top) && bottom <= top
}

pub(crate) fn is_length(ticks: u32) -> bool
    ensures { Decides (Ticks ticks) result }
{
    ticks <= 4096
}

// Whether each number is taken, as the tests say: number i stands at offset 2 + 2·i.
pub(crate) fn check_numbers(taken: &[bool]) -> Result<(), Refusal>
    ensures { Finds (tests_checks taken.now) result }
{
    match taken.iter().position(|yes| !*yes) {
        Some(i) => Err(Refusal::Reach(2 + 2 * i)),
        None => Ok(()),
    }
}
