// The corners of the face, from its line and the table.
ghost use Rattle.std.specs.Prelude.{◌≡◌};
ghost use Rattle.obj.specs.Steps.{missing, Fit, FitBoth, kept, Drafted, Gather};

use crate::table::Entry;
use line::{Missed, next_corner};
use refusal::Refusal;

// 12 or 13.
fn refused(missed: Missed, corner: usize, axis: usize) -> Refusal
    ensures { result ≡ missing missed corner axis }
{
    match missed {
        Missed::Beyond => Refusal::Beyond(corner, axis),
        Missed::OffGrid => Refusal::OffGrid(corner, axis),
    }
}

// A grid number of the table, or its refusal.
fn fit(n: Result<i16, Missed>, corner: usize, axis: usize) -> Result<i32, Refusal>
    ensures { Fit n corner axis result }
{
    match n {
        Ok(k) => Ok(i32::from(k)),
        Err(missed) => Err(refused(missed, corner, axis)),
    }
}

// And of a corner, x before y.
fn fit_both(at: Entry, corner: usize) -> Result<(i32, i32), Refusal>
    ensures { FitBoth at corner result }
{
    let x = fit(at.x, corner, 0)?;
    let y = fit(at.y, corner, 1)?;
    Ok((x, y))
}

// A corner's numbers into their places; a footprint has 64 corners at most.
fn keep(x: i32, y: i32, i: usize, numbers: &mut [i32; 128])
    ensures { numbers.new ≡ kept x y i numbers.old }
{
    if i < 64 {
        numbers[2 * i] = x;
        numbers[2 * i + 1] = y;
    }
}

// Every corner is looked at, however many there are.
pub(crate) fn gather(
    line: &[u8],
    above: u16,
    table: &[Entry],
    numbers: &mut [i32; 128],
) -> Result<usize, Refusal>
    requires { Drafted line.now above table.now }
    ensures { Gather line.now above table.now numbers.new result }
{
    // the first word is f, and every other a corner that names a vertex
    let mut at = next_corner(line, 0, above).unwrap().to;
    // the corner's number, a refusal's first place
    let mut i = 0;
    while let Some(corner) = next_corner(line, at, above) {
        let v = corner.vertex.unwrap();
        let (x, y) = fit_both(table[v], i)?;
        keep(x, y, i, numbers);
        at = corner.to;
        i += 1;
    }
    Ok(i)
}
