// One exported number: a binary32 number, of which one unit is sixteen grid units.
#![tactic(auto)]

ghost use Rattle.grid.specs.Number.{Scaled, Bounded, Floored, Answer};

// The answer of one number, an enum of four cases as the specification asks: its grid number; the grid value at or below it; not a number; out of reach.
#[derive(Clone, Copy, PartialEq)]
pub enum Taken {
    Grid(i32),
    OffGrid(f32),
    NotNumber,
    Beyond,
}

// Sixteen times a number: exact where it is within reach.
fn sixteenfold(x: f32) -> f32
    ensures { Scaled x result }
{
    x * 16.0
}

// The whole number at or below a scaled number. From 2^23 to 2^24 binary32 has the whole numbers only, so the sum is rounded to one next to it.
fn floor(scaled: f32) -> i32
    requires { Bounded scaled }
    ensures { Floored scaled result }
{
    let raised = scaled + 12582912.0;
    let next = raised as i32 - 12582912;
    let back = next as f32;
    if back > scaled { next - 1 } else { next }
}

// One number.
pub fn take(x: f32) -> Taken
    ensures { Answer x result }
{
    if x.is_nan() {
        return Taken::NotNumber;
    }
    if x < -1024.0 || x > 1024.0 {
        return Taken::Beyond;
    }
    let scaled = sixteenfold(x);
    let k = floor(scaled);
    let back = k as f32;
    if back == scaled {
        return Taken::Grid(k);
    }
    Taken::OffGrid(back * 0.0625)
}
