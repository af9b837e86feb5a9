// Decimals, read exactly: the grid number of one, or what keeps it from the grid.
ghost use Rattle.std.specs.Prelude.{◌≡◌, cond, ◌+◌, ◌*◌, ◌^◌, ◌≤◌, ◌<◌, eqb, ltb};
ghost use Rattle.line.specs.Steps.{digit_or, number_or, few_or, Entered, pointed_or, decimal_or};

use crate::Missed;
use crate::text::cut;

// What a digit says.
fn digit(b: u8) -> Option<u32>
    ensures { result ≡ digit_or b }
{
    if b.is_ascii_digit() {
        Some((b - b'0') as u32)
    } else {
        None
    }
}

// The number that digits say, or the largest of 32 bits where it is above that.
pub(crate) fn number(w: &[u8]) -> Option<u32>
    ensures { result ≡ number_or w.now }
{
    if w.is_empty() {
        return None;
    }
    let mut n = 0u64;
    for &b in w {
        n = (10 * n + u64::from(digit(b)?)).min(u64::from(u32::MAX));
    }
    Some(n as u32)
}

// The number that one to nine digits say. 32 bits hold it: a loop of its own is quicker than `number`, which compares at each digit.
fn few(w: &[u8]) -> Option<u32>
    ensures { result ≡ few_or w.now }
{
    if w.is_empty() || 9 < w.len() {
        return None;
    }
    let mut n = 0u32;
    for &b in w {
        n = 10 * n + digit(b)?;
    }
    Some(n)
}

const TENS: [u32; 10] = [
    1, 10, 100, 1000, 10000, 100000, 1000000, 10000000, 100000000, 1000000000,
];

// A power of ten, from a table: it is quicker than pow.
fn power(n: usize) -> u32
    requires { n ≤ 9 }
    ensures { result ≡ 10 ^ n }
{
    TENS[n]
}

// Whether a whole number and a part of one are more than 1,024.
fn is_beyond(whole: u32, part: u32) -> bool
    ensures { result ≡ cond (eqb part 0) (ltb 1024 whole) (ltb 1023 whole) }
{
    if part == 0 {
        1024 < whole
    } else {
        1023 < whole
    }
}

// The entry of whole + part/scale. The whole part is held against the reach first, so that nothing grows.
#[tactic(auto, using(crate::proofs::Decimals::entered, crate::proofs::Decimals::grid_small))]
fn grid_of(minus: bool, whole: u32, part: u32, scale: u32) -> Result<i32, Missed>
    requires { (part < scale) × (scale ≤ 1000000000) }
    ensures { Entered minus (whole * scale + part) scale result }
{
    if is_beyond(whole, part) {
        return Err(Missed::Beyond);
    }
    let scaled = 16 * part as u64;
    if scaled % scale as u64 != 0 {
        return Err(Missed::OffGrid);
    }
    let grid = (16 * whole + (scaled / scale as u64) as u32) as i32;
    Ok(if minus { -grid } else { grid })
}

// A decimal past its sign: digits, perhaps a point and digits.
fn unsigned(w: &[u8], minus: bool) -> Option<Result<i32, Missed>>
    ensures { result ≡ pointed_or minus w.now }
{
    let (whole, part) = cut(w, b'.');
    let n = few(whole)?;
    match part {
        None => Some(grid_of(minus, n, 0, 1)),
        Some(part) => Some(grid_of(minus, n, few(part)?, power(part.len()))),
    }
}

// A decimal, or minus it. Put into its caller: an answer that goes through memory part by part is waited for there.
#[tactic(auto, using(crate::proofs::Decimals::minus_entry, crate::proofs::Decimals::plus_entry, crate::proofs::Decimals::plain_entry))]
#[inline(always)]
pub(crate) fn decimal(w: &[u8], turn: bool) -> Option<Result<i32, Missed>>
    ensures { result ≡ decimal_or turn w.now }
{
    match w {
        [b'-', rest @ ..] => unsigned(rest, !turn),
        [b'+', rest @ ..] => unsigned(rest, turn),
        _ => unsigned(w, turn),
    }
}
