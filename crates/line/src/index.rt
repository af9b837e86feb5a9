// Whole numbers of any length, and the corners of a face.
ghost use Rattle.std.specs.Prelude.{◌≡◌};
ghost use Rattle.line.specs.Text.{parts, slash};
ghost use Rattle.line.specs.Number.{is_after};
ghost use Rattle.line.specs.Steps.{whole_or, Named};
ghost use Rattle.line.specs.Calls.{corner_or};

use crate::Unnamed;
use crate::decimal::number;
use crate::text::cut;

// A whole number past its minus.
fn whole(w: &[u8]) -> Option<u32>
    ensures { result ≡ whole_or w.now }
{
    match w {
        [b'-', rest @ ..] => number(rest),
        _ => number(w),
    }
}

// Whether t, /m or t/m stand after an index and its slash.
fn is_after(rest: &[u8]) -> bool
    ensures { result ≡ is_after (parts slash rest.now) }
{
    let (t, m) = cut(rest, b'/');
    match m {
        None => whole(t).is_some(),
        Some(m) => (t.is_empty() || whole(t).is_some()) && whole(m).is_some(),
    }
}

// The vertex that an index names, of so many above the face.
#[tactic(auto, using(crate::proofs::Corners::named_none, crate::proofs::Corners::named_one))]
fn named(n: u32, minus: bool, above: u16) -> Result<usize, Unnamed>
    ensures { Named n minus above result }
{
    if n == 0 || n > above as u32 {
        return Err(Unnamed::NoVertex);
    }
    Ok(if minus {
        above as usize - n as usize
    } else {
        n as usize - 1
    })
}

// The vertex that a corner names.
pub(crate) fn corner(w: &[u8], above: u16) -> Result<usize, Unnamed>
    ensures { result ≡ corner_or above w.now }
{
    let (index, after) = cut(w, b'/');
    let n = whole(index).ok_or(Unnamed::NoCorner)?;
    if let Some(after) = after {
        if !is_after(after) {
            return Err(Unnamed::NoCorner);
        }
    }
    let minus = index[0] == b'-';
    named(n, minus, above)
}
