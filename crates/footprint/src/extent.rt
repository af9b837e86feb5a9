// The boxes of all edges in a table. Most pairs of edges are told apart by their boxes, and the table is small enough to make it first.
ghost use Rattle.std.specs.Prelude.{◌≡◌, ℕ, ◌<◌};
ghost use Rattle.std.specs.Int.{w16};
ghost use Rattle.std.proofs.Common.{SFits};
ghost use Rattle.rules.specs.Ring.{ring};
ghost use Rattle.footprint.specs.Point.{pt};
ghost use Rattle.footprint.specs.Shape.{Corner};
ghost use Rattle.footprint.specs.Table.{interval_of, extent_of, split, extents_apart, AllBoxed};

use crate::corners::Corners;
use crate::number::{least, most, narrow};
use crate::point::Point;

// From the lower of two numbers to the higher: 16 bits hold every number within reach.
#[derive(Clone, Copy)]
pub(crate) struct Interval {
    pub(crate) low: i16,
    pub(crate) high: i16,
}

// The box of an edge.
#[derive(Clone, Copy)]
pub(crate) struct Extent {
    pub(crate) x: Interval,
    pub(crate) y: Interval,
}

fn interval_of(a: i64, b: i64) -> Interval
    requires { SFits w16 a × SFits w16 b }
    ensures { result ≡ interval_of a b }
{
    let low = narrow(least(a, b));
    let high = narrow(most(a, b));
    Interval { low, high }
}

// The box of the edge from a to b.
fn extent_of(a: Point, b: Point) -> Extent
    ensures { result ≡ extent_of (pt a) (pt b) }
{
    let x = interval_of(a.x, b.x);
    let y = interval_of(a.y, b.y);
    Extent { x, y }
}

// The boxes of all edges.
pub(crate) fn fill(corners: Corners, t: &mut [Extent; 64])
    requires { (j : ℕ) → j < corners.count → Corner corners.list.now j }
    ensures { AllBoxed (ring corners.entry.list.now) t.new corners.entry.count }
{
    for i in 0..corners.count {
        t[i] = extent_of(corners.at(i), corners.at(corners.after(i)));
    }
}

// Whether two intervals have no number in common.
fn split(s: Interval, t: Interval) -> bool
    ensures { result ≡ split s t }
{
    t.high < s.low || s.high < t.low
}

// Whether two boxes have no point in common.
pub(crate) fn apart(a: Extent, b: Extent) -> bool
    ensures { result ≡ extents_apart a b }
{
    split(a.x, b.x) || split(a.y, b.y)
}
