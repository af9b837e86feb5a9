// The way round a ring, and what is computed of corners within reach.
ghost use Rattle.std.specs.Prelude.{◌≡◌};
ghost use Rattle.decide.specs.Side.{side_of};
ghost use Rattle.footprint.specs.Point.{pt};
ghost use Rattle.footprint.specs.Shape.{around, parted, boxes_apart, aside, bends, wedge};

use crate::number::{least, most, same_side};
use crate::point::Point;

// Number k on the way round a ring of n: after the last comes 0 again.
pub fn around(n: usize, k: usize) -> usize
    ensures { result ≡ around n k }
{
    if k == n { 0 } else { k }
}

// Twice the area of three corners.
fn turn(a: Point, b: Point, c: Point) -> i64
    ensures { result ≡ side_of (pt a) (pt b) (pt c) }
{
    (b.x - a.x) * (c.y - a.y) - (b.y - a.y) * (c.x - a.x)
}

// An edge's part in twice the area.
pub(crate) fn wedge(a: Point, b: Point) -> i64
    ensures { result ≡ wedge (pt a) (pt b) }
{
    a.x * b.y - a.y * b.x
}

fn parted(a: i64, b: i64, c: i64, d: i64) -> bool
    ensures { result ≡ parted a b c d }
{
    most(c, d) < least(a, b) || most(a, b) < least(c, d)
}

// Whether the boxes of the edges a b and c d have no point in common: `extent` has a table of such boxes, in 16 bits, but not yet on the first pass.
fn boxes_apart(a: Point, b: Point, c: Point, d: Point) -> bool
    ensures { result ≡ boxes_apart (pt a) (pt b) (pt c) (pt d) }
{
    parted(a.x, b.x, c.x, d.x) || parted(a.y, b.y, c.y, d.y)
}

// Whether the edge c d lies strictly on one side of the line of a b.
pub(crate) fn aside(a: Point, b: Point, c: Point, d: Point) -> bool
    ensures { result ≡ aside (pt a) (pt b) (pt c) (pt d) }
{
    same_side(turn(a, b, c), turn(a, b, d))
}

// Whether an outer end of the edges a b and b c lies on the other edge: three corners are seldom in line.
pub(crate) fn bends(a: Point, b: Point, c: Point) -> bool
    ensures { result ≡ bends (pt a) (pt b) (pt c) }
{
    !aside(a, b, c, c) && !(boxes_apart(b, c, a, a) && boxes_apart(a, b, c, c))
}
