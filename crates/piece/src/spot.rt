// Where a point lies against a footprint.
ghost use Rattle.std.specs.Prelude.{◌≡◌, ◌&&◌, ◌≤◌, nat_abs};
ghost use Rattle.rules.specs.Ring.{ring};
ghost use Rattle.rules.specs.Refusal.{Passes};
ghost use Rattle.rules.specs.Place.{Place, place_checks};
ghost use Rattle.decide.specs.Crossing.{crosses};
ghost use Rattle.decide.specs.Touch.{least, most, ranged, is_on, place, over, contact};
ghost use Rattle.good.specs.Numbers.{pt};
ghost use Rattle.piece.specs.Place.{where_of};
ghost use Rattle.piece.specs.Seen.{pt_of};

use crate::corners::Corners;
use crate::point::Point;
use footprint::{least, most, ranged, wide};

// Where a point lies.
#[derive(Clone, Copy, PartialEq, Eq)]
pub enum Spot {
    On,
    Inside,
    Outside,
}

impl Spot {
    // On or inside is a contact.
    pub(crate) fn is_contact(self) -> bool
        ensures { result ≡ contact (where_of self) }
    {
        matches!(self, Spot::On | Spot::Inside)
    }
}

// Whether p lies in the box of the edge a b.
fn in_box(a: Point, b: Point, p: Point) -> bool
    ensures { result ≡ (ranged (least a.x b.x) p.x (most a.x b.x) && ranged (least a.y b.y) p.y (most a.y b.y)) }
{
    ranged(least(a.x, b.x), p.x, most(a.x, b.x)) && ranged(least(a.y, b.y), p.y, most(a.y, b.y))
}

// Whether p lies on the edge a b: its box is looked at before any product.
fn is_on(a: Point, b: Point, p: Point) -> bool
    ensures { result ≡ is_on (pt_of p) (pt_of a) (pt_of b) }
{
    in_box(a, b, p) && p.side(a, b) == 0
}

// Whether the edge a b is counted for p: a product is needed only where exactly one end is not past p.
fn is_counted(a: Point, b: Point, p: Point) -> bool
    ensures { result ≡ crosses (pt_of a) (pt_of b) (pt_of p) }
{
    match (p.x < a.x, p.x < b.x) {
        (true, false) => 0 < p.side(a, b),
        (false, true) => p.side(a, b) < 0,
        _ => false,
    }
}

// The place of the point p over d, in one pass over the edges. A corner is carried from one edge to the next.
pub(crate) fn place_at(l: Corners, p: Point, d: i64) -> Spot
    requires { nat_abs d ≤ 510 }
    ensures { where_of result ≡ place (over d (ring l.entry.list.now)) (pt_of p) }
{
    let mut odd = false;
    let mut a = l.at(0).times(d);
    for i in 0..l.count() {
        let b = l.after(i).times(d);
        if is_on(a, b, p) {
            return Spot::On;
        }
        odd ^= is_counted(a, b, p);
        a = b;
    }
    if odd { Spot::Inside } else { Spot::Outside }
}

// A point of the grid against a good footprint.
pub(crate) fn grid_spot(x: i32, y: i32, corners: &[i32]) -> Spot
    requires { Passes (place_checks (pt x y) corners.now) }
    ensures { Place (ring corners.now) (pt x y) (where_of result) }
{
    let p = Point {
        x: wide(x),
        y: wide(y),
    };
    place_at(Corners::new(corners), p, 1)
}
