// The checks of a footprint, in their order.
ghost use Rattle.std.specs.Prelude.{◌≡◌, true, ℕ, ◌-◌, ◌<◌, [], ◌∷◌};
ghost use Rattle.rules.specs.Ring.{ring};
ghost use Rattle.rules.specs.Good.{Sized, corners_check, shape_checks, footprint_checks};
ghost use Rattle.refusal.specs.Said.{Finds, Told};
ghost use Rattle.whole.specs.Decide.{Decides};
ghost use Rattle.footprint.specs.Point.{pt};
ghost use Rattle.footprint.specs.Shape.{Corner, Draws, FirstPair, bends};

use crate::corners::Corners;
use crate::edges::Edges;
use crate::extent::{Extent, Interval, fill};
use crate::point::Point;
use crate::ring::{bends, wedge};
use refusal::Refusal;

// What one pass over corners within reach finds: the first corner that equals the next, the first with a fold, and twice the area.
#[derive(Clone, Copy)]
struct Drawing {
    same: Option<usize>,
    fold: Option<usize>,
    area: i64,
}

// The count, and an even list.
pub fn sized(l: &[i32]) -> bool
    ensures { Decides (Sized l.now) result }
{
    let len = l.len();
    if len % 2 != 0 {
        return false;
    }
    if len < 6 {
        return false;
    }
    len <= 128
}

// Whether the edges at corner i bend back, but for corner 0, whose edge before is not looked at yet.
fn bends_after(corners: Corners, i: usize, here: Point, next: Point) -> bool
    requires { Corner corners.list.now (i - 1) }
    ensures { Decides ((0 < i) × (bends ((ring corners.entry.list.now).at (i - 1)) (pt here) (pt next) ≡ true)) result }
{
    0 < i && bends(corners.at(i - 1), here, next)
}

// One pass: a number's reach is looked at before it is computed with.
fn draw(corners: Corners) -> Result<Drawing, Refusal>
    ensures { Told (corners_check corners.entry.list.now ∷ []) (Draws corners.entry.list.now) result }
{
    let first = corners.reached(0)?;
    let mut same = None;
    let mut fold = None;
    let mut area = 0;
    for i in 0..corners.count {
        let next = corners.reached(corners.after(i))?;
        let here = corners.at(i);
        same = same.or((here == next).then_some(i));
        fold = fold.or(bends_after(corners, i, here, next).then_some(i));
        area += wedge(here, next);
    }
    let closing = bends(corners.at(corners.count - 1), first, corners.at(1)).then_some(0);
    let fold = closing.or(fold);
    Ok(Drawing { same, fold, area })
}

fn first_meet(corners: Corners) -> Option<(usize, usize)>
    requires { (j : ℕ) → j < corners.count → Corner corners.list.now j }
    ensures { FirstPair (ring corners.entry.list.now) result }
{
    let none = Interval { low: 0, high: 0 };
    let mut t = [Extent { x: none, y: none }; 64];
    fill(corners, &mut t);
    let edges = Edges {
        corners,
        extents: &t,
    };
    edges.first_pair()
}

// What a drawing says, and the edges' meetings.
fn settle(corners: Corners, drawing: Drawing) -> Result<(), Refusal>
    requires { Told (corners_check corners.list.now ∷ []) (Draws corners.list.now) (Ok drawing) }
    ensures { Finds (shape_checks corners.entry.list.now) result }
{
    if let Some(i) = drawing.same {
        return Err(Refusal::Same(i));
    }
    if let Some(i) = drawing.fold {
        return Err(Refusal::Fold(i));
    }
    if let Some((i, j)) = first_meet(corners) {
        return Err(Refusal::Meet(i, j));
    }
    if drawing.area <= 0 {
        return Err(Refusal::Clockwise);
    }
    Ok(())
}

// The checks from the reach of the corners on.
fn check_shape(l: &[i32]) -> Result<(), Refusal>
    requires { Sized l.now }
    ensures { Finds (shape_checks l.now) result }
{
    let corners = Corners {
        list: l,
        count: l.len() / 2,
    };
    let drawing = draw(corners)?;
    settle(corners, drawing)
}

// Whether a footprint is good: the corners' count, their reach, and their shape.
pub fn check_footprint(l: &[i32]) -> Result<(), Refusal>
    ensures { Finds (footprint_checks l.now) result }
{
    if !sized(l) {
        return Err(Refusal::Corners);
    }
    check_shape(l)
}
