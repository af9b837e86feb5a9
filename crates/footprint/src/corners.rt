// The corners of a footprint, as many as one has.
ghost use Rattle.footprint.specs.Shape.{HoldsRing};

use crate::number::{reaches, wide};
use crate::point::Point;
use crate::ring::around;
use refusal::Refusal;

// A list x, y, x, y .., and how many corners it holds.
#[derive(Clone, Copy)]
pub(crate) struct Corners<'a> {
    pub(crate) list: &'a [i32],
    pub(crate) count: usize,
    ghost holds: { HoldsRing list.now count },
}

impl Corners<'_> {
    ghost use Rattle.std.specs.Prelude.{◌≡◌, ◌<◌, length};
    ghost use Rattle.rules.specs.Ring.{ring, next};
    ghost use Rattle.footprint.specs.Point.{pt};
    ghost use Rattle.footprint.specs.Shape.{Corner, NumberSays, CornerSays};

    // Number j of the list, looked at before it is computed with.
    fn number(self, j: usize) -> Result<i64, Refusal>
        requires { j < length self.list.now }
        ensures { NumberSays self.entry.list.now j result }
    {
        if reaches(self.list[j]) {
            Ok(wide(self.list[j]))
        } else {
            Err(Refusal::Reach(12 + 2 * j))
        }
    }

    // Corner i, if both its numbers are within reach.
    pub(crate) fn reached(self, i: usize) -> Result<Point, Refusal>
        requires { i < self.count }
        ensures { CornerSays self.entry.list.now i result }
    {
        let x = self.number(2 * i)?;
        let y = self.number(2 * i + 1)?;
        Ok(Point { x, y })
    }

    // Corner i, known to be within reach.
    pub(crate) fn at(self, i: usize) -> Point
        requires { Corner self.list.now i }
        ensures { pt result ≡ (ring self.entry.list.now).at i }
    {
        let x = wide(self.list[2 * i]);
        let y = wide(self.list[2 * i + 1]);
        Point { x, y }
    }

    // The number of the corner after corner i.
    pub(crate) fn after(self, i: usize) -> usize
        requires { i < self.count }
        ensures below { result < self.entry.count }
        ensures next { result ≡ next (ring self.entry.list.now).size i }
    {
        around(self.count, i + 1)
    }
}
