// The corners of a footprint that is good, as a ring. `footprint` has a Corners and a Point of its own: there a corner is looked at before it
// is known to be within reach, here all are, and a point may stand over a denominator.
ghost use Rattle.piece.specs.Sizes.{Held};
ghost use Rattle.std.specs.Prelude.{◌≡◌, ◌<◌};
ghost use Rattle.rules.specs.Ring.{ring, to};

use crate::point::Point;
use footprint::{around, wide};

// A list x, y, x, y .. of corners within reach.
#[derive(Clone, Copy)]
pub(crate) struct Corners<'a> {
    list: &'a [i32],
    ghost held: { Held list.now },
}

impl<'a> Corners<'a> {
    ghost use Rattle.piece.specs.Seen.{pt_of};

    pub(crate) fn new(list: &'a [i32]) -> Self
        requires { Held list.now }
        ensures { result.list.now ≡ list.now }
    {
        Corners { list }
    }

    pub(crate) fn count(self) -> usize
        ensures { result ≡ (ring self.entry.list.now).size }
    {
        self.list.len() / 2
    }

    pub(crate) fn at(self, i: usize) -> Point
        requires { i < (ring self.list.now).size }
        ensures { pt_of result ≡ (ring self.entry.list.now).at i }
    {
        Point {
            x: wide(self.list[2 * i]),
            y: wide(self.list[2 * i + 1]),
        }
    }

    // The corner after corner i.
    pub(crate) fn after(self, i: usize) -> Point
        requires { i < (ring self.list.now).size }
        ensures { pt_of result ≡ to (ring self.entry.list.now) i }
    {
        self.at(around(self.count(), i + 1))
    }
}
