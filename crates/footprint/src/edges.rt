// The edges of a footprint whose corners are all within reach, and the first two of them that meet.
ghost use Rattle.footprint.specs.Shape.{Tabled};

use crate::corners::Corners;
use crate::extent::{Extent, apart};
use crate::ring::aside;

// Corners, and the boxes of their edges in a table.
#[derive(Clone, Copy)]
pub(crate) struct Edges<'a> {
    pub(crate) corners: Corners<'a>,
    pub(crate) extents: &'a [Extent; 64],
    ghost tabled: { Tabled corners.list.now extents.now corners.count },
}

impl Edges<'_> {
    ghost use Rattle.std.specs.Prelude.{◌≡◌, ◌<◌};
    ghost use Rattle.rules.specs.Ring.{ring};
    ghost use Rattle.rules.specs.Refusal.{Sought};
    ghost use Rattle.rules.specs.Good.{Meet};
    ghost use Rattle.footprint.specs.Shape.{Ends, edges_share, FirstPair};

    // Where the edges that edge i may meet end.
    fn end(self, i: usize) -> usize
        ensures { Ends self.entry.corners.count i result }
    {
        let count = self.corners.count;
        if i == 0 { count - 1 } else { count }
    }

    // Whether the edges i and j share a point: most pairs are told apart by their boxes.
    fn shares(self, i: usize, j: usize) -> bool
        requires { (i < self.corners.count) × (j < self.corners.count) }
        ensures { result ≡ edges_share (ring self.entry.corners.list.now) i j }
    {
        if apart(self.extents[i], self.extents[j]) {
            return false;
        }
        let corners = self.corners;
        let (a, b) = (corners.at(i), corners.at(corners.after(i)));
        let (c, d) = (corners.at(j), corners.at(corners.after(j)));
        !aside(a, b, c, d) && !aside(c, d, a, b)
    }

    // The first edge that edge i meets. Its neighbours are left out.
    fn first_met(self, i: usize) -> Option<usize>
        requires { i < self.corners.count }
        ensures { Sought (Meet (ring self.entry.corners.list.now) i) self.entry.corners.count result }
    {
        for j in i + 2..self.end(i) {
            if self.shares(i, j) {
                return Some(j);
            }
        }
        None
    }

    // The first two edges that meet.
    pub(crate) fn first_pair(self) -> Option<(usize, usize)>
        ensures { FirstPair (ring self.entry.corners.list.now) result }
    {
        for i in 0..self.corners.count {
            if let Some(j) = self.first_met(i) {
                return Some((i, j));
            }
        }
        None
    }
}
