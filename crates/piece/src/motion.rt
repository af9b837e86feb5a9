// When a point that runs meets a footprint that stands.
// Definitions: the crate `decide`, Touch; specs/Seen.antt says which point and which span the structs are.
ghost use Rattle.std.specs.Prelude.{◌≡◌};
ghost use Rattle.rules.specs.Ring.{ring};
ghost use Rattle.good.specs.Numbers.{pt};
ghost use Rattle.piece.specs.Sizes.{Close, Slow, Tame};
ghost use Rattle.piece.specs.Tells.{Marks, earlier};

use crate::corners::Corners;
use crate::point::{Point, cross};
use crate::span::Span;
use crate::spot::{Spot, place_at};
use footprint::same_side;

// A point and its velocity against the piece's.
#[derive(Clone, Copy)]
pub(crate) struct Motion {
    pub(crate) start: Point,
    pub(crate) speed: Point,
    ghost close: { Close (pt start.x start.y) },
    ghost slow: { Slow (pt speed.x speed.y) },
}

// An edge of a footprint.
#[derive(Clone, Copy)]
pub(crate) struct Edge {
    pub(crate) from: Point,
    pub(crate) to: Point,
    ghost close: { Close (pt from.x from.y) × Close (pt to.x to.y) },
}

fn earlier(a: Option<u32>, b: Option<u32>) -> Option<u32>
    ensures { result ≡ earlier a b }
{
    match (a, b) {
        (Some(a), Some(b)) => Some(a.min(b)),
        (a, b) => a.or(b),
    }
}

impl Motion {
    ghost use Rattle.decide.specs.Touch.{swing, across, on_line, on_edge, touch, touches, start_point, over, place, first_mark};
    ghost use Rattle.piece.specs.Place.{where_of};
    ghost use Rattle.piece.specs.Seen.{pt_of, span_of};

    // The side of a corner against the line of motion.
    fn across(self, v: Point) -> i64
        requires { Close (pt_of v) }
        ensures { result ≡ across (pt_of self.start) (pt_of self.speed) (pt_of v) }
    {
        cross(
            self.speed.x,
            self.speed.y,
            v.x - self.start.x,
            v.y - self.start.y,
        )
    }

    // How the side of the point against an edge changes.
    fn swing(self, e: Edge) -> i64
        ensures { result ≡ swing (pt_of e.from) (pt_of e.to) (pt_of self.speed) }
    {
        cross(
            e.to.x - e.from.x,
            e.to.y - e.from.y,
            self.speed.x,
            self.speed.y,
        )
    }

    // The moments of a span at which the point lies on the line of an edge.
    fn on_line(self, s: Span, e: Edge) -> Span
        ensures { span_of result ≡ on_line (pt_of self.start) (pt_of self.speed) (span_of s) (pt_of e.from) (pt_of e.to) }
    {
        let a = self.start.side(e.from, e.to);
        let b = self.swing(e);
        s.clip(a, b).clip(-a, -b)
    }

    // The moments at which the point lies on an edge.
    fn on_edge(self, s: Span, e: Edge) -> Span
        ensures { span_of result ≡ on_edge (pt_of self.start) (pt_of self.speed) (span_of s) (pt_of e.from) (pt_of e.to) }
    {
        let t = self
            .on_line(s, e)
            .within(self.start.x, self.speed.x, e.from.x, e.to.x);
        t.within(self.start.y, self.speed.y, e.from.y, e.to.y)
    }

    // The first mark on an edge, whose ends' sides against the line of motion are c and d.
    fn touch(self, s: Span, e: Edge, c: i64, d: i64) -> Option<u32>
        requires { (c ≡ across (pt_of self.start) (pt_of self.speed) (pt_of e.from)) × (d ≡ across (pt_of self.start) (pt_of self.speed) (pt_of e.to)) }
        ensures { Marks result (touch (pt_of self.start) (pt_of self.speed) (span_of s) (pt_of e.from) (pt_of e.to)) }
    {
        if same_side(c, d) {
            return None;
        }
        let t = self.on_edge(s, e);
        if t.some() { Some(t.first()) } else { None }
    }

    // The first mark on any edge. A corner and its side are carried from one edge to the next.
    fn touches(self, s: Span, l: Corners) -> Option<u32>
        ensures { Marks result (touches (ring l.entry.list.now) (pt_of self.start) (pt_of self.speed) (span_of s) (ring l.entry.list.now).size) }
    {
        let mut best = None;
        let mut a = l.at(0);
        let mut c = self.across(a);
        for i in 0..l.count() {
            let b = l.after(i);
            let d = self.across(b);
            let e = Edge { from: a, to: b };
            best = earlier(best, self.touch(s, e, c, d));
            a = b;
            c = d;
        }
        best
    }

    // Where the point is as a span begins, all over that moment's denominator.
    fn begins(self, s: Span, l: Corners) -> Spot
        requires { Tame 32768 510 (span_of s) }
        ensures { where_of result ≡ place (over s.low.d (ring l.entry.list.now)) (start_point (pt_of self.start) (pt_of self.speed) (span_of s)) }
    {
        let p = Point {
            x: s.low.along(self.start.x, self.speed.x),
            y: s.low.along(self.start.y, self.speed.y),
        };
        place_at(l, p, s.low.d)
    }

    // The first mark of the point against a standing footprint within a span.
    pub(crate) fn first_mark(self, s: Span, l: Corners) -> Option<u32>
        requires { Tame 32768 510 (span_of s) }
        ensures { Marks result (first_mark (ring l.entry.list.now) (pt_of self.start) (pt_of self.speed) (span_of s)) }
    {
        if !s.some() {
            return None;
        }
        if self.begins(s, l).is_contact() {
            Some(s.first())
        } else {
            self.touches(s, l)
        }
    }
}
