// Points, and on which side of a line one lies.
ghost use Rattle.good.specs.Numbers.{pt};
ghost use Rattle.piece.specs.Sizes.{Far, Close};
ghost use Rattle.footprint.specs.Steps.{CrossSteps};
ghost use Rattle.std.specs.Prelude.{◌≡◌, ◌≤◌, nat_abs, ◌-ℤ◌, ◌*ℤ◌};

// A point, no farther than those of a run over a denominator.
#[derive(Clone, Copy)]
pub(crate) struct Point {
    pub(crate) x: i64,
    pub(crate) y: i64,
    ghost far: { Far (pt x y) },
}

impl Point {
    ghost use Rattle.rules.specs.Ring.{times};
    ghost use Rattle.decide.specs.Side.{side_of};
    ghost use Rattle.piece.specs.Seen.{pt_of};

    // The point over d.
    pub(crate) fn times(self, d: i64) -> Point
        requires { (nat_abs d ≤ 510) × Close (pt_of self) }
        ensures { pt_of result ≡ times d (pt_of self) }
    {
        Point {
            x: d * self.x,
            y: d * self.y,
        }
    }

    // Twice the area of a, b and the point: positive where it is to the left of a b.
    pub(crate) fn side(self, a: Point, b: Point) -> i64
        ensures { result ≡ side_of (pt_of a) (pt_of b) (pt_of self) }
    {
        cross(b.x - a.x, b.y - a.y, self.x - a.x, self.y - a.y)
    }
}

// The product that asks for room: the proofs above it see no machine words.
pub(crate) fn cross(x: i64, y: i64, u: i64, v: i64) -> i64
    requires { CrossSteps x y u v }
    ensures { result ≡ x *ℤ v -ℤ y *ℤ u }
{
    x * v - y * u
}
