// A corner whose numbers are within reach: what is computed of such corners fits 64 bits.
ghost use Rattle.rules.specs.Reach.{Reach};

#[derive(Clone, Copy, PartialEq, Eq)]
pub(crate) struct Point {
    pub(crate) x: i64,
    pub(crate) y: i64,
    ghost x_within: { Reach x },
    ghost y_within: { Reach y },
}
