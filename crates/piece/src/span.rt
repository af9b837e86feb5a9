// Spans of moments between two fractions, and clipping them by linear inequalities.
// Definitions: the crate `decide`, Span; specs/Sizes.antt says of which size they are.
ghost use Rattle.std.specs.Prelude.{◌≡◌, true, pos, ◌+ℤ◌, ◌*ℤ◌, ◌≤ℤ◌};
ghost use Rattle.std.specs.Int.Signed.{quot_z, lt_z};
ghost use Rattle.piece.specs.Sizes.{Sized, Slope, AlongSteps, MarkSteps, Flat};

use footprint::{least, most};

// The moment n/d.
#[derive(Clone, Copy)]
pub(crate) struct Moment {
    pub(crate) n: i64,
    pub(crate) d: i64,
    ghost sized: { Sized n d },
}

impl Moment {
    fn is_before(self, t: Moment) -> bool
        ensures { result ≡ lt_z (self.n *ℤ t.d) (t.n *ℤ self.d) }
    {
        self.n * t.d < t.n * self.d
    }

    // A coordinate p, moving at w, at the moment, over d.
    pub(crate) fn along(self, p: i64, w: i64) -> i64
        requires { AlongSteps self.d p self.n w }
        ensures { result ≡ self.d *ℤ p +ℤ self.n *ℤ w }
    {
        self.d * p + self.n * w
    }

    // The mark of the moment: 256 parts to a tick, rounded down.
    fn mark(self) -> i64
        requires { MarkSteps self.n self.d }
        ensures { result ≡ quot_z (pos 256 *ℤ self.n) self.d }
    {
        256 * self.n / self.d
    }
}

// From low to high, both counted, within the longest run.
#[derive(Clone, Copy)]
pub(crate) struct Span {
    pub(crate) low: Moment,
    pub(crate) high: Moment,
    ghost begin: { pos 0 ≤ℤ low.n },
    ghost end: { high.n ≤ℤ (pos 4096 *ℤ high.d) },
}

impl Span {
    ghost use Rattle.decide.specs.Span.{raise, lower, none, clip, some, first};
    ghost use Rattle.decide.specs.Touch.{within};
    ghost use Rattle.piece.specs.Seen.{span_of};

    // Not before t.
    #[tactic(auto, unfolding(decide::specs::Span::raise))]
    fn raise(self, t: Moment) -> Span
        ensures { span_of result ≡ raise (span_of self) t.n t.d }
    {
        if self.low.is_before(t) {
            return Span {
                low: t,
                high: self.high,
            };
        }
        self
    }

    // Not after t.
    #[tactic(auto, unfolding(decide::specs::Span::lower))]
    fn lower(self, t: Moment) -> Span
        ensures { span_of result ≡ lower (span_of self) t.n t.d }
    {
        if t.is_before(self.high) {
            return Span {
                low: self.low,
                high: t,
            };
        }
        self
    }

    // No moment at all: a span that ends before 0, as decide/specs/Span has it, so that clipping goes on.
    #[tactic(auto, unfolding(decide::specs::Span::none))]
    fn none(self) -> Span
        ensures { span_of result ≡ none (span_of self) }
    {
        Span {
            low: self.low,
            high: Moment { n: -1, d: 1 },
        }
    }

    // The moments t with 0 ≤ a + b t. A divisor's sign is turned before it bounds.
    #[tactic(auto, using(crate::proofs::Moving::clip_none_read, crate::proofs::Moving::clip_all_read))]
    pub(crate) fn clip(self, a: i64, b: i64) -> Span
        requires { Slope a b }
        ensures { span_of result ≡ clip (span_of self) a b }
    {
        if 0 < b {
            return self.raise(Moment { n: -a, d: b });
        }
        if b < 0 {
            return self.lower(Moment { n: a, d: -b });
        }
        if a < 0 {
            return self.none();
        }
        self
    }

    // The moments at which p, moving at w, lies between a and b.
    pub(crate) fn within(self, p: i64, w: i64, a: i64, b: i64) -> Span
        requires { Flat p w a b }
        ensures { span_of result ≡ within p w (span_of self) a b }
    {
        self.clip(p - least(a, b), w).clip(most(a, b) - p, -w)
    }

    // Whether there is a moment.
    pub(crate) fn some(self) -> bool
        ensures { result ≡ some (span_of self) }
    {
        self.low.n * self.high.d <= self.high.n * self.low.d
    }

    // The mark of the first moment.
    pub(crate) fn first(self) -> u32
        requires { some (span_of self) ≡ true }
        ensures { result ≡ first (span_of self) }
    {
        self.low.mark() as u32
    }
}
