// The mark at which a run meets a piece, as a motion against a footprint that stands.
ghost use Rattle.std.specs.Prelude.{◌≡◌, [], ◌-ℤ◌};
ghost use Rattle.rules.specs.Good.{RunKnown, PieceKnown};
ghost use Rattle.decide.specs.Touch.{point_of, motion, band_span, code};
ghost use Rattle.good.specs.Numbers.{run_of, piece_of};
ghost use Rattle.piece.specs.Seen.{pt_of, span_of};
ghost use Rattle.piece.specs.Sizes.{Close, Slow, Level};
ghost use Rattle.piece.specs.Tells.{Marks};

use crate::corners::Corners;
use crate::motion::Motion;
use crate::point::Point;
use crate::span::{Moment, Span};
use footprint::wide;
use good::{Run, Slab};

// The difference of two plain numbers.
fn gap(a: i32, b: i32) -> i64
    ensures { result ≡ a -ℤ b }
{
    a as i64 - b as i64
}

// The point of a run, and its velocity against a piece's.
fn motion_of(run: Run, slab: Slab) -> Motion
    requires { Close (point_of (run_of run)) × Slow (motion (run_of run) (piece_of slab [])) }
    ensures { (pt_of result.start ≡ point_of (run_of run)) × (pt_of result.speed ≡ motion (run_of run) (piece_of slab [])) }
{
    Motion {
        start: Point {
            x: wide(run.x),
            y: wide(run.y),
        },
        speed: Point {
            x: gap(run.vx, slab.vx),
            y: gap(run.vy, slab.vy),
        },
    }
}

// The moments of a run within a piece's band.
fn band_span(run: Run, slab: Slab) -> Span
    requires { Level (run_of run) (piece_of slab []) }
    ensures { span_of result ≡ band_span (run_of run) (piece_of slab []) }
{
    let w = gap(run.vz, slab.vz);
    let s = Span {
        low: Moment { n: 0, d: 1 },
        high: Moment {
            n: run.ticks as i64,
            d: 1,
        },
    };
    s.clip(gap(run.z, slab.bottom), w)
        .clip(gap(slab.top, run.z), -w)
}

// The first mark of a good run and a good piece.
pub(crate) fn mark(run: Run, slab: Slab, corners: &[i32]) -> Option<u32>
    requires { RunKnown (run_of run) × PieceKnown (piece_of slab corners.now) }
    ensures { Marks result (code (run_of run) (piece_of slab corners.now)) }
{
    motion_of(run, slab).first_mark(band_span(run, slab), Corners::new(corners))
}
