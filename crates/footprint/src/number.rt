// Leaf functions on signed numbers: the proofs above them see no machine words.
ghost use Rattle.std.specs.Prelude.{◌≡◌};
ghost use Rattle.std.specs.Int.Signed.{lt_z};
ghost use Rattle.std.specs.Int.{w16};
ghost use Rattle.std.proofs.Common.{SFits};
ghost use Rattle.rules.specs.Reach.{Reach};
ghost use Rattle.decide.specs.Touch.{least, most, ranged, same_side};
ghost use Rattle.whole.specs.Decide.{Decides};

// Positions, corners and heights.
pub fn reaches(z: i32) -> bool
    ensures { Decides (Reach z) result }
{
    -16384 <= z && z <= 16384
}

// A number of 32 bits in 64.
pub fn wide(z: i32) -> i64
    ensures { result ≡ z }
{
    z as i64
}

// A number of 16 bits.
pub(crate) fn narrow(z: i64) -> i16
    requires { SFits w16 z }
    ensures { result ≡ z }
{
    z as i16
}

pub fn less(u: i64, v: i64) -> bool
    ensures { result ≡ lt_z u v }
{
    u < v
}

pub fn least(a: i64, b: i64) -> i64
    ensures { result ≡ least a b }
{
    a.min(b)
}

pub fn most(a: i64, b: i64) -> i64
    ensures { result ≡ most a b }
{
    a.max(b)
}

// Whether z lies from a to b.
pub fn ranged(a: i64, z: i64, b: i64) -> bool
    ensures { result ≡ ranged a z b }
{
    a <= z && z <= b
}

// Whether two numbers are on the same side of zero.
pub fn same_side(u: i64, v: i64) -> bool
    ensures { result ≡ same_side u v }
{
    u < 0 && v < 0 || 0 < u && 0 < v
}
