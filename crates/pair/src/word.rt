// One number and its two bytes.
ghost use Rattle.std.specs.Prelude.{◌≡◌, [], ◌∷◌, ◌/◌, ◌%◌, slice_index};
ghost use Rattle.whole.specs.Decide.{Decides};
ghost use Rattle.pair.specs.Pair.{Half, word, Spelt};

// Whether two bytes hold a number.
pub(crate) fn fits(z: i32) -> bool
    ensures { Decides (Half z) result }
{
    i16::try_from(z).is_ok()
}

pub(crate) fn bytes_of(z: i32) -> [u8; 2]
    requires { Half z }
    ensures { result ≡ word z % 256 ∷ word z / 256 ∷ [] }
{
    (z as i16).to_le_bytes()
}

pub(crate) fn number_of(bytes: [u8; 2]) -> i32
    ensures { Spelt (slice_index bytes 0) (slice_index bytes 1) result }
{
    i32::from(i16::from_le_bytes(bytes))
}
