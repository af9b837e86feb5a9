// Numbers out of bytes.
ghost use Rattle.std.specs.Prelude.{◌≡◌, ◌*◌, length};
ghost use Rattle.pair.specs.Pair.{NumbersOf, ReadPairsSays};

use crate::word::number_of;
use refusal::Refusal;

fn take(bytes: &[u8], numbers: &mut [i32])
    requires { length bytes.now ≡ 2 * length numbers.old }
    ensures { NumbersOf bytes.now numbers.new }
{
    for (j, z) in numbers.iter_mut().enumerate() {
        *z = number_of([bytes[2 * j], bytes[2 * j + 1]]);
    }
}

// As many numbers as a lent list has, out of two bytes each.
pub fn read_pairs(bytes: &[u8], numbers: &mut [i32]) -> Result<(), Refusal>
    ensures { ReadPairsSays bytes.now numbers.old numbers.new result }
{
    if bytes.len() != 2 * numbers.len() {
        return Err(Refusal::Length);
    }
    take(bytes, numbers);
    Ok(())
}
