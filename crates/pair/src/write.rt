// Numbers into bytes.
ghost use Rattle.std.specs.Prelude.{◌≡◌, ◌*◌, length};
ghost use Rattle.rules.specs.Refusal.{Sought};
ghost use Rattle.pair.specs.Pair.{words, Halves, Wide, WritePairsSays};

use crate::word::{bytes_of, fits};
use refusal::Refusal;

// Numbers into as many pairs of bytes.
fn lay(numbers: &[i32], bytes: &mut [u8])
    requires { (length bytes.old ≡ 2 * length numbers.now) × Halves numbers.now }
    ensures { bytes.new ≡ words numbers.now }
{
    for (j, z) in numbers.iter().enumerate() {
        bytes[2 * j..2 * j + 2].copy_from_slice(&bytes_of(*z));
    }
}

// The first number that two bytes do not hold.
pub fn first_wide(numbers: &[i32]) -> Option<usize>
    ensures { Sought (Wide numbers.now) (length numbers.now) result }
{
    numbers.iter().position(|z| !fits(*z))
}

// Numbers into two bytes each. All are looked at before a byte is written, so that a refusal changes nothing.
pub fn write_pairs(numbers: &[i32], bytes: &mut [u8]) -> Result<(), Refusal>
    ensures { WritePairsSays numbers.now bytes.old bytes.new result }
{
    if bytes.len() != 2 * numbers.len() {
        return Err(Refusal::Length);
    }
    if let Some(wide) = first_wide(numbers) {
        return Err(Refusal::Reach(2 * wide));
    }
    lay(numbers, bytes);
    Ok(())
}
