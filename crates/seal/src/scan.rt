// Bytes that must be zero, or a part and zeros.
ghost use Rattle.std.specs.Prelude.{◌≡◌, ◌≤◌, [], ◌∷◌, length, replicate};
ghost use Rattle.rules.specs.Refusal.{Sought};
ghost use Rattle.refusal.specs.Said.{Finds};
ghost use Rattle.whole.specs.Decide.{Decides};
ghost use Rattle.seal.specs.Seal.{byte, filled, length_check, unnamed_check};

use crate::layout::{BODY, SIZE};
use refusal::Refusal;

// Whether the bytes are zero. No byte ends the loop early, so that it can go by many bytes at a time.
pub(crate) fn clean(bytes: &[u8]) -> bool
    ensures { Decides (bytes.now ≡ replicate (length bytes.now) 0) result }
{
    bytes.iter().fold(0, |all, byte| all | byte) == 0
}

// Whether the bytes are those of a part, and zeros after them.
pub(crate) fn padded(bytes: &[u8], part: &[u8]) -> bool
    requires { length part.now ≤ length bytes.now }
    ensures { Decides (bytes.now ≡ filled (length bytes.now) part.now) result }
{
    let (front, rest) = bytes.split_at(part.len());
    front == part && clean(rest)
}

// The first byte that is not zero. Most often there is none, which is seen by many bytes at a time.
fn first_set(bytes: &[u8]) -> Option<usize>
    ensures { Sought (λ j. byte bytes.now j ≡ 0 → ⊥) (length bytes.now) result }
{
    if clean(bytes) {
        return None;
    }
    bytes.iter().position(|byte| *byte != 0)
}

// Whether a block is zero from here up to its check; where it is not, the first byte is told.
pub fn check_unnamed(block: &[u8], from: usize) -> Result<(), Refusal>
    ensures { Finds (length_check block.now ∷ unnamed_check block.now from ∷ []) result }
{
    if block.len() != SIZE {
        return Err(Refusal::Length);
    }
    if BODY <= from {
        return Ok(());
    }
    match first_set(&block[from..BODY]) {
        Some(j) => Err(Refusal::Kind(from + j)),
        None => Ok(()),
    }
}
