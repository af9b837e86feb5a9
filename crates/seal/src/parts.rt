// A block of two parts with zeros between them: what stands in the parts alone is summed.
ghost use Rattle.std.specs.Prelude.{◌≡◌, ◌+◌, ◌≤◌, ◌++◌, length};
ghost use Rattle.std.specs.Result.{MatchResult};
ghost use Rattle.refusal.specs.Said.{said};
ghost use Rattle.whole.specs.Decide.{Decides};
ghost use Rattle.seal.specs.Seal.{block_size, body_size, plain_sum, weighed_sum, filled};
ghost use Rattle.seal.specs.Parts.{fit_check, WritePartsSays, PartsIn};
ghost use Rattle.seal.specs.Scan.{Alike};

use crate::layout::{BODY, LAST, SIZE};
use crate::scan::padded;
use crate::sums::Sums;
use refusal::Refusal;

// The first bytes of a block, and those from byte `at` on.
#[derive(Clone, Copy)]
struct Parts<'a> {
    first: &'a [u8],
    last: &'a [u8],
    at: usize,
    ghost begin: { length first.now ≤ at },
    ghost end: { at + length last.now ≤ body_size },
}

impl<'a> Parts<'a> {
    // The second part begins after the first one, and ends before the check.
    fn new(first: &'a [u8], last: &'a [u8], at: usize) -> Result<Parts<'a>, Refusal>
        ensures { MatchResult result (λ p. (p.first.now ≡ first.now) × (p.last.now ≡ last.now) × (p.at ≡ at)) (λ r. (fit_check first.now last.now at).fails (said r)) }
    {
        if at < first.len() || BODY < at || BODY - at < last.len() {
            return Err(Refusal::Length);
        }
        Ok(Parts { first, last, at })
    }

    // The check of their block.
    fn sums(self) -> Sums
        ensures { (result.plain ≡ plain_sum (filled self.entry.at self.entry.first.now ++ self.entry.last.now)) × (result.weighed ≡ weighed_sum (filled self.entry.at self.entry.first.now ++ self.entry.last.now)) }
    {
        let head = Sums::at(self.first, 0);
        let tail = Sums::at(self.last, self.at);
        Sums {
            plain: (head.plain + tail.plain) % 255,
            weighed: (head.weighed + tail.weighed) % 255,
        }
    }

    // Into a slice: of an array that is made of one, what is written is not found in the slice.
    fn lay(self, block: &mut [u8])
        requires { length block.old ≡ block_size }
        ensures { Alike block.new (filled self.entry.at self.entry.first.now ++ self.entry.last.now) }
    {
        let start = self.first.len();
        let end = self.at + self.last.len();
        block.fill(0);
        block[..start].copy_from_slice(self.first);
        block[self.at..end].copy_from_slice(self.last);
    }

    // Whether the first 510 bytes are theirs.
    fn hold(self, block: &[u8; SIZE]) -> bool
        ensures { Decides (Alike block.now (filled self.entry.at self.entry.first.now ++ self.entry.last.now)) result }
    {
        padded(&block[..self.at], self.first) && padded(&block[self.at..BODY], self.last)
    }
}

// The first bytes of a block, zeros up to byte `at`, and the bytes that stand there; zeros and the check follow.
pub fn write_parts(first: &[u8], last: &[u8], at: usize, block: &mut [u8]) -> Result<(), Refusal>
    ensures { WritePartsSays first.now last.now at block.old block.new result }
{
    if block.len() != SIZE {
        return Err(Refusal::Length);
    }
    let parts = Parts::new(first, last, at)?;
    let right = parts.sums();
    parts.lay(block);
    block[BODY] = right.plain as u8;
    block[LAST] = right.weighed as u8;
    Ok(())
}

// Whether a block is the one that write_parts makes.
pub fn is_parts(first: &[u8], last: &[u8], at: usize, block: &[u8]) -> bool
    ensures { Decides (PartsIn first.now last.now at block.now) result }
{
    let Some(block) = block.as_array() else {
        return false;
    };
    let Ok(parts) = Parts::new(first, last, at) else {
        return false;
    };
    parts.hold(block) && Sums::told(block) == parts.sums()
}
