// The check of a block, its last two bytes.
ghost use Rattle.std.specs.Prelude.{◌≡◌, ◌+◌, ◌≤◌, length};
ghost use Rattle.refusal.specs.Said.{Finds};
ghost use Rattle.seal.specs.Seal.{body_size, byte, plain_sum, weighed_sum, block_checks};
ghost use Rattle.seal.specs.Scan.{SumsAt};

use crate::layout::{BODY, LAST, SIZE};
use refusal::Refusal;

#[derive(Clone, Copy, PartialEq, Eq)]
pub(crate) struct Sums {
    pub plain: u32,
    pub weighed: u32,
}

impl Sums {
    // The check that a block has.
    pub(crate) fn told(block: &[u8; SIZE]) -> Sums
        ensures { (result.plain ≡ byte block.now body_size) × (result.weighed ≡ byte block.now (body_size + 1)) }
    {
        Sums {
            plain: block[BODY] as u32,
            weighed: block[LAST] as u32,
        }
    }

    // The check that is right: two sums, each with one remainder at its end. Byte 255 + i stands beside byte i, since modulo 255 both weigh 255 - i:
    // half as many turns, and the largest sums are 130,050 and 16,646,400.
    fn of(block: &[u8; SIZE]) -> Sums
        ensures { (result.plain ≡ plain_sum block.now) × (result.weighed ≡ weighed_sum block.now) }
    {
        let mut plain: u32 = 0;
        let mut weighed: u32 = 0;
        for i in 0..255 {
            let both = block[i] as u32 + block[255 + i] as u32;
            plain += both;
            weighed += (255 - i) as u32 * both;
        }
        Sums {
            plain: plain % 255,
            weighed: weighed % 255,
        }
    }

    // The sums of bytes that stand in a block from byte `at` on, no remainder taken: the largest are 130,050 and 33,227,775.
    pub(crate) fn at(bytes: &[u8], at: usize) -> Sums
        requires { at + length bytes.now ≤ body_size }
        ensures { SumsAt bytes.now at result.plain result.weighed }
    {
        let mut plain: u32 = 0;
        let mut weighed: u32 = 0;
        for (i, byte) in bytes.iter().enumerate() {
            plain += *byte as u32;
            weighed += (BODY - (at + i)) as u32 * *byte as u32;
        }
        Sums { plain, weighed }
    }
}

// The length of a block, and its check.
pub fn check_block(block: &[u8]) -> Result<(), Refusal>
    ensures { Finds (block_checks block.now) result }
{
    let Some(block) = block.as_array() else {
        return Err(Refusal::Length);
    };
    if Sums::told(block) != Sums::of(block) {
        return Err(Refusal::Check);
    }
    Ok(())
}
