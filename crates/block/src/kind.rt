// What every block is looked at for: its length and check, then the bytes of its kind that are no numbers.
ghost use Rattle.std.specs.Prelude.{◌++◌};
ghost use Rattle.refusal.specs.Said.{Finds};
ghost use Rattle.rules.specs.Refusal.{Sought};
ghost use Rattle.seal.specs.Seal.{block_checks};
ghost use Rattle.block.specs.Reading.{Misspelt, header_bytes, run_bytes, piece_bytes, bytes_of};

use crate::layout::{EDITION, MOST, NAME, PIECE, RUN};
use refusal::Refusal;
use seal::{SIZE, check_block, check_unnamed};

// A caller names the kind that it asks for, as specs/Reading does: a closure would say less.
#[derive(Clone, Copy)]
pub enum Kind {
    Header,
    Run,
    Piece,
}

// The first of the name's letters that is another byte.
fn first_letter(block: &[u8; SIZE]) -> Option<usize>
    ensures { Sought (Misspelt block.now) 4 result }
{
    NAME.iter()
        .zip(block)
        .position(|(letter, byte)| letter != byte)
}

// The bytes of a header, by rising offset.
#[tactic(auto, using(crate::proofs::KindLaws::header_last), unfolding(crate::specs::Reading::header_bytes))]
fn check_header_bytes(block: &[u8; SIZE]) -> Result<(), Refusal>
    ensures { Finds (header_bytes block.now) result }
{
    if let Some(at) = first_letter(block) {
        return Err(Refusal::Kind(at));
    }
    if block[4] != EDITION {
        return Err(Refusal::Kind(4));
    }
    if MOST < block[5] as usize {
        return Err(Refusal::Kind(5));
    }
    check_unnamed(block, 6)
}

// The bytes of a run block that are no numbers, by rising offset.
#[tactic(auto, using(crate::proofs::KindLaws::run_last), unfolding(crate::specs::Reading::run_bytes))]
fn check_run_bytes(block: &[u8; SIZE]) -> Result<(), Refusal>
    ensures { Finds (run_bytes block.now) result }
{
    if block[0] != RUN {
        return Err(Refusal::Kind(0));
    }
    if block[1] != 0 {
        return Err(Refusal::Kind(1));
    }
    check_unnamed(block, 16)
}

// The bytes of a piece block that are no numbers: kind, corner count, unnamed bytes.
#[tactic(auto, using(crate::proofs::KindLaws::piece_last), unfolding(crate::specs::Reading::piece_bytes))]
fn check_piece_bytes(block: &[u8; SIZE]) -> Result<(), Refusal>
    ensures { Finds (piece_bytes block.now) result }
{
    if block[0] != PIECE {
        return Err(Refusal::Kind(0));
    }
    let count = block[1] as usize;
    if !(3..=64).contains(&count) {
        return Err(Refusal::Corners);
    }
    check_unnamed(block, 12 + 4 * count)
}

impl Kind {
    fn check_bytes(self, block: &[u8; SIZE]) -> Result<(), Refusal>
        ensures { Finds (bytes_of self block.now) result }
    {
        match self {
            Kind::Header => check_header_bytes(block),
            Kind::Run => check_run_bytes(block),
            Kind::Piece => check_piece_bytes(block),
        }
    }
}

#[tactic(auto, using(rules::proofs::Checks::fault_left, refusal::proofs::Finds::finds_right), unfolding(seal::specs::Seal::block_checks))]
pub fn check_kind(block: &[u8], kind: Kind) -> Result<(), Refusal>
    ensures { Finds (block_checks block.now ++ bytes_of kind block.now) result }
{
    check_block(block)?;
    kind.check_bytes(block.as_array().unwrap())
}
