// The verdict of a run on the piece in a block. Both are checked once, and a block that is refused before its numbers are read waits for the run.
ghost use Rattle.good.specs.Numbers.{run_of};
ghost use Rattle.piece_block.specs.Verdicts.{VerdictInSays};

use crate::scan::piece_at;
use block::{Kind, check_kind};
use good::{Run, check_run};
use piece::verdict;
use refusal::Refusal;
use seal::SIZE;

#[tactic(auto, using(crate::proofs::PieceLaws::block_long, crate::proofs::PieceLaws::count_most))]
pub fn verdict_in(run: Run, block: &[u8]) -> Result<Option<u32>, Refusal>
    ensures { VerdictInSays (run_of run) block.now result }
{
    if block.len() != SIZE {
        return Err(Refusal::Length);
    }
    match check_kind(block, Kind::Piece) {
        Ok(()) => {
            let piece = piece_at(block);
            verdict(run, piece.slab, &piece.corners[..2 * piece.count])
        }
        Err(x) => check_run(run).and(Err(x)),
    }
}
