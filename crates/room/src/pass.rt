// The verdicts of a room: one pass over its pieces into codes, and only then the lent list.
ghost use Rattle.rules.specs.Refusal.{Passes};
ghost use Rattle.rules.specs.Good.{run_checks};
ghost use Rattle.good.specs.Numbers.{run_of};
ghost use Rattle.room.specs.Codes.{CodeFound, CodesSay};
ghost use Rattle.room.specs.Image.{HeadGood, Has};
ghost use Rattle.room.specs.Verdicts.{VerdictsSay};

use crate::RoomRefusal;
use crate::image::{block_of, head, in_block};
use block::MOST;
use good::{Run, check_run};
use piece::coded;
use piece_block::verdict_in;
use refusal::Refusal;

// The verdict on one piece, coded. A type of good runs would stand beside Run, which calls take whatever it is, and say no more than the clause.
fn code_of(run: Run, image: &[u8], i: usize) -> Result<u32, Refusal>
    requires { Passes (run_checks (run_of run)) × Has image.now i }
    ensures { CodeFound (run_of run) image.now i result }
{
    coded(verdict_in(run, block_of(image, i)))
}

// Piece by piece, in an array of the most pieces that a room has: nothing is on a heap.
fn codes_of(run: Run, image: &[u8], count: usize) -> Result<[u32; MOST], RoomRefusal>
    requires { Passes (run_checks (run_of run)) × HeadGood image.now count }
    ensures { CodesSay (run_of run) image.now result }
{
    let mut codes = [0u32; MOST];
    for i in 0..count {
        codes[i] = in_block(i + 1, code_of(run, image, i))?;
    }
    Ok(codes)
}

// The run, the room, and at last the list, which stays as it was unless nothing is refused.
#[tactic(auto, using(crate::proofs::Coding::head_fault, crate::proofs::Coding::run_refused, crate::proofs::Coding::room_refused, crate::proofs::Coding::list_short))]
pub fn verdicts(run: Run, image: &[u8], list: &mut [u32]) -> Result<usize, RoomRefusal>
    ensures { VerdictsSay (run_of run) image.now list.old list.new result }
{
    check_run(run)?;
    let count = head(image)?;
    let codes = codes_of(run, image, count)?;
    if list.len() < count {
        return Err(Refusal::Short.into());
    }
    list[..count].copy_from_slice(&codes[..count]);
    Ok(count)
}
