// The header of a room.
ghost use Rattle.block.specs.Reading.{HeaderSays, WriteHeaderSays};

use crate::kind::{Kind, check_kind};
use crate::layout::{EDITION, MOST, NAME};
use refusal::Refusal;
use seal::{SIZE, write_parts};

#[tactic(auto, using(crate::proofs::Headers::header_length, crate::proofs::Headers::header_count, crate::proofs::Headers::header_is), unfolding(crate::specs::Reading::header_checks))]
pub fn read_header(block: &[u8]) -> Result<u32, Refusal>
    ensures { HeaderSays block.now result }
{
    check_kind(block, Kind::Header)?;
    Ok(block[5] as u32)
}

#[tactic(auto, unfolding(crate::specs::Reading::header_asked))]
pub fn write_header(pieces: u32, block: &mut [u8]) -> Result<(), Refusal>
    ensures { WriteHeaderSays pieces block.old block.new result }
{
    if block.len() != SIZE {
        return Err(Refusal::Length);
    }
    if MOST < pieces as usize {
        return Err(Refusal::Kind(5));
    }
    // the six bytes side by side: a copy of the name would take two steps and say no more
    let front = [NAME[0], NAME[1], NAME[2], NAME[3], EDITION, pieces as u8];
    write_parts(&front, &[], front.len(), block)
}
