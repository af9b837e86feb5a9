// A room image: its head, and one of its piece blocks.
ghost use Rattle.std.specs.Prelude.{◌≡◌, suc};
ghost use Rattle.seal.specs.Seal.{block_at};
ghost use Rattle.room.specs.Image.{HeadSays, ToldIn, Has};

use crate::RoomRefusal;
use block::read_header;
use refusal::Refusal;
use seal::SIZE;

// Length, header, length against count.
#[tactic(auto, using(crate::proofs::Images::not_whole))]
pub(crate) fn head(image: &[u8]) -> Result<usize, RoomRefusal>
    ensures { HeadSays image.now result }
{
    let size = image.len();
    if size % SIZE != 0 {
        return Err(Refusal::Length.into());
    }
    if size < SIZE {
        return Err(Refusal::Length.into());
    }
    if 65024 < size {
        return Err(Refusal::Length.into());
    }
    let count = read_header(&image[..SIZE])? as usize;
    if size == SIZE * (count + 1) {
        Ok(count)
    } else {
        Err(Refusal::Length.into())
    }
}

// What was found in a block, its refusal told as one of that block.
pub(crate) fn in_block<T>(block: usize, found: Result<T, Refusal>) -> Result<T, RoomRefusal>
    ensures { ToldIn block found result }
{
    found.map_err(|refusal| RoomRefusal { refusal, block })
}

// The block of piece i.
pub(crate) fn block_of(image: &[u8], i: usize) -> &[u8]
    requires { Has image.now i }
    ensures { result.now ≡ block_at image.now (suc i) }
{
    let from = SIZE * (i + 1);
    let to = from + SIZE;
    &image[from..to]
}
