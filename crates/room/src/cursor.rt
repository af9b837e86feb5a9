// A reader of a room: thin functions over the image and the place that it holds.
ghost use Rattle.room.specs.Step.{ReaderAt, FoundAt, StepSays};

use crate::image::{block_of, head, in_block};
use crate::{Reader, RoomRefusal, Step};
use piece_block::{PieceRead, read_piece};

// What stands at a place of an image.
fn found_at(image: &[u8], place: usize) -> Result<Option<PieceRead>, RoomRefusal>
    ensures { FoundAt image.now place result }
{
    let count = head(image)?;
    if place < count {
        let piece = in_block(place + 1, read_piece(block_of(image, place)))?;
        Ok(Some(piece))
    } else {
        Ok(None)
    }
}

// A step of a reader at that place, for callers that hold the image. It goes on behind a piece alone.
pub fn piece_at(image: &[u8], place: usize) -> Step
    ensures { StepSays image.now place result }
{
    let found = found_at(image, place);
    let next = if let Ok(Some(_)) = found {
        place + 1
    } else {
        place
    };
    Step { found, next }
}

impl<'a> Reader<'a> {
    // At the first piece.
    pub fn new(image: &'a [u8]) -> Reader<'a>
        ensures { ReaderAt image.entry 0 result }
    {
        Reader { image, place: 0 }
    }

    // What stands at the reader's place.
    pub fn step(self) -> Step
        ensures { StepSays self.entry.image.now self.entry.place result }
    {
        piece_at(self.image, self.place)
    }

    // The same image at another place: whoever reads on does so at the step's `next`.
    pub fn moved(self, place: usize) -> Reader<'a>
        ensures { ReaderAt self.entry.image place result }
    {
        Reader {
            image: self.image,
            place,
        }
    }
}
