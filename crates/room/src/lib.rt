// Rooms: an image of blocks, read piece by piece, and the verdicts of a run on each piece.
// specs/Image.antt says what an image is, specs/Step.antt what a step finds, specs/Verdicts.antt what the lent list holds.
#![tactic(auto)]

ghost use Rattle.room.specs.Image.{Unblocked};

mod cursor;
mod image;
mod pass;

pub use cursor::piece_at;
pub use pass::verdicts;
use piece_block::PieceRead;
use refusal::Refusal;

// A refusal, and its block: a piece's is the piece's number and one more, everything else's is 0.
#[derive(Clone, Copy, PartialEq, Eq)]
pub struct RoomRefusal {
    pub refusal: Refusal,
    pub block: usize,
}

impl From<Refusal> for RoomRefusal {
    ghost from_gives = { Unblocked };

    fn from(refusal: Refusal) -> RoomRefusal
        ensures { Unblocked refusal result }
    {
        RoomRefusal { refusal, block: 0 }
    }
}

// A step: a piece or the end, or a refusal; and the place of the next step.
#[derive(Clone, Copy)]
pub struct Step {
    pub found: Result<Option<PieceRead>, RoomRefusal>,
    pub next: usize,
}

// A reader: the room image and its place in it.
#[derive(Clone, Copy)]
pub struct Reader<'a> {
    pub image: &'a [u8],
    pub place: usize,
}
