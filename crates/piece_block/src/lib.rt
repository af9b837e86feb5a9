// A piece block: a piece as 512 bytes, read and written, and the verdict of a run on the piece in a block.
// specs/Layout.antt makes its bytes, specs/Reading.antt says what reading and writing answer, specs/Verdicts.antt what a verdict on a block answers.
#![tactic(auto)]

mod pieces;
mod scan;
mod verdicts;

use good::Slab;
pub use pieces::{read_piece, slab_numbers, write_piece, write_piece_body};
pub use verdicts::verdict_in;

// A piece that was read: its corners stand first in the array, x, y, x, y .., and zeros after them.
// The count stands beside an array, not in a list: nothing is on a heap, and a room is read in fixed memory.
#[derive(Clone, Copy)]
pub struct PieceRead {
    pub slab: Slab,
    pub corners: [i32; 128],
    pub count: usize,
}
