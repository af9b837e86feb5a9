// A piece block.
ghost use Rattle.std.specs.Prelude.{◌≡◌, [], ◌+◌, ◌*◌, ◌≤◌, length, take};
ghost use Rattle.rules.specs.Refusal.{Sought};
ghost use Rattle.good.specs.Numbers.{piece_of};
ghost use Rattle.piece_block.specs.Layout.{piece_body_size, piece_numbers, piece_front};
ghost use Rattle.piece_block.specs.Reading.{PieceSays, Held, WritePieceBodySays, WritePieceSays};
ghost use Rattle.pair.specs.Pair.{Wide};

use crate::PieceRead;
use crate::scan::piece_at;
use block::{Kind, PIECE, check_kind};
use good::{Slab, check_piece};
use pair::{first_wide, write_pairs};
use refusal::Refusal;
use seal::{SIZE, clear, write_parts};

// The length of a piece's numbers in its block, bytes 1 to 267 with the corner count first.
const PIECE_BODY: usize = 267;

#[tactic(auto, using(crate::proofs::PieceLaws::block_long, crate::proofs::PieceLaws::count_most, crate::proofs::PieceLaws::bytes_fault))]
pub fn read_piece(block: &[u8]) -> Result<PieceRead, Refusal>
    ensures { PieceSays block.now result }
{
    check_kind(block, Kind::Piece)?;
    let piece = piece_at(block);
    check_piece(piece.slab, &piece.corners[..2 * piece.count])?;
    Ok(piece)
}

// The numbers before the corners.
pub fn slab_numbers(slab: Slab) -> [i32; 5]
    ensures { result ≡ piece_numbers (piece_of slab []) }
{
    [slab.bottom, slab.top, slab.vx, slab.vy, slab.vz]
}

// The corner count and the numbers, as they stand in a piece block before its zeros.
fn lay_piece(slab: Slab, corners: &[i32], bytes: &mut [u8])
    requires { Held (piece_of slab corners.now) × (length bytes.old ≡ piece_body_size) }
    ensures { take (11 + 2 * length corners.now) bytes.new ≡ piece_front (piece_of slab corners.now) }
{
    let numbers = slab_numbers(slab);
    let end = 11 + 2 * corners.len();
    bytes[0] = (corners.len() / 2) as u8;
    write_pairs(&numbers, &mut bytes[1..11]).unwrap();
    write_pairs(corners, &mut bytes[11..end]).unwrap();
}

// The first number of a piece that two bytes do not hold.
fn wide_in(slab: Slab, corners: &[i32]) -> Option<usize>
    requires { length corners.now ≤ 128 }
    ensures { Sought (Wide (piece_numbers (piece_of slab corners.now))) (5 + length corners.now) result }
{
    let numbers = slab_numbers(slab);
    if let Some(wide) = first_wide(&numbers) {
        return Some(wide);
    }
    let wide = first_wide(corners)?;
    Some(5 + wide)
}

// The piece block's bytes 1 to 267, of any numbers that fit in there; whether they are a good piece's is not checked.
#[tactic(auto, unfolding(crate::specs::Reading::piece_body_asked))]
pub fn write_piece_body(slab: Slab, corners: &[i32], bytes: &mut [u8]) -> Result<(), Refusal>
    ensures { WritePieceBodySays (piece_of slab corners.now) bytes.old bytes.new result }
{
    if bytes.len() != PIECE_BODY {
        return Err(Refusal::Length);
    }
    if corners.len() % 2 != 0 || 128 < corners.len() {
        return Err(Refusal::Corners);
    }
    if let Some(wide) = wide_in(slab, corners) {
        return Err(Refusal::Reach(2 + 2 * wide));
    }
    lay_piece(slab, corners, bytes);
    clear(bytes, 11 + 2 * corners.len());
    Ok(())
}

#[tactic(auto, unfolding(crate::specs::Reading::piece_asked))]
pub fn write_piece(slab: Slab, corners: &[i32], block: &mut [u8]) -> Result<(), Refusal>
    ensures { WritePieceSays (piece_of slab corners.now) block.old block.new result }
{
    if block.len() != SIZE {
        return Err(Refusal::Length);
    }
    check_piece(slab, corners)?;
    let mut front = [0u8; 1 + PIECE_BODY];
    front[0] = PIECE;
    write_piece_body(slab, corners, &mut front[1..])?;
    write_parts(&front, &[], front.len(), block)
}
