// The numbers of a piece where they stand in a block.
ghost use Rattle.std.specs.Prelude.{◌≡◌, ◌≤◌, length};
ghost use Rattle.seal.specs.Seal.{block_size, byte};
ghost use Rattle.piece_block.specs.Scan.{SlabAt, CornersAt, PieceAt};

use crate::PieceRead;
use good::Slab;
use pair::read_pairs;
use seal::SIZE;

fn slab_at(block: &[u8; SIZE]) -> Slab
    ensures { SlabAt block.now result }
{
    let mut numbers = [0i32; 5];
    read_pairs(&block[2..12], &mut numbers).unwrap();
    let [bottom, top, vx, vy, vz] = numbers;
    Slab {
        bottom,
        top,
        vx,
        vy,
        vz,
    }
}

// The first n numbers of the corners; zeros follow them.
fn corners_at(block: &[u8; SIZE], n: usize) -> [i32; 128]
    requires { n ≤ 128 }
    ensures { CornersAt block.now n result }
{
    let end = 12 + 2 * n;
    let mut corners = [0i32; 128];
    read_pairs(&block[12..end], &mut corners[..n]).unwrap();
    corners
}

// The piece that a block holds. The array is made here: in its callers' hands it would put each of 512 bytes into their proofs, which did not close.
pub(crate) fn piece_at(block: &[u8]) -> PieceRead
    requires { (length block.now ≡ block_size) × (byte block.now 1 ≤ 64) }
    ensures { PieceAt block.now result }
{
    let block = block.as_array::<SIZE>().unwrap();
    let count = block[1] as usize;
    PieceRead {
        slab: slab_at(block),
        corners: corners_at(block, 2 * count),
        count,
    }
}
