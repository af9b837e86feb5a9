// Blocks of 512 bytes.
ghost use Rattle.rules.specs.Reach.{run, piece};
ghost use Rattle.baker.specs.Calls.{WriteHeaderGives, ReadHeaderGives, WriteRunGives, ReadRunGives, WritePieceGives, ReadPieceGives};

use crate::given::{run_of, slab_of};
use crate::list::{put_piece, put_run};
use coding::Code;

#[unsafe(no_mangle)]
pub extern "C" fn baker_write_header(pieces: u32, block: &mut [u8]) -> u64
    ensures { WriteHeaderGives pieces block.old block.new result }
{
    block::write_header(pieces, block).code()
}

#[unsafe(no_mangle)]
pub extern "C" fn baker_read_header(block: &[u8]) -> u64
    ensures { ReadHeaderGives block.now result }
{
    block::read_header(block).code()
}

#[unsafe(no_mangle)]
pub extern "C" fn baker_write_run(
    x: i32,
    y: i32,
    z: i32,
    vx: i32,
    vy: i32,
    vz: i32,
    ticks: u32,
    block: &mut [u8],
) -> u64
    ensures { WriteRunGives (run x y z vx vy vz ticks) block.old block.new result }
{
    let run = run_of(x, y, z, vx, vy, vz, ticks);
    block::write_run(run, block).code()
}

#[unsafe(no_mangle)]
pub extern "C" fn baker_read_run(block: &[u8], numbers: &mut [i32]) -> u64
    ensures { ReadRunGives block.now numbers.old numbers.new result }
{
    match block::read_run(block) {
        Ok(run) => put_run(run, numbers),
        Err(x) => x.code(),
    }
}

#[unsafe(no_mangle)]
pub extern "C" fn baker_write_piece(
    bottom: i32,
    top: i32,
    vx: i32,
    vy: i32,
    vz: i32,
    corners: &[i32],
    block: &mut [u8],
) -> u64
    ensures { WritePieceGives (piece bottom top vx vy vz corners.now) block.old block.new result }
{
    let slab = slab_of(bottom, top, vx, vy, vz);
    piece_block::write_piece(slab, corners, block).code()
}

#[unsafe(no_mangle)]
pub extern "C" fn baker_read_piece(block: &[u8], numbers: &mut [i32]) -> u64
    ensures { ReadPieceGives block.now numbers.old numbers.new result }
{
    match piece_block::read_piece(block) {
        Ok(piece) => put_piece(piece, numbers),
        Err(x) => x.code(),
    }
}
