// Rooms, and the book of remembered verdicts.
ghost use Rattle.rules.specs.Reach.{run, piece};
ghost use Rattle.baker.specs.Calls.{RoomPieceGives, RoomVerdictsGives, AskGives};

use crate::given::{run_of, slab_of};
use crate::list::put_piece;
use coding::Code;

#[unsafe(no_mangle)]
pub extern "C" fn baker_room_piece(image: &[u8], place: usize, numbers: &mut [i32]) -> u64
    ensures { RoomPieceGives image.now place numbers.old numbers.new result }
{
    match room::piece_at(image, place).found {
        Ok(Some(piece)) => put_piece(piece, numbers),
        // the end: a piece has 3 corners at least, and C has no Option
        Ok(None) => 0,
        Err(x) => x.code(),
    }
}

#[unsafe(no_mangle)]
pub extern "C" fn baker_room_verdicts(
    x: i32,
    y: i32,
    z: i32,
    vx: i32,
    vy: i32,
    vz: i32,
    ticks: u32,
    image: &[u8],
    list: &mut [u32],
) -> u64
    ensures { RoomVerdictsGives (run x y z vx vy vz ticks) image.now list.old list.new result }
{
    let run = run_of(x, y, z, vx, vy, vz, ticks);
    room::verdicts(run, image, list).code()
}

#[unsafe(no_mangle)]
pub extern "C" fn baker_ask(
    book: &mut [u8],
    x: i32,
    y: i32,
    z: i32,
    vx: i32,
    vy: i32,
    vz: i32,
    ticks: u32,
    bottom: i32,
    top: i32,
    ux: i32,
    uy: i32,
    uz: i32,
    corners: &[i32],
) -> u64
    ensures { AskGives (run x y z vx vy vz ticks) (piece bottom top ux uy uz corners.now) book.old book.new result }
{
    let run = run_of(x, y, z, vx, vy, vz, ticks);
    let slab = slab_of(bottom, top, ux, uy, uz);
    book::ask(book, run, slab, corners).code()
}
