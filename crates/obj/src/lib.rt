// A footprint from Wavefront OBJ text. The crate `line` says lines, words, numbers and what a line says; specs/File.antt the footprint.

#![tactic(auto)]

ghost use Rattle.good.specs.Numbers.{piece_of};
ghost use Rattle.obj.specs.File.{ObjSays};
ghost use Rattle.obj.specs.Steps.{Draws};

use crate::face::gather;
use crate::pass::scan;
use crate::table::Entry;
use good::{Slab, check_piece};
use intake::put;
use refusal::Refusal;

mod face;
mod pass;
mod table;
mod text;

// The footprint of a file, with the band and velocity given, into a lent list, x then y. The list changes only where nothing is refused.
pub fn footprint(file: &[u8], slab: Slab, list: &mut [i32]) -> Result<usize, Refusal>
    ensures { ObjSays file.now (piece_of slab) list.old list.new result }
{
    if 65536 < file.len() {
        return Err(Refusal::Length);
    }
    let unset = Entry { x: Ok(0), y: Ok(0) };
    let mut table = [unset; 8192];
    let seen = scan(file, &mut table)?;
    let Some(face) = seen.face else {
        return Err(Refusal::Face(0));
    };
    let mut numbers = [0; 128];
    let n = gather(face.line, face.above, &table, &mut numbers)?;
    if 64 < n {
        return Err(Refusal::Corners);
    }
    draw(&numbers[..2 * n], slab, list)
}

// Corners that were taken, as a piece and into the list.
fn draw(corners: &[i32], slab: Slab, list: &mut [i32]) -> Result<usize, Refusal>
    ensures { Draws (piece_of slab) corners.now list.old list.new result }
{
    check_piece(slab, corners)?;
    put(corners, list)?;
    Ok(corners.len() / 2)
}
