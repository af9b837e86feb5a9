// Numbers into a lent list.
ghost use Rattle.std.specs.Prelude.{◌≡◌, ◌≤◌};
ghost use Rattle.good.specs.Numbers.{run_of};
ghost use Rattle.block.specs.Layout.{run_numbers};
ghost use Rattle.coding.specs.Coded.{out, coded};
ghost use Rattle.baker.specs.Listed.{run_listed, piece_found};

use coding::Code;
use good::Run;
use intake::put;
use piece_block::{PieceRead, slab_numbers};
use refusal::Refusal;

// block has the same list for a run block, and may: what asks for good ticks cannot cross crates.
fn run_numbers(run: Run) -> [i32; 7]
    requires { run.ticks ≤ 4096 }
    ensures { result ≡ run_numbers (run_of run) }
{
    [
        run.x,
        run.y,
        run.z,
        run.vx,
        run.vy,
        run.vz,
        run.ticks as i32,
    ]
}

pub(crate) fn put_run(run: Run, list: &mut [i32]) -> u64
    requires { run.ticks ≤ 4096 }
    ensures { out result list.new ≡ coded (run_listed list.old (Ok run)) }
{
    let front = run_numbers(run);
    put(&front, list).code()
}

// A list must have room for the largest piece.
pub(crate) fn put_piece(piece: PieceRead, list: &mut [i32]) -> u64
    requires { piece.count ≤ 64 }
    ensures { out result list.new ≡ coded (piece_found list.old piece) }
{
    if list.len() < 133 {
        return Refusal::Short.code();
    }
    let front = slab_numbers(piece.slab);
    put(&front, list).unwrap();
    put(&piece.corners[..2 * piece.count], &mut list[5..]).unwrap();
    piece.count.code()
}
