// The first bytes of an entry: kind, zero and the question. The code stands after them.
ghost use Rattle.std.specs.Prelude.{◌≡◌, ◌+◌, ◌%◌, ◌<◌};
ghost use Rattle.rules.specs.Refusal.{Passes};
ghost use Rattle.rules.specs.Good.{run_checks};
ghost use Rattle.seal.specs.Seal.{byte, sum};
ghost use Rattle.book.specs.Entry.{key_length};
ghost use Rattle.book.specs.Steps.{run_in, piece_in, Begun};

use crate::Query;
use block::write_run_body;
use piece_block::write_piece_body;

// Byte 0 of an entry.
const KIND: u8 = 3;

// The length of its key, bytes 2 to 282.
const KEY: usize = 281;

// Where the piece's bytes begin.
const PIECE: usize = 16;

// Where the verdict's begin.
pub(crate) const CODE: usize = 2 + KEY;

// Bytes 0 to 282, of every good piece: kind, zero, the run and the piece; answers from where on they are zero.
pub(crate) fn lay(query: Query, front: &mut [u8; CODE]) -> usize
    requires { Passes (run_checks (run_in query)) }
    ensures { Begun (run_in query.entry) (piece_in query.entry) front.new result }
{
    front[0] = KIND;
    front[1] = 0;
    write_run_body(query.run, &mut front[2..PIECE]).unwrap();
    match write_piece_body(query.slab, query.corners, &mut front[PIECE..CODE]) {
        Err(_) => PIECE,
        Ok(()) => PIECE + 11 + 2 * query.corners.len(),
    }
}

// The sum of bytes 2 to 282, modulo the number of slots.
pub(crate) fn home_of(front: &[u8; CODE], slots: usize) -> usize
    requires { 0 < slots }
    ensures { result ≡ sum (λ i. byte front.now (2 + i)) key_length % slots }
{
    let mut total: u32 = 0;
    for byte in &front[2..] {
        total += u32::from(*byte);
    }
    total as usize % slots
}
