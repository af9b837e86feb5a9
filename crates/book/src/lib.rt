// The book of remembered verdicts: slots of 512 bytes, each an entry for one run and one piece.

#![tactic(auto)]

mod front;
mod slot;

ghost use Rattle.std.specs.Prelude.{◌≡◌, length};
ghost use Rattle.rules.specs.Refusal.{Passes};
ghost use Rattle.rules.specs.Good.{run_checks};
ghost use Rattle.good.specs.Numbers.{run_of, piece_of};
ghost use Rattle.seal.specs.Seal.{block_size, filled};
ghost use Rattle.book.specs.Entry.{Slots, code_at};
ghost use Rattle.book.specs.Ask.{AskSays};
ghost use Rattle.book.specs.Steps.{run_in, piece_in, Works};

use crate::front::{CODE, home_of, lay};
use crate::slot::First;
use good::{Run, Slab, check_piece, check_run};
use piece::{coded, verdict};
use refusal::Refusal;
use seal::SIZE;

// A verdict, coded as in an entry, that was remembered or worked out.
#[derive(Clone, Copy, PartialEq, Eq)]
pub enum Asked {
    Remembered(u32),
    Worked(u32),
}

// A run and a piece: what a book is asked.
#[derive(Clone, Copy)]
pub(crate) struct Query<'a> {
    pub(crate) run: Run,
    pub(crate) slab: Slab,
    pub(crate) corners: &'a [i32],
}

// The verdict is worked out, and the piece checked, only once.
fn work(slot: &mut [u8], first: First, query: Query) -> Result<Asked, Refusal>
    requires { length slot.old ≡ block_size }
    ensures { Works slot.old slot.new (filled code_at first.entry.bytes.now) (run_in query.entry) (piece_in query.entry) result }
{
    let code = coded(verdict(query.run, query.slab, query.corners))?;
    first.keep(slot, code);
    Ok(Asked::Worked(code))
}

// A good run asks: what is remembered is answered only of a good piece.
fn answer(book: &mut [u8], query: Query) -> Result<Asked, Refusal>
    requires { Slots book.old × Passes (run_checks (run_in query)) }
    ensures { AskSays book.old book.new (run_in query.entry) (piece_in query.entry) result }
{
    let mut front = [0u8; CODE];
    let end = lay(query, &mut front);
    let bytes = &front[..end];
    let first = First { bytes };
    let from = SIZE * home_of(&front, book.len() / SIZE);
    let slot = &mut book[from..from + SIZE];
    match first.recall(slot.as_array().unwrap(), query.run) {
        None => work(slot, first, query),
        Some(code) => {
            check_piece(query.slab, query.corners)?;
            Ok(Asked::Remembered(code))
        }
    }
}

// Asks a book for a verdict: a hit is answered as remembered; otherwise it is worked out, and remembered in its home slot.
#[tactic(auto, using(crate::proofs::Asking::run_faulty), unfolding(crate::specs::Ask::ask_checks))]
pub fn ask(book: &mut [u8], run: Run, slab: Slab, corners: &[i32]) -> Result<Asked, Refusal>
    ensures { AskSays book.old book.new (run_of run) (piece_of slab corners.now) result }
{
    let len = book.len();
    let slots = len / SIZE;
    if len % SIZE != 0 {
        return Err(Refusal::Length);
    }
    if slots < 1 {
        return Err(Refusal::Length);
    }
    if 128 < slots {
        return Err(Refusal::Length);
    }
    check_run(run)?;
    answer(book, Query { run, slab, corners })
}
