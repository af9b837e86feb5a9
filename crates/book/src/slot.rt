// One slot of a book: what it remembers, and its bytes replaced.
ghost use Rattle.std.specs.Prelude.{◌≡◌, ◌++◌, ◌≤◌, length};
ghost use Rattle.rules.specs.Reach.{Ticks};
ghost use Rattle.good.specs.Numbers.{run_of};
ghost use Rattle.whole.specs.Decide.{Decides};
ghost use Rattle.seal.specs.Seal.{block_size, filled, block_of};
ghost use Rattle.book.specs.Entry.{code_at, four};
ghost use Rattle.book.specs.Steps.{CodeBytes, Recalls};

use crate::front::CODE;
use good::Run;
use piece::NONE;
use seal::{SIZE, is_parts, write_parts};

fn code_in(slot: &[u8; SIZE]) -> u32
    ensures { CodeBytes slot.now result }
{
    u32::from_le_bytes([slot[CODE], slot[CODE + 1], slot[CODE + 2], slot[CODE + 3]])
}

// The first bytes of an entry: zeros follow them up to its code.
#[derive(Clone, Copy)]
pub(crate) struct First<'a> {
    pub(crate) bytes: &'a [u8],
    ghost short: { length bytes.now ≤ code_at },
}

impl<'a> First<'a> {
    // The slot becomes the entry of these first bytes and a code; only what stands in it is summed. A slice, since what is written through an array of it is not found in it.
    pub(crate) fn keep(self, slot: &mut [u8], code: u32)
        requires { length slot.old ≡ block_size }
        ensures { slot.new ≡ block_of (filled code_at self.entry.bytes.now ++ four code) }
    {
        write_parts(self.bytes, &code.to_le_bytes(), CODE, slot).unwrap();
    }

    // Whether the slot is that entry, byte for byte.
    fn is_entry(self, slot: &[u8; SIZE], code: u32) -> bool
        ensures { Decides (slot.now ≡ block_of (filled code_at self.entry.bytes.now ++ four code)) result }
    {
        is_parts(self.bytes, &code.to_le_bytes(), CODE, slot)
    }

    // What a slot remembers of a question. An entry has NONE for a clear verdict: its four bytes are a format that may not change.
    pub(crate) fn recall(self, slot: &[u8; SIZE], run: Run) -> Option<u32>
        requires { Ticks run.ticks }
        ensures { Recalls slot.now (filled code_at self.entry.bytes.now) (run_of run) result }
    {
        let code = code_in(slot);
        if code != NONE && 256 * run.ticks < code {
            return None;
        }
        self.is_entry(slot, code).then_some(code)
    }
}
