// The lines that a program prints of a refusal, put at the begin of a lent buffer.
#![tactic(auto)]

ghost use Rattle.std.specs.Prelude.{◌≤◌};
ghost use Rattle.refusal.specs.Said.{said, said_in};
ghost use Rattle.print.specs.Put.{Puts};
ghost use Rattle.notice.specs.Notice.{run_line, room_line};

use print::Page;
use refusal::{Refusal, Row};

// A refused run. A line tells how long it is, as its promise is of the buffer alone and knows no page.
#[tactic(auto, using(print::proofs::Put::then), unfolding(crate::specs::Notice::run_line))]
pub fn run_line(out: &mut [u8], x: Refusal) -> usize
    ensures puts { Puts out.old 0 (run_line (said x)) out.new result }
    ensures upper_bound { result ≤ 128 }
{
    let row = Row::from(x);
    let mut line = Page { out, at: 0 };
    line.field(b"refused run ", row.number);
    line.byte(b'\n');
    line.at
}

// A refused room, or a wrong length.
pub fn room_line(out: &mut [u8], x: Refusal, block: usize) -> usize
    ensures puts { Puts out.old 0 (room_line (said_in x block)) out.new result }
    ensures upper_bound { result ≤ 128 }
{
    let row = Row::from(x);
    let mut page = Page { out, at: 0 };
    page.field(b"refused ", row.number);
    page.field(b" block ", block);
    page.field(b" at ", row.a);
    page.field(b" ", row.b);
    page.byte(b'\n');
    page.at
}
