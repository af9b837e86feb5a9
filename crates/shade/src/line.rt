// The lines that the program prints.
ghost use Rattle.std.specs.Prelude.{◌≡◌, ◌+◌, ◌*◌, ◌≤◌, length};
ghost use Rattle.shade.specs.Text.{answered, piece_line, page};
ghost use Rattle.print.specs.Put.{Puts};

use piece::NONE;
use print::Page;

// A piece's answer, and the mark where blocked: the lent list of a room's verdicts has NONE for clear.
fn put_answer(out: &mut Page, code: u32)
    ensures same { out.new.out.ghost_name ≡ out.old.out.ghost_name }
    ensures puts { Puts out.old.out.now out.old.at (answered code) out.new.out.now out.new.at }
    ensures upper_bound { out.new.at ≤ out.old.at + 29 }
{
    if code == NONE {
        out.word(b" clear");
    } else {
        out.field(b" blocked ", code as usize);
    }
}

fn piece_line(out: &mut Page, i: usize, code: u32)
    ensures same { out.new.out.ghost_name ≡ out.old.out.ghost_name }
    ensures puts { Puts out.old.out.now out.old.at (piece_line i code) out.new.out.now out.new.at }
    ensures upper_bound { out.new.at ≤ out.old.at + 50 }
{
    out.number(i);
    put_answer(out, code);
    out.byte(b'\n');
}

// The piece count, and a line for each piece.
pub(crate) fn put_page(out: &mut [u8], codes: &[u32]) -> usize
    ensures puts { Puts out.old 0 (page codes.now (length codes.now)) out.new result }
    ensures upper_bound { result ≤ 28 + 50 * length codes.now }
{
    let mut lines = Page { out, at: 0 };
    lines.field(b"pieces ", codes.len());
    lines.byte(b'\n');
    for (i, code) in codes.iter().enumerate() {
        piece_line(&mut lines, i, *code);
    }
    lines.at
}
