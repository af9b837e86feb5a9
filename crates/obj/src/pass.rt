// One pass over the lines: the vertices into a table, and the face.
ghost use Rattle.std.specs.Prelude.{◌≡◌, ◌≤◌, length};
ghost use Rattle.obj.specs.Steps.{Room, Stepping, Scans};

use crate::table::{Entry, entry_of};
use crate::text::first_line;
use line::{Said, read_line};
use refusal::Refusal;

// A face that was seen: its line, and how many vertices stand above it.
#[derive(Clone, Copy)]
pub(crate) struct Face<'a> {
    pub(crate) line: &'a [u8],
    pub(crate) above: u16,
}

// What was seen of a file: how many vertices, and the face, if there is one.
#[derive(Clone, Copy)]
pub(crate) struct Seen<'a> {
    pub(crate) vertices: u16,
    pub(crate) face: Option<Face<'a>>,
}

// A line of the file, past the first i: 14, then 16, then 15.
fn step<'a>(
    line: &'a [u8],
    i: usize,
    seen: Seen<'a>,
    table: &mut [Entry],
) -> Result<Seen<'a>, Refusal>
    requires { Room line.now i seen table.old }
    ensures { Stepping line.now i seen.entry table.old table.new result }
{
    let above = seen.vertices;
    match read_line(line, above) {
        Said::Passed => Ok(seen),
        Said::Other => Err(Refusal::Line(i + 1)),
        Said::Vertex(v) => {
            table[above as usize] = entry_of(v);
            Ok(Seen {
                vertices: above + 1,
                ..seen
            })
        }
        Said::Face(_) if seen.face.is_some() => Err(Refusal::Face(i + 1)),
        Said::Face(false) => Err(Refusal::Index(i + 1)),
        Said::Face(true) => Ok(Seen {
            face: Some(Face { line, above }),
            ..seen
        }),
    }
}

// All lines, as far as none is refused.
pub(crate) fn scan<'a>(file: &'a [u8], table: &mut [Entry]) -> Result<Seen<'a>, Refusal>
    requires { (length file.now ≤ 65536) × (length table.old ≡ 8192) }
    ensures { Scans file.now table.new result }
{
    let mut seen = Seen {
        vertices: 0,
        face: None,
    };
    let mut rest = Some(file);
    // the line's number, a refusal's place
    let mut i = 0;
    while let Some(text) = rest {
        let (line, more) = first_line(text);
        seen = step(line, i, seen, table)?;
        rest = more;
        i += 1;
    }
    Ok(seen)
}
