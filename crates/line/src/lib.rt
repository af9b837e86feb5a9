// What a line of OBJ text says, and the corners of a face: specs/Text.antt says lines and words, specs/Number.antt numbers, specs/Line.antt what a line says, specs/Calls.antt the answers.
// The vertices above a line are counted in 16 bits: a file of 65,536 bytes has 8,192 at most.
#![tactic(auto)]

ghost use Rattle.std.specs.Prelude.{◌≡◌};
ghost use Rattle.line.specs.Text.{words};
ghost use Rattle.line.specs.Line.{among, passed_words, vertex_line, face_line, line_of};
ghost use Rattle.line.specs.Calls.{said_of, within, Next};
ghost use Rattle.line.specs.Steps.{vertex_in};

use crate::decimal::decimal;
use crate::index::corner;
use crate::text::word;

mod decimal;
mod index;
mod text;

// What keeps a number of a vertex from the grid: it is out of reach, or it is off the grid.
#[derive(Clone, Copy, PartialEq, Eq)]
pub enum Missed {
    Beyond,
    OffGrid,
}

// A vertex: its x and our y, each a grid number or what keeps it from the grid.
#[derive(Clone, Copy, PartialEq, Eq)]
pub struct Vertex {
    pub x: Result<i32, Missed>,
    pub y: Result<i32, Missed>,
}

// Passed over; any other line; a vertex; a face, and whether every index names a vertex above it.
#[derive(Clone, Copy, PartialEq, Eq)]
pub enum Said {
    Passed,
    Other,
    Vertex(Vertex),
    Face(bool),
}

// Why a word names no vertex: its index names none of those above the line, or it is no corner.
#[derive(Clone, Copy, PartialEq, Eq)]
pub enum Unnamed {
    NoVertex,
    NoCorner,
}

// A word of a line, from here up to there, and the vertex that it names as a corner.
#[derive(Clone, Copy, PartialEq, Eq)]
pub struct Corner {
    pub from: usize,
    pub to: usize,
    pub vertex: Result<usize, Unnamed>,
}

// A place of a line; one past its end is its end.
fn within(line: &[u8], at: usize) -> usize
    ensures { result ≡ within line.now at }
{
    at.min(line.len())
}

// The next word from here on, if there is one.
pub fn next_corner(line: &[u8], at: usize, above: u16) -> Option<Corner>
    ensures { Next line.now at above result }
{
    let at = within(line, at);
    let (w, rest) = word(&line[at..])?;
    let to = line.len() - rest.len();
    let from = to - w.len();
    let vertex = corner(w, above);
    Some(Corner { from, to, vertex })
}

// Three decimals and nothing else.
fn read_vertex(line: &[u8]) -> Option<Vertex>
    ensures { result ≡ vertex_in (vertex_line (words line.now)) }
{
    let (x, rest) = word(line)?;
    let x = decimal(x, false)?;
    let (height, rest) = word(rest)?;
    let _ = decimal(height, false)?;
    // minus their z is our y
    let (z, rest) = word(rest)?;
    let y = decimal(z, true)?;
    if word(rest).is_some() {
        return None;
    }
    Some(Vertex { x, y })
}

// Corners, as many as there are.
fn read_face(line: &[u8], above: u16) -> Said
    ensures { result ≡ said_of above (face_line (words line.now)) }
{
    let mut rest = line;
    let mut all = true;
    while let Some((w, more)) = word(rest) {
        match corner(w, above) {
            Ok(_) => {}
            Err(Unnamed::NoVertex) => all = false,
            Err(Unnamed::NoCorner) => return Said::Other,
        }
        rest = more;
    }
    Said::Face(all)
}

// Whether a line that begins with this word is passed over, by its length first: to search a list of words takes twice as long for the whole file.
fn is_passed(w: &[u8]) -> bool
    ensures { result ≡ among w.now passed_words }
{
    match w.len() {
        1 => (w[0] == b'o') | (w[0] == b'g') | (w[0] == b's'),
        2 => (w[0] == b'v') & ((w[1] == b'n') | (w[1] == b't')),
        6 => {
            let w: &[u8; 6] = w.as_array().unwrap();
            (b"usemtl" == w) | (b"mtllib" == w)
        }
        _ => false,
    }
}

// A line, with so many vertices above it.
pub fn read_line(line: &[u8], above: u16) -> Said
    ensures { result ≡ said_of above (line_of line.now) }
{
    let Some((first, rest)) = word(line) else {
        return Said::Passed;
    };
    if line[0] == b'#' {
        return Said::Passed;
    }
    match first {
        b"v" => match read_vertex(rest) {
            Some(v) => Said::Vertex(v),
            None => Said::Other,
        },
        b"f" => read_face(rest, above),
        _ => if is_passed(first) {
            Said::Passed
        } else {
            Said::Other
        },
    }
}
