// Refusals, and what checks find.
#![tactic(auto)]

ghost use Rattle.std.specs.Prelude.{◌≡◌};
ghost use Rattle.refusal.specs.Said.{RowOf};

// A refusal: what comes back when it can't be done, a case for each row of the table. specs/Said.antt gives each its number and places.
#[derive(Clone, Copy, PartialEq, Eq)]
pub enum Refusal {
    // the length of a room, a book or an input
    Length,
    // the check of a block
    Check,
    // kind, name, edition, piece count or a byte that must be zero: its offset
    Kind(usize),
    // a number out of reach, or bottom above top: its offset
    Reach(usize),
    // the corner count, or an odd list
    Corners,
    // a corner that equals the next
    Same(usize),
    // a corner where two edges fold
    Fold(usize),
    // two edges that meet
    Meet(usize, usize),
    Clockwise,
    // a lent list that is too short
    Short,
    // an exported number, by corner and coordinate
    NotNumber(usize, usize),
    Beyond(usize, usize),
    OffGrid(usize, usize),
    // a line of an OBJ file that is none of those that are read or passed over
    Line(usize),
    // a face with an index that names no vertex above it: its line
    Index(usize),
    // a second face: its line; or, with 0, no face
    Face(usize),
}

// A row of the table, filled in: the number of a refusal and its two places, 0 where it has none.
#[derive(Clone, Copy)]
pub struct Row {
    pub number: usize,
    pub a: usize,
    pub b: usize,
}

fn filled(number: usize, a: usize, b: usize) -> Row
    ensures { result ≡ record { number = number; a = a; b = b } }
{
    Row { number, a, b }
}

impl From<Refusal> for Row {
    ghost from_gives = { RowOf };

    fn from(x: Refusal) -> Row
        ensures { RowOf x result }
    {
        match x {
            Refusal::Length => filled(1, 0, 0),
            Refusal::Check => filled(2, 0, 0),
            Refusal::Kind(a) => filled(3, a, 0),
            Refusal::Reach(a) => filled(4, a, 0),
            Refusal::Corners => filled(5, 0, 0),
            Refusal::Same(a) => filled(6, a, 0),
            Refusal::Fold(a) => filled(7, a, 0),
            Refusal::Meet(a, b) => filled(8, a, b),
            Refusal::Clockwise => filled(9, 0, 0),
            Refusal::Short => filled(10, 0, 0),
            Refusal::NotNumber(a, b) => filled(11, a, b),
            Refusal::Beyond(a, b) => filled(12, a, b),
            Refusal::OffGrid(a, b) => filled(13, a, b),
            Refusal::Line(a) => filled(14, a, 0),
            Refusal::Index(a) => filled(15, a, 0),
            Refusal::Face(a) => filled(16, a, 0),
        }
    }
}
