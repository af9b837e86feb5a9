// OBJ files: a square in two spellings, and files that are refused, with the list as it was.
use crate::{Score, row, slab};
use good::Slab;
use std::io;

const SEVENS: [i32; 10] = [7; 10];

// Q's corners, and the two numbers past them stay.
const SQUARE: [i32; 10] = [0, 0, 64, 0, 64, 64, 0, 64, 7, 7];

// A file with a band into ten numbers, all 7: the corner count, or what it is refused with, and what they are then.
#[derive(Clone, Copy)]
struct Drawn<'a> {
    name: &'a str,
    file: &'a [u8],
    slab: Slab,
    answer: Result<usize, (usize, usize, usize)>,
    then: [i32; 10],
}

fn draw_all(rt: &impl Print, score: &mut Score, cases: &[Drawn]) -> io::Result<()> {
    for case in cases {
        let mut list = SEVENS;
        let answer = obj::footprint(case.file, case.slab, &mut list).map_err(row);
        score.tell(rt, case.name, answer == case.answer && list == case.then)?;
    }
    Ok(())
}

fn square<'a>(name: &'a str, file: &'a [u8]) -> Drawn<'a> {
    Drawn {
        name,
        file,
        slab: slab(0),
        answer: Ok(4),
        then: SQUARE,
    }
}

// A file that is refused, and the list stays.
fn bad<'a>(name: &'a str, file: &'a [u8], number: usize, a: usize, b: usize) -> Drawn<'a> {
    Drawn {
        name,
        file,
        slab: slab(0),
        answer: Err((number, a, b)),
        then: SEVENS,
    }
}

fn squares(rt: &impl Print, score: &mut Score) -> io::Result<()> {
    let all = [
        square(
            "OBJ: Q, four corners, and the list's later numbers stay",
            b"v 0 0 0\nv 4 0 0\nv 4 0 -4\nv 0 0 -4\nf 1 2 3 4\n",
        ),
        square(
            "OBJ: Q with slashes, signs, negative indices, tabs, returns, lines passed over, no last feed and v below: the same",
            b"# Q\r\nmtllib a.mtl\no Q\r\n\t \r\nv\t+0.0 9 -0\r\n v 4.000\t0.5 0 \r\nvn 0 1 0\nv 004 -1 -4.0\nv -0 +2 -4\r\nvt x\nf\t1/1 -3//2 3/-7/0 -1\r\nv 5 5 5\nv 5 5 999999999",
        ),
    ];
    draw_all(rt, score, &all)
}

fn lines(rt: &impl Print, score: &mut Score) -> io::Result<()> {
    let all = [
        bad(
            "OBJ: a return before the end of the file: 14 at 4",
            b"v 0 0 0\nv 4 0 0\nv 4 0 -4\nf 1 2 3\r",
            14,
            4,
            0,
        ),
        bad("OBJ: a blank before #: 14 at 2", b"# x\n # x\n", 14, 2, 0),
        bad("OBJ: index 0: 15 at 2", b"v 0 0 0\nf 1 0\n", 15, 2, 0),
        bad(
            "OBJ: index 18446744073709551617: 15 at 2",
            b"v 0 0 0\nf 1 18446744073709551617\n",
            15,
            2,
            0,
        ),
        bad(
            "OBJ: index 4 of 3 before a line that is not read: 15 at 4",
            b"v 0 0 0\nv 4 0 0\nv 4 0 -4\nf 1 2 4\nv 1\n",
            15,
            4,
            0,
        ),
    ];
    draw_all(rt, score, &all)
}

fn faces(rt: &impl Print, score: &mut Score) -> io::Result<()> {
    let all = [
        bad("OBJ: an empty file: 16 at 0", b"", 16, 0, 0),
        bad(
            "OBJ: a second face: 16 at 3",
            b"v 0 0 0\nf 1\nf 1\n",
            16,
            3,
            0,
        ),
        bad(
            "OBJ: a second face with a bad index: 16 at 3",
            b"v 0 0 0\nf 1\nf 0\n",
            16,
            3,
            0,
        ),
    ];
    draw_all(rt, score, &all)
}

fn corners(rt: &impl Print, score: &mut Score) -> io::Result<()> {
    let all = [
        bad(
            "OBJ: two corners, one at 1024.000000001: 12 at 1, 0, before 5",
            b"v 0 0 0\nv 1024.000000001 0 0\nf 1 2\n",
            12,
            1,
            0,
        ),
        bad(
            "OBJ: 0.062499999: 13 at 0, 1",
            b"v 0 0 0.062499999\nf 1\n",
            13,
            0,
            1,
        ),
        bad(
            "OBJ: x out of reach, z off the grid: 12 at 1, 0",
            b"v 0 0 0\nv -1025 0 0.01\nf 1 2\n",
            12,
            1,
            0,
        ),
        bad("OBJ: two corners: 5", b"v 0 0 0\nv 4 0 0\nf 1 2\n", 5, 0, 0),
    ];
    draw_all(rt, score, &all)
}

// A bottom out of reach.
fn deep() -> Slab {
    Slab {
        bottom: -16385,
        ..slab(0)
    }
}

fn pieces(rt: &impl Print, score: &mut Score) -> io::Result<()> {
    let turned = b"v 0 0 0\nv 4 0 0\nv 4 0 4\nv 0 0 4\nf 1 2 3 4\n";
    let all = [
        bad("OBJ: Q with z 4 for -4, so clockwise: 9", turned, 9, 0, 0),
        Drawn {
            slab: deep(),
            ..bad("OBJ: the same with bottom -16385: 4 at 2", turned, 4, 2, 0)
        },
    ];
    draw_all(rt, score, &all)
}

fn room(rt: &impl Print, score: &mut Score) -> io::Result<()> {
    let mut list = [7i32; 7];
    let file = b"v 0 0 0\nv 4 0 0\nv 4 0 -4\nv 0 0 -4\nf 1 2 3 4\n";
    let answer = obj::footprint(file, slab(0), &mut list).map_err(row);
    let right = answer == Err((10, 0, 0)) && list == [7i32; 7];
    score.tell(rt, "OBJ: Q into seven numbers: 10, and they stay", right)
}

pub(crate) fn files(rt: &impl Print, score: &mut Score) -> io::Result<()> {
    squares(rt, score)?;
    lines(rt, score)?;
    faces(rt, score)?;
    corners(rt, score)?;
    pieces(rt, score)?;
    room(rt, score)
}
