// The examples that are run: each is asked of the public calls and compared with what it should be.
// A line for each, and a count at the end; the file stdout beside src/ says what must be written.
#![tactic(auto)]

use good::{Run, Slab};
use grid::Taken;
use piece::Spot;
use refusal::{Refusal, Row};
use std::io;

mod books;
mod files;

const Q: [i32; 8] = [0, 0, 64, 0, 64, 64, 0, 64];

const U: [i32; 16] = [0, 0, 96, 0, 96, 96, 64, 96, 64, 32, 32, 32, 32, 96, 0, 96];

const TURNED: [i32; 8] = [0, 0, 0, 64, 64, 64, 64, 0];

const CROSSED: [i32; 8] = [0, 0, 64, 64, 64, 0, 0, 64];

const FOLDED: [i32; 8] = [0, 0, 64, 0, 32, 0, 32, 64];

const REACH: [i32; 6] = [-16384, -16384, 16384, -16384, 16384, 16384];

const OVER: [i32; 6] = [-16384, -16384, 16384, -16384, 16385, 16384];

const ZEROS: [i32; 1000] = [0; 1000];

// How many were right, of how many.
#[derive(Clone, Copy)]
struct Score {
    right: u32,
    all: u32,
}

impl Score {
    fn tell(&mut self, rt: &impl Print, name: &str, right: bool) -> io::Result<()> {
        let verdict = if right { "right" } else { "WRONG" };
        self.right = std::num::wrapping_add_u32(self.right, right as u32);
        self.all = std::num::wrapping_add_u32(self.all, 1);
        println!(rt; "{verdict}  {name}")
    }
}

// A refusal as the table has it: its number, and its places a and b.
fn row(x: Refusal) -> (usize, usize, usize) {
    let row = Row::from(x);
    (row.number, row.a, row.b)
}

fn run(x: i32, y: i32, z: i32, vx: i32, vy: i32, vz: i32, ticks: u32) -> Run {
    Run {
        x,
        y,
        z,
        vx,
        vy,
        vz,
        ticks,
    }
}

// The band 0 to 32, at a velocity on x.
fn slab(vx: i32) -> Slab {
    Slab {
        bottom: 0,
        top: 32,
        vx,
        vy: 0,
        vz: 0,
    }
}

// A run on corners that move so on x, and the mark where it is blocked.
#[derive(Clone, Copy)]
struct Ran<'a> {
    name: &'a str,
    run: Run,
    vx: i32,
    corners: &'a [i32],
    mark: Option<u32>,
}

fn runs(rt: &impl Print, score: &mut Score) -> io::Result<()> {
    let all = [
        Ran {
            name: "run (-64,32,16) at (3,0,0) for 21 on Q: clear",
            run: run(-64, 32, 16, 3, 0, 0, 21),
            vx: 0,
            corners: &Q,
            mark: None,
        },
        Ran {
            name: "run (-64,32,16) at (8,0,0) for 8 on Q at (-8,0,0): 1024",
            run: run(-64, 32, 16, 8, 0, 0, 8),
            vx: -8,
            corners: &Q,
            mark: Some(1024),
        },
        Ran {
            name: "run (48,200,16) at (0,-8,0) for 20 on U: clear",
            run: run(48, 200, 16, 0, -8, 0, 20),
            vx: 0,
            corners: &U,
            mark: None,
        },
        Ran {
            name: "run (-64,32,16) at (7,0,0) for 10 on Q: 2340, not 2341",
            run: run(-64, 32, 16, 7, 0, 0, 10),
            vx: 0,
            corners: &Q,
            mark: Some(2340),
        },
        Ran {
            name: "run (-100,32,16) at (255,0,0) for 1 on Q: 100",
            run: run(-100, 32, 16, 255, 0, 0, 1),
            vx: 0,
            corners: &Q,
            mark: Some(100),
        },
        Ran {
            name: "run (32,32,40) at (0,0,-1) for 16 over Q, from above: 2048",
            run: run(32, 32, 40, 0, 0, -1, 16),
            vx: 0,
            corners: &Q,
            mark: Some(2048),
        },
    ];
    for case in &all {
        let verdict = piece::verdict(case.run, slab(case.vx), case.corners);
        score.tell(rt, case.name, verdict == Ok(case.mark))?;
    }
    Ok(())
}

// Where a point lies in U.
#[derive(Clone, Copy)]
struct Placed<'a> {
    name: &'a str,
    x: i32,
    y: i32,
    answer: Result<Spot, (usize, usize, usize)>,
}

fn places(rt: &impl Print, score: &mut Score) -> io::Result<()> {
    let all = [
        Placed {
            name: "(32,-16) in U: outside",
            x: 32,
            y: -16,
            answer: Ok(Spot::Outside),
        },
        Placed {
            name: "(48,16) in U: inside",
            x: 48,
            y: 16,
            answer: Ok(Spot::Inside),
        },
        Placed {
            name: "(48,32) in U: on",
            x: 48,
            y: 32,
            answer: Ok(Spot::On),
        },
        Placed {
            name: "(16385,0) in U: 4 at 2",
            x: 16385,
            y: 0,
            answer: Err((4, 2, 0)),
        },
        Placed {
            name: "(16384,-16385) in U: 4 at 4",
            x: 16384,
            y: -16385,
            answer: Err((4, 4, 0)),
        },
    ];
    for case in &all {
        let spot = piece::place(case.x, case.y, &U).map_err(row);
        score.tell(rt, case.name, spot == case.answer)?;
    }
    Ok(())
}

// What corners are refused with.
#[derive(Clone, Copy)]
struct Held<'a> {
    name: &'a str,
    corners: &'a [i32],
    answer: Result<(), (usize, usize, usize)>,
}

fn check_all(rt: &impl Print, score: &mut Score, cases: &[Held]) -> io::Result<()> {
    for case in cases {
        let checked = good::check_piece(slab(0), case.corners).map_err(row);
        score.tell(rt, case.name, checked == case.answer)?;
    }
    Ok(())
}

fn footprints(rt: &impl Print, score: &mut Score) -> io::Result<()> {
    let all = [
        Held {
            name: "Q turned round: 9",
            corners: &TURNED,
            answer: Err((9, 0, 0)),
        },
        Held {
            name: "crossed: 8 at 0, 2",
            corners: &CROSSED,
            answer: Err((8, 0, 2)),
        },
        Held {
            name: "folded: 7 at 1",
            corners: &FOLDED,
            answer: Err((7, 1, 0)),
        },
        Held {
            name: "the ends of reach are taken",
            corners: &REACH,
            answer: Ok(()),
        },
        Held {
            name: "one beyond: 4 at 20",
            corners: &OVER,
            answer: Err((4, 20, 0)),
        },
    ];
    check_all(rt, score, &all)
}

// So many numbers, where no footprint has so many.
fn miscounted<'a>(name: &'a str, corners: &'a [i32]) -> Held<'a> {
    Held {
        name,
        corners,
        answer: Err((5, 0, 0)),
    }
}

fn lengths(rt: &impl Print, score: &mut Score) -> io::Result<()> {
    let all = [
        miscounted("no number: 5", &ZEROS[..0]),
        miscounted("1 number: 5", &ZEROS[..1]),
        miscounted("5 numbers: 5", &ZEROS[..5]),
        miscounted("7 numbers: 5", &ZEROS[..7]),
        miscounted("129 numbers: 5", &ZEROS[..129]),
        miscounted("130 numbers: 5", &ZEROS[..130]),
        miscounted("1000 numbers: 5", &ZEROS),
    ];
    check_all(rt, score, &all)
}

// What an exported number is.
#[derive(Clone, Copy)]
struct Exported<'a> {
    name: &'a str,
    x: f32,
    answer: Taken,
}

fn numbers(rt: &impl Print, score: &mut Score) -> io::Result<()> {
    let all = [
        Exported {
            name: "1024 is taken as 16384",
            x: 1024.0,
            answer: Taken::Grid(16384),
        },
        Exported {
            name: "1024.0625 is out of reach",
            x: 1024.0625,
            answer: Taken::Beyond,
        },
        Exported {
            name: "-0.03125 is off grid over -0.0625",
            x: -0.03125,
            answer: Taken::OffGrid(-0.0625),
        },
    ];
    for case in &all {
        score.tell(rt, case.name, grid::take(case.x) == case.answer)?;
    }
    Ok(())
}

fn main(rt: HostRuntime) -> io::Result<()> {
    let mut score = Score { right: 0, all: 0 };
    runs(&rt, &mut score)?;
    places(&rt, &mut score)?;
    footprints(&rt, &mut score)?;
    lengths(&rt, &mut score)?;
    numbers(&rt, &mut score)?;
    books::books(&rt, &mut score)?;
    files::files(&rt, &mut score)?;
    println!(rt; "{} right of {}", score.right, score.all)
}
