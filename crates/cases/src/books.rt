// The book: two pieces that share home slot and sum, asked in turn; a forged entry; a damaged one.
use crate::{Q, Score, run, slab};
use book::Asked;
use piece::NONE;
use refusal::Refusal;
use std::io;

// Another piece than Q with the same sum of bytes: its upper edge leans.
const LEANING: [i32; 8] = [0, 0, 64, 0, 64, 63, 0, 65];

// What a book answers for a run just above Q, and on the leaning piece's upper corner after four ticks.
fn ask(pages: &mut [u8], corners: &[i32]) -> Result<Asked, Refusal> {
    let above = run(-64, 65, 16, 16, 0, 0, 4);
    book::ask(pages, above, slab(0), corners)
}

// Corners that are asked about, and the answer.
#[derive(Clone, Copy)]
struct Asking<'a> {
    name: &'a str,
    corners: &'a [i32],
    answer: Asked,
}

fn shared(rt: &impl Print, score: &mut Score, pages: &mut [u8]) -> io::Result<()> {
    let all = [
        Asking {
            name: "Q asked: worked out, clear",
            corners: &Q,
            answer: Asked::Worked(NONE),
        },
        Asking {
            name: "Q asked again: remembered, clear",
            corners: &Q,
            answer: Asked::Remembered(NONE),
        },
        Asking {
            name: "the leaning piece, same slot and sum: worked out, 1024",
            corners: &LEANING,
            answer: Asked::Worked(1024),
        },
        Asking {
            name: "Q asked in turn: worked out, clear",
            corners: &Q,
            answer: Asked::Worked(NONE),
        },
    ];
    for case in &all {
        let answer = ask(pages, case.corners);
        score.tell(rt, case.name, answer == Ok(case.answer))?;
    }
    Ok(())
}

// Four bytes of 255 made 0: the mark 0 for clear, and both sums as they were.
fn forgery(rt: &impl Print, score: &mut Score, page: &mut [u8; 512]) -> io::Result<()> {
    let worked = ask(page, &Q) == Ok(Asked::Worked(NONE));
    page[283..287].fill(0);
    let forged = ask(page, &Q) == Ok(Asked::Remembered(0));
    score.tell(
        rt,
        "a forged sound entry: remembered as it says, 0",
        worked && forged,
    )
}

fn damage(rt: &impl Print, score: &mut Score, page: &mut [u8; 512]) -> io::Result<()> {
    page[300] = 1;
    let worked = ask(page, &Q) == Ok(Asked::Worked(NONE));
    score.tell(rt, "a damaged entry: worked out, clear", worked)
}

pub(crate) fn books(rt: &impl Print, score: &mut Score) -> io::Result<()> {
    let mut pages = [0u8; 2048];
    shared(rt, score, &mut pages)?;
    let mut page = [0u8; 512];
    forgery(rt, score, &mut page)?;
    damage(rt, score, &mut page)
}
