// Each answer as one number, as C and Rust read it: specs/Coded.antt says which, specs/Macros.antt and Told.antt how it is read back.
#![tactic(auto)]

ghost use Rattle.std.specs.Prelude.{◌≡◌};
ghost use Rattle.coding.specs.Coded.{Meaning, refusal_code, code_of, nothing_means, count_means, spot_means, mark_means, entry_means, refusal_means, room_refusal_means, result_means};

use book::Asked;
use piece::{Spot, coded};
use refusal::{Refusal, Row};
use room::RoomRefusal;

// What an answer says to a caller, and that as one number.
pub trait Code {
    ghost means: { Self → Meaning };

    fn code(self) -> u64
        ensures { result ≡ code_of (means self) };
}

#[tactic(auto, unfolding(crate::specs::Coded::refusal_code))]
fn packed(number: u64, block: u64, a: u64, b: u64) -> u64
    ensures { result ≡ refusal_code (record { number = number; block = block; a = a; b = b }) }
{
    let high = 0x8000_0000_0000_0000u64 + number % 0x100 * 0x1_0000_0000_0000;
    let middle = high + block % 0x100 * 0x100_0000_0000;
    middle + a % 0x100_0000 * 0x1_0000 + b % 0x1_0000
}

impl Code for RoomRefusal {
    ghost means = { room_refusal_means };

    fn code(self) -> u64 {
        let row = Row::from(self.refusal);
        packed(
            row.number as u64,
            self.block as u64,
            row.a as u64,
            row.b as u64,
        )
    }
}

// Outside a room the block is 0.
impl Code for Refusal {
    ghost means = { refusal_means };

    fn code(self) -> u64 {
        RoomRefusal::from(self).code()
    }
}

impl Code for () {
    ghost means = { nothing_means };

    fn code(self) -> u64 {
        0
    }
}

// The piece count of a header.
impl Code for u32 {
    ghost means = { count_means };

    fn code(self) -> u64 {
        u64::from(self)
    }
}

// The piece count of a room, or the corner count of a file or of a piece; one impl for each type that an answer has.
impl Code for usize {
    ghost means = { count_means };

    fn code(self) -> u64 {
        self as u64
    }
}

// A verdict: C has no Option, and is told what an entry and a lent list have for it, by the function that makes it for them.
impl Code for Option<u32> {
    ghost means = { mark_means };

    fn code(self) -> u64 {
        match coded(Ok(self)) {
            Ok(c) => u64::from(c),
            Err(x) => x.code(),
        }
    }
}

impl Code for Spot {
    ghost means = { spot_means };

    fn code(self) -> u64 {
        match self {
            Spot::Outside => 0,
            Spot::Inside => 1,
            Spot::On => 2,
        }
    }
}

impl Code for Asked {
    ghost means = { entry_means };

    fn code(self) -> u64 {
        match self {
            Asked::Remembered(c) => 0x1_0000_0000 + u64::from(c),
            Asked::Worked(c) => u64::from(c),
        }
    }
}

impl<T: Code, E: Code> Code for Result<T, E> {
    ghost means = { result_means T.means E.means };

    fn code(self) -> u64 {
        match self {
            Ok(answer) => answer.code(),
            Err(refusal) => refusal.code(),
        }
    }
}
