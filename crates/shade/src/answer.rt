// The text that answers an input: a run block, then a room image.
ghost use Rattle.good.specs.Numbers.{run_of};
ghost use Rattle.refusal.specs.Said.{Finds};
ghost use Rattle.io.specs.Counts.{IsPrefixLen};
ghost use Rattle.block.specs.Reading.{RunGood};
ghost use Rattle.shade.specs.Text.{Whole, length_checks, run_part, Prints};

use crate::line::put_page;
use block::{MOST, read_run};
use good::Run;
use notice::{room_line, run_line};
use refusal::Refusal;
use room::verdicts;
use seal::SIZE;

// No text that answers is longer: the line of the count, and a line for each of 126 pieces.
pub(crate) const LONGEST: usize = 6328;

#[tactic(auto, unfolding(crate::specs::Text::length_checks))]
fn check_length(input: &[u8]) -> Result<(), Refusal>
    ensures { Finds (length_checks input.now) result }
{
    let n = input.len();
    if n % SIZE != 0 || n < 1024 || 65536 < n {
        return Err(Refusal::Length);
    }
    Ok(())
}

// A good run: the room's verdicts. The list has an element for each piece that a room can have, so it is never too short.
fn answer_room(run: Run, input: &[u8], out: &mut [u8; LONGEST]) -> usize
    requires { Whole input.now × RunGood (run_part input.now) (run_of run) }
    ensures { Prints input.now out.old out.new result }
{
    let mut codes = [0u32; MOST];
    match verdicts(run, &input[SIZE..], &mut codes) {
        Ok(n) => put_page(out, &codes[..n]),
        Err(x) => room_line(out, x.refusal, x.block),
    }
}

// The run block by itself first: its refusals look like a header's.
fn answer_blocks(input: &[u8], out: &mut [u8; LONGEST]) -> usize
    requires { Whole input.now }
    ensures { Prints input.now out.old out.new result }
{
    match read_run(&input[..SIZE]) {
        Ok(run) => answer_room(run, input, out),
        Err(x) => run_line(out, x),
    }
}

pub(crate) fn answer(input: &[u8], out: &mut [u8; LONGEST]) -> usize
    ensures prints { Prints input.now out.old out.new result }
    ensures prefix_len { IsPrefixLen result out.new }
{
    match check_length(input) {
        Ok(()) => answer_blocks(input, out),
        Err(x) => room_line(out, x, 0),
    }
}
