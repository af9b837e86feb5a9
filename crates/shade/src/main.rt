// The printing program: a run block and a room image on standard input, the verdicts as lines on standard output.
#![tactic(auto)]

mod answer;
mod line;

ghost use Rattle.std.specs.Prelude.{IfOk};
ghost use Rattle.io.specs.Counts.{IsPrefixLen};

use answer::{LONGEST, answer};
use std::io;
use std::io::Read;

// Reads until the buffer is full or the input ends, and answers how many bytes it put at the buffer's begin.
// By hand: read_exact tells no length of a shorter input, and read_to_end wants the heap.
fn read_full<R: Read>(reader: &mut R, buf: &mut [u8]) -> io::Result<usize>
    ensures { IfOk result (λ n. IsPrefixLen n buf.new) }
{
    let mut done = 0;
    while done < buf.len() {
        let n = reader.read(&mut buf[done..])?;
        if n == 0 {
            break;
        }
        done += n;
    }
    Ok(done)
}

// One byte more than the longest input tells one that is too long. A read or a write that fails ends the program with
// its error.
fn main(rt: HostRuntime) -> io::Result<()> {
    let mut input = [0u8; 65537];
    let n = read_full(&mut rt.reader(), &mut input)?;
    let mut out = [0u8; LONGEST];
    let k = answer(&input[..n], &mut out);
    rt.write_all(&out[..k])
}
