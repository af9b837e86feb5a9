// The table of the vertices.
ghost use Rattle.std.specs.Prelude.{◌≡◌, IfOk};
ghost use Rattle.rules.specs.Reach.{Reach};

use line::{Missed, Vertex};

// A vertex in eight bytes: a grid number within reach fits 16 bits, and the table 64 KB of stack.
#[derive(Clone, Copy)]
pub(crate) struct Entry {
    pub(crate) x: Result<i16, Missed>,
    pub(crate) y: Result<i16, Missed>,
}

fn short(n: Result<i32, Missed>) -> Result<i16, Missed>
    requires { IfOk n Reach }
    ensures { result ≡ n }
{
    Ok(n? as i16)
}

pub(crate) fn entry_of(v: Vertex) -> Entry
    requires { IfOk v.x Reach × IfOk v.y Reach }
    ensures { result ≡ record { x = v.x; y = v.y } }
{
    Entry {
        x: short(v.x),
        y: short(v.y),
    }
}
