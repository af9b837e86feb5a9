// A verdict as one number.
ghost use Rattle.std.specs.Prelude.{◌≡◌};
ghost use Rattle.piece.specs.Tells.{coded_of};

use crate::NONE;
use refusal::Refusal;

pub fn coded(v: Result<Option<u32>, Refusal>) -> Result<u32, Refusal>
    ensures { result ≡ coded_of v }
{
    Ok(v?.unwrap_or(NONE))
}
