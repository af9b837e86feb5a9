// A text cut into its first line and the rest.
ghost use Rattle.std.specs.Prelude.{◌≡◌, option_copied};
ghost use Rattle.line.specs.Text.{unreturned};
ghost use Rattle.obj.specs.Steps.{FirstLine};

// A line before its feed: a carriage return at its end is ignored.
#[tactic(auto, unfolding(line::specs::Text::unreturned))]
fn unreturned(line: &[u8]) -> &[u8]
    ensures { result.now ≡ unreturned line.now }
{
    match line {
        [front @ .., b'\r'] => front,
        _ => line,
    }
}

// The first line of a text, and what stands after its feed, if it has one.
pub(crate) fn first_line(text: &[u8]) -> (&[u8], Option<&[u8]>)
    ensures { FirstLine text.now result.0.now (option_copied result.1) }
{
    match text.iter().position(|&b| b == b'\n') {
        Some(end) => (unreturned(&text[..end]), Some(&text[end + 1..])),
        None => (text, None),
    }
}
