// Words, and the parts of a text.
ghost use Rattle.std.specs.Prelude.{◌≡◌, ◌∷◌, eqb, option_copied};
ghost use Rattle.line.specs.Text.{blank, parts};
ghost use Rattle.line.specs.Steps.{NextWord, others};

// Whether a byte parts words.
fn is_blank(b: u8) -> bool
    ensures { result ≡ blank b }
{
    b == b' ' || b == b'\t'
}

// The next word of a line, and what stands after it.
pub(crate) fn word(line: &[u8]) -> Option<(&[u8], &[u8])>
    ensures { NextWord line.now result }
{
    let Some(from) = line.iter().position(|&b| !is_blank(b)) else {
        return None;
    };
    let begun = &line[from..];
    match begun.iter().position(|&b| is_blank(b)) {
        Some(len) => Some((&begun[..len], &begun[len..])),
        None => Some((begun, &[])),
    }
}

// A text up to the first byte that parts it, and what stands past that, if there is one.
pub(crate) fn cut(text: &[u8], at: u8) -> (&[u8], Option<&[u8]>)
    ensures { parts (λ b. eqb b at) text.now ≡ result.0.now ∷ others (λ b. eqb b at) (option_copied result.1) }
{
    match text.iter().position(|&b| b == at) {
        Some(i) => (&text[..i], Some(&text[i + 1..])),
        None => (text, None),
    }
}
