//! A text cut at a byte.

ghost use Rattle.std.specs.Prelude.{◌≡◌, ◌≢◌, ◌∷◌, ◌++◌, [], All, MatchOption};
ghost use Rattle.round_steps.specs.state.Steps.{lines_of};

/// The bytes before the first such byte, and the bytes after it, if there is one.
pub(crate) fn cut(text: &[u8], byte: u8) -> (&[u8], Option<&[u8]>)
    ensures before { All (λ b. b ≢ byte) result.0.now }
    ensures whole { MatchOption result.1 (text.now ≡ result.0.now)
        (λ behind. text.now ≡ result.0.now ++ byte ∷ behind.now) }
{
    match text.iter().position(|b| *b == byte) {
        Some(place) => (&text[..place], Some(&text[place + 1..])),
        None => (text, None),
    }
}

/// The first line, and the text after its newline, if it has one.
pub(crate) fn first_line(text: &[u8]) -> (&[u8], Option<&[u8]>)
    ensures { MatchOption result.1 (lines_of text.now ≡ result.0.now ∷ [])
        (λ behind. lines_of text.now ≡ result.0.now ∷ lines_of behind.now) }
{
    cut(text, b'\n')
}
