//! The lines of a text.

ghost use Rattle.std.specs.Prelude.{◌≡◌, [], MatchOption};
ghost use Rattle.cpt_line.specs.Lines.{EndsLine, split};

/// The first line of a text and what follows it, where a line ends in the text.
pub fn first_line(text: &[u8]) -> Option<(&[u8], &[u8])>
    ensures { MatchOption result (split text.now ≡ ([], text.now)) (λ found. EndsLine text.now found.0.now found.1.now) }
{
    for (i, b) in text.iter().enumerate() {
        if *b == b'\n' {
            return Some((&text[..i], &text[i + 1..]));
        }
    }
    None
}
