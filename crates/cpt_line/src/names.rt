//! Names in their one spelling.

ghost use Rattle.std.specs.Prelude.{◌≡◌, false};
ghost use Rattle.cpt_line.specs.Names.{is_name, name_after, word_byte};

/// Whether the bytes are a name: words in parentheses, with one space between two.
pub fn is_spelled_name(bytes: &[u8]) -> bool
    ensures { result ≡ is_name bytes.now }
{
    match bytes {
        [b'(', rest @ ..] => is_name_after(rest),
        _ => false,
    }
}

/// Whether words have the byte: it is printable, no upper-case letter, no parenthesis and no semicolon.
pub fn is_word_byte(b: u8) -> bool
    ensures { result ≡ word_byte b }
{
    matches!(b, 0x21..=0x7e) && !matches!(b, b'A'..=b'Z') && b != b'(' && b != b')' && b != b';'
}

fn is_name_after(bytes: &[u8]) -> bool
    ensures { result ≡ name_after false bytes.now }
{
    let mut in_word = false;
    for (i, b) in bytes.iter().enumerate() {
        if *b == b')' {
            return in_word && i + 1 == bytes.len();
        }
        if *b == b' ' {
            if !in_word {
                return false;
            }
            in_word = false;
        } else {
            if !is_word_byte(*b) {
                return false;
            }
            in_word = true;
        }
    }
    false
}
