//! Kinds of bytes, and the ends of words and comments.

ghost use Rattle.std.specs.Prelude.{◌≡◌, ◌+◌, ◌<◌, ◌≤◌, ◌^◌, true, false, length, drop, slice_index};
ghost use Rattle.cpt_sexp.specs.Bytes.{is_blank, is_letter, plain, plain_from};
ghost use Rattle.cpt_sexp.specs.Grammar.{IsGap, IsWord};
ghost use Rattle.cpt_sexp.specs.Progress.{IsOutside, empties};

/// Whether the byte is a space, a tab, a carriage return or a line feed.
pub fn is_blank(b: u8) -> bool
    ensures { result ≡ is_blank b }
{
    b == b' ' || b == b'\t' || b == b'\r' || b == b'\n'
}

/// Whether the byte stands in words: it is printable, no parenthesis and no semicolon.
pub fn is_letter(b: u8) -> bool
    ensures { result ≡ is_letter b }
{
    matches!(b, 0x21..=0x7e) && b != b'(' && b != b')' && b != b';'
}

/// The place where a comment that goes on at a place ends: its line feed, or the end of the text.
pub fn comment_end(text: &[u8], at: usize) -> usize
    requires within { at ≤ length text.now }
    requires commented { drop at (plain text.now) ≡ plain_from true (drop at text.now) }
    ensures within { result ≤ length text.now }
    ensures blank { IsGap (plain text.now) at result }
    ensures ended { IsOutside text.now result }
{
    let mut end = at;
    while end < text.len() {
        if text[end] == b'\n' {
            return end;
        }
        end += 1;
    }
    end
}

/// The place after a word that begins at a place.
pub fn word_end(text: &[u8], at: usize) -> usize
    requires within { at < length text.now }
    requires begun { is_letter (slice_index text.now at) ≡ true }
    requires plainly { IsOutside text.now at }
    ensures within { result ≤ length text.now }
    ensures word { IsWord (plain text.now) at result }
    ensures plainly { IsOutside text.now result }
{
    let mut end = at + 1;
    while end < text.len() {
        if !is_letter(text[end]) {
            return end;
        }
        end += 1;
    }
    end
}

/// Whether all open groups are closed at some place of bytes that begin in no comment, where so many are open
/// before them.
pub fn runs_out(bytes: &[u8], groups: usize) -> bool
    requires { groups + length bytes.now < 2 ^ 32 }
    ensures { result ≡ empties groups (plain bytes.now) }
{
    let mut depth = groups;
    let mut commented = false;
    for b in bytes {
        if depth == 0 {
            return true;
        }
        if commented {
            commented = *b != b'\n';
        } else {
            match *b {
                b';' => commented = true,
                b'(' => depth += 1,
                b')' => depth -= 1,
                _ => (),
            }
        }
    }
    depth == 0
}
