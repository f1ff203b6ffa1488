//! The words of a line.

ghost use Rattle.std.specs.Prelude.{◌≡◌, true, ◌<◌, ◌≤◌, ◌^◌, ◌==◌, None, Some, map, option_map, length, slice_index_or, IfOk, IfSome, MatchOption};
ghost use Rattle.std.specs.Str.{bytes_eq, all_ascii_digits};
ghost use Rattle.std.specs.Str.Parse.{digits_value};
ghost use Rattle.cpt_cert_read.specs.Reading.{words_in, cut, is_numeral, number_in, number_to, id_in, span_in, cand_in, is_after_in, out_in};

use cpt_line::count_digits;
use cpt_sheet::Cand;
use cpt_task::{Memory, Span};
use std::alloc::Global;

/// What stands before and behind the first such byte.
pub fn cut(byte: u8, bytes: &[u8]) -> Option<(&[u8], &[u8])>
    ensures exact { MatchOption result (cut byte bytes.now ≡ None) (λ p. cut byte bytes.now ≡ Some (p.0.now, p.1.now)) }
    ensures before { IfSome result (λ p. length p.0.now < length bytes.now) }
    ensures shorter { IfSome result (λ p. length p.1.now < length bytes.now) }
{
    for (i, b) in bytes.iter().enumerate() {
        if *b == byte {
            return Some((&bytes[..i], &bytes[i + 1..]));
        }
    }
    None
}

/// The words of a line: what stands between its spaces.
pub fn words_of(alloc: Global, bytes: &[u8]) -> Result<Vec<&[u8]>, Memory>
    ensures { IfOk result (λ words. map (λ w. w.now) words.items ≡ words_in bytes.now) }
{
    let mut words = Vec::new(alloc);
    let mut rest = bytes;
    while let Some((word, after)) = cut(b' ', rest) {
        words.push(word)?;
        rest = after;
    }
    words.push(rest)?;
    Ok(words)
}

/// Whether the word is this one.
pub fn is_word(word: &[u8], text: &[u8]) -> bool
    ensures { result ≡ bytes_eq word.now text.now }
{
    word == text
}

fn all_digits(word: &[u8]) -> bool
    ensures { result ≡ all_ascii_digits word.now }
{
    for b in word {
        if !b.is_ascii_digit() {
            return false;
        }
    }
    true
}

fn is_numeral(word: &[u8]) -> bool
    ensures { result ≡ is_numeral word.now }
{
    if word.is_empty() || word.len() > 16 {
        return false;
    }
    if word.len() != 1 && word[0] == b'0' {
        return false;
    }
    all_digits(word)
}

fn value_of(digits: &[u8]) -> u64
    requires decimal { all_ascii_digits digits.now ≡ true }
    requires short { length digits.now < 17 }
    ensures { result ≡ digits_value 10 digits.now }
{
    let mut value = 0u64;
    for b in digits {
        value = value * 10 + u64::from(*b - b'0');
    }
    value
}

/// A number without a leading zero, of at most 16 digits.
#[tactic(auto, unfolding(crate::specs::Reading::number_in))]
pub fn number(word: &[u8]) -> Option<u64>
    ensures exact { result ≡ number_in word.now }
{
    if is_numeral(word) {
        Some(value_of(word))
    } else {
        None
    }
}

/// A number that is at most the given one.
#[tactic(auto, unfolding(crate::specs::Reading::number_to))]
pub fn number_to(most: u64, word: &[u8]) -> Option<u64>
    ensures exact { result ≡ number_to most word.now }
    ensures within { IfSome result (λ n. n ≤ most) }
{
    let n = number(word)?;
    if most < n {
        return None;
    }
    Some(n)
}

/// The number of a token, an atom or an action. One above 4,294,967,295 is given as that.
#[tactic(auto, unfolding(crate::specs::Reading::id_in))]
pub fn id(word: &[u8]) -> Option<u32>
    ensures { result ≡ id_in word.now }
{
    let n = number(word)?;
    Some(n.min(4_294_967_295) as u32)
}

/// The moment that the word says: a number, or `never`.
#[tactic(auto, unfolding(crate::specs::Reading::span_in))]
pub fn span(word: &[u8]) -> Option<Span>
    ensures { result ≡ span_in word.now }
{
    if is_word(word, b"never") {
        return Some(Span::Never);
    }
    let n = number(word)?;
    Some(Span::At(n))
}

/// A candidate: `t` and the number of a token, or `o` and that of an action.
#[tactic(auto, unfolding(crate::specs::Reading::cand_in))]
pub fn cand(word: &[u8]) -> Option<Cand>
    ensures { result ≡ cand_in word.now }
{
    let [kind, digits @ ..] = word else {
        return None;
    };
    if *kind == b't' {
        let n = id(digits)?;
        return Some(Cand::Tok(n));
    }
    if *kind == b'o' {
        let n = id(digits)?;
        return Some(Cand::Out(n));
    }
    None
}

/// Whether the word is `after`, and not `ahead`.
#[tactic(auto, unfolding(crate::specs::Reading::is_after_in))]
pub fn is_after(word: &[u8]) -> Option<bool>
    ensures { result ≡ is_after_in word.now }
{
    if is_word(word, b"after") {
        return Some(true);
    }
    if is_word(word, b"ahead") {
        return Some(false);
    }
    None
}

/// The number of an action behind `o`.
#[tactic(auto, unfolding(crate::specs::Reading::out_in))]
pub fn out(word: &[u8]) -> Option<u32>
    ensures { result ≡ out_in word.now }
{
    let [kind, digits @ ..] = word else {
        return None;
    };
    if *kind == b'o' {
        return id(digits);
    }
    None
}
