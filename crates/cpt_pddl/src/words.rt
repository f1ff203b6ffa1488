//! The kinds of words.

ghost use Rattle.std.specs.Prelude.{◌≡◌, ◌==◌};
ghost use Rattle.std.specs.List.{list_all};
ghost use Rattle.std.specs.Str.{bytes_eq};
ghost use Rattle.cpt_line.specs.Names.{word_byte};
ghost use Rattle.cpt_pddl.specs.Words.{head_of, is_fraction, is_name, is_numeric, is_variable, number_in};

use crate::fault::Feature;
use cpt_line::{capped_number, count_digits, is_word_byte};

/// What a word says where it begins a condition, an effect or a goal.
#[derive(Clone, Copy)]
pub enum Head {
    /// `and`.
    And,
    /// `not`.
    Not,
    /// `=`.
    Equal,
    /// `at`.
    At,
    /// `over`.
    Over,
    /// A form that is not taken.
    Untaken(Feature),
    /// A comparison or a change of numbers, which is not taken either.
    Numeric,
    /// Any other word.
    Other,
}

/// Whether the bytes are this word.
pub fn is_word(bytes: &[u8], word: &str) -> bool
    ensures { result ≡ bytes_eq bytes.now word.now }
{
    bytes == word.as_bytes()
}

fn all_of_words(bytes: &[u8]) -> bool
    ensures { result ≡ list_all word_byte bytes.now }
{
    bytes.iter().all(|b| is_word_byte(*b))
}

/// Whether the word is a name: it begins with a letter, and the rest are bytes of words.
pub fn is_name(bytes: &[u8]) -> bool
    ensures { result ≡ is_name bytes.now }
{
    match bytes {
        [] => false,
        [b, rest @ ..] => *b >= b'a' && *b <= b'z' && all_of_words(rest),
    }
}

/// Whether the word is a variable: a question mark and at least one more byte.
pub fn is_variable(bytes: &[u8]) -> bool
    ensures { result ≡ is_variable bytes.now }
{
    match bytes {
        [] => false,
        [_] => false,
        [b, _, ..] => *b == b'?',
    }
}

fn all_zeros(bytes: &[u8]) -> bool
    ensures { result ≡ list_all (λ c. c == 48) bytes.now }
{
    bytes.iter().all(|b| *b == b'0')
}

fn is_fraction(bytes: &[u8]) -> bool
    ensures { result ≡ is_fraction bytes.now }
{
    match bytes {
        [] => true,
        [b, rest @ ..] => *b == b'.' && !rest.is_empty() && all_zeros(rest),
    }
}

/// The number that the word stands for: digits, and perhaps a point and zeros. One above 4,294,967,295 counts as
/// 4,294,967,296.
#[tactic(auto, unfolding(crate::specs::Words::number_in))]
pub fn number_in(bytes: &[u8]) -> Option<u64>
    ensures { result ≡ number_in bytes.now }
{
    let count = count_digits(bytes);
    if count == 0 {
        return None;
    }
    if is_fraction(&bytes[count..]) {
        Some(capped_number(&bytes[..count], 4_294_967_296))
    } else {
        None
    }
}

/// Whether the word compares or changes numbers.
#[tactic(auto, unfolding(crate::specs::Words::is_numeric))]
fn is_numeric(word: &[u8]) -> bool
    ensures { result ≡ is_numeric word.now }
{
    is_word(word, "<")
        || is_word(word, "<=")
        || is_word(word, ">")
        || is_word(word, ">=")
        || is_word(word, "increase")
        || is_word(word, "decrease")
        || is_word(word, "assign")
        || is_word(word, "scale-up")
        || is_word(word, "scale-down")
}

/// What the word says where it begins a condition, an effect or a goal.
#[tactic(auto, unfolding(crate::specs::Words::head_of))]
pub fn head_of(word: &[u8]) -> Head
    ensures { result ≡ head_of word.now }
{
    if is_word(word, "and") {
        Head::And
    } else if is_word(word, "not") {
        Head::Not
    } else if is_word(word, "=") {
        Head::Equal
    } else if is_word(word, "at") {
        Head::At
    } else if is_word(word, "over") {
        Head::Over
    } else if is_word(word, "or") || is_word(word, "imply") {
        Head::Untaken(Feature::Disjunction)
    } else if is_word(word, "when") {
        Head::Untaken(Feature::Conditional)
    } else if is_word(word, "forall") || is_word(word, "exists") {
        Head::Untaken(Feature::Quantifier)
    } else if is_word(word, "preference") {
        Head::Untaken(Feature::Preference)
    } else if is_numeric(word) {
        Head::Numeric
    } else {
        Head::Other
    }
}
