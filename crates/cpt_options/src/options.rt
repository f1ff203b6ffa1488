//! The options behind the names of files.

ghost use Rattle.std.specs.Prelude.{◌≡◌, ◌<◌, true, length, map, string_bytes};
ghost use Rattle.std.specs.Str.{all_ascii_digits, bytes_eq};
ghost use Rattle.std.specs.Str.Parse.{digits_value};
ghost use Rattle.cpt_cert_read.specs.Reading.{is_numeral, number_in};
ghost use Rattle.cpt_options.specs.Options.{budget_of, number_within, once, options_behind, version_of, with_max, with_nodes, with_option, with_version};

use cpt_cert_form::Version;

/// The options that are given, each at most once.
#[derive(Clone, Copy)]
pub struct Options {
    pub max: Option<u64>,
    pub nodes: Option<u64>,
    pub version: Option<Version>,
}

/// How far a search goes: up to this makespan, with at most so many nodes for each bound.
#[derive(Clone, Copy)]
pub struct Budget {
    pub max: u64,
    pub nodes: u64,
}

/// Whether the word is this one.
pub fn is_word(word: &str, wanted: &str) -> bool
    ensures { result ≡ bytes_eq word.now wanted.now }
{
    word == wanted
}

fn all_digits(word: &[u8]) -> bool
    ensures { result ≡ all_ascii_digits word.now }
{
    for b in word {
        if !b.is_ascii_digit() {
            return false;
        }
    }
    true
}

/// Whether the word is a number of at most 16 digits without a leading zero.
fn is_numeral(word: &[u8]) -> bool
    ensures { result ≡ is_numeral word.now }
{
    if word.is_empty() || word.len() > 16 {
        return false;
    }
    if word.len() != 1 && word[0] == b'0' {
        return false;
    }
    all_digits(word)
}

fn value_of(digits: &[u8]) -> u64
    requires decimal { all_ascii_digits digits.now ≡ true }
    requires short { length digits.now < 17 }
    ensures { result ≡ digits_value 10 digits.now }
{
    let mut value = 0u64;
    for b in digits {
        value = value * 10 + u64::from(*b - b'0');
    }
    value
}

/// The number that the word writes, without a leading zero and of at most 16 digits.
#[tactic(auto, unfolding(cpt_cert_read::specs::Reading::number_in))]
fn number(word: &[u8]) -> Option<u64>
    ensures { result ≡ number_in word.now }
{
    if is_numeral(word) {
        Some(value_of(word))
    } else {
        None
    }
}

/// The number that the word writes, where it lies between these two.
pub fn number_within(least: u64, most: u64, word: &str) -> Option<u64>
    ensures { result ≡ number_within least most word.now }
{
    let number = number(word.as_bytes())?;
    if number < least || most < number {
        return None;
    }
    Some(number)
}

/// The version of this number.
fn version_of(word: &str) -> Option<Version>
    ensures { result ≡ version_of word.now }
{
    if is_word(word, "1") {
        Some(Version::One)
    } else if is_word(word, "2") {
        Some(Version::Two)
    } else {
        None
    }
}

/// These options with a greatest makespan, where none is given yet.
fn with_max(given: Options, max: u64) -> Option<Options>
    ensures { result ≡ once given.max (with_max given max) }
{
    match given.max {
        None => Some(Options {
            max: Some(max),
            ..given
        }),
        Some(_) => None,
    }
}

/// These options with a number of nodes, where none is given yet.
fn with_nodes(given: Options, nodes: u64) -> Option<Options>
    ensures { result ≡ once given.nodes (with_nodes given nodes) }
{
    match given.nodes {
        None => Some(Options {
            nodes: Some(nodes),
            ..given
        }),
        Some(_) => None,
    }
}

/// These options with a version, where none is given yet.
fn with_version(given: Options, version: Version) -> Option<Options>
    ensures { result ≡ once given.version (with_version given version) }
{
    match given.version {
        None => Some(Options {
            version: Some(version),
            ..given
        }),
        Some(_) => None,
    }
}

/// These options and the one of these two words.
#[tactic(auto, unfolding(crate::specs::Options::with_option))]
fn with_option(given: Options, word: &str, value: &str) -> Option<Options>
    ensures { result ≡ with_option given word.now value.now }
{
    if is_word(word, "--max") {
        with_max(given, number_within(0, 1_000_000, value)?)
    } else if is_word(word, "--nodes") {
        with_nodes(given, number_within(1, 4_000_000_000, value)?)
    } else if is_word(word, "--cert") {
        with_version(given, version_of(value)?)
    } else {
        None
    }
}

/// These options and those that the words give, two words for each.
pub fn options_behind(given: Options, words: &[String]) -> Option<Options>
    ensures { result ≡ options_behind given (map string_bytes words.now) }
{
    match words {
        [] => Some(given),
        [_] => None,
        [word, value, more @ ..] => {
            let given = with_option(given, word.as_str(), value.as_str())?;
            options_behind(given, more)
        }
    }
}

/// How far a search goes by these options.
pub fn budget_of(given: Options) -> Budget
    ensures { result ≡ budget_of given }
{
    Budget {
        max: given.max.unwrap_or(1_000),
        nodes: given.nodes.unwrap_or(1_000_000),
    }
}
