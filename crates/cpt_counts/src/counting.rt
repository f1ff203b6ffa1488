//! Lines counted.

ghost use Rattle.std.specs.Prelude.{◌≡◌, ◌≤◌, length, map, All};
ghost use Rattle.cpt_line.specs.Lines.{split};
ghost use Rattle.cpt_counts.specs.Counting.{AreCounts, AreFew, behind_head, count_begun, count_same, heads_tree, rule_fronts};

use crate::kinds::Counts;
use cpt_line::first_line;

fn heads_tree(line: &[u8]) -> bool
    ensures { result ≡ heads_tree line.now }
{
    line.starts_with(b"tree ") || line.starts_with(b"open-tree ")
}

/// What stands behind the first head of a tree; a text without a line where there is none.
#[tactic(auto, using(crate::proofs::FirstLines::behind_first, crate::proofs::FirstLines::behind_other, crate::proofs::FirstLines::behind_none))]
fn behind_head(text: &[u8]) -> &[u8]
    ensures lines { (split result.now).0 ≡ behind_head (split text.now).0 }
    ensures short { length result.now ≤ length text.now }
{
    let mut rest = text;
    while let Some((line, after)) = first_line(rest) {
        if heads_tree(line) {
            return after;
        }
        rest = after;
    }
    rest
}

/// How many lines of the text are the word.
#[tactic(auto, using(crate::proofs::FirstLines::same_first, crate::proofs::FirstLines::same_none))]
fn count_same(text: &[u8], word: &[u8]) -> u64
    ensures value { result ≡ count_same word.now (split text.now).0 }
    ensures few { result ≤ length text.now }
{
    let mut count = 0;
    let mut rest = text;
    while let Some((line, after)) = first_line(rest) {
        let same = line == word;
        count += same as u64;
        rest = after;
    }
    count
}

/// How many lines of the text begin with the bytes.
#[tactic(auto, using(crate::proofs::FirstLines::begun_first, crate::proofs::FirstLines::begun_none))]
fn count_begun(text: &[u8], front: &[u8]) -> u64
    ensures value { result ≡ count_begun front.now (split text.now).0 }
    ensures few { result ≤ length text.now }
{
    let mut count = 0;
    let mut rest = text;
    while let Some((line, after)) = first_line(rest) {
        let begun = line.starts_with(front);
        count += begun as u64;
        rest = after;
    }
    count
}

/// How many lines of the text are steps of each rule.
fn count_rules(text: &[u8]) -> [u64; 13]
    ensures values { result ≡ map (λ front. count_begun front (split text.now).0) rule_fronts }
    ensures few { All (λ n. n ≤ length text.now) result }
{
    [
        count_begun(text, b"1 "),
        count_begun(text, b"2 "),
        count_begun(text, b"3 "),
        count_begun(text, b"4 "),
        count_begun(text, b"5 "),
        count_begun(text, b"6 "),
        count_begun(text, b"7 "),
        count_begun(text, b"8 "),
        count_begun(text, b"9 "),
        count_begun(text, b"10 "),
        count_begun(text, b"11 "),
        count_begun(text, b"12 "),
        count_begun(text, b"13 "),
    ]
}

/// Counts the lines that end behind the first head of a tree, `tree B` or `open-tree B`. It takes no memory.
/// No number is above that of the text's bytes.
pub fn counts(text: &[u8]) -> Counts
    ensures counts { AreCounts text.now result }
    ensures few { AreFew (length text.now) result }
{
    let trees = behind_head(text);
    Counts {
        closed: count_same(trees, b"close"),
        branched: count_begun(trees, b"branch "),
        left: count_same(trees, b"open"),
        rules: count_rules(trees),
    }
}
