//! A line by its bytes.

ghost use Rattle.std.specs.Prelude.{◌≡◌, Ok, map, option_map, unwrap_or, length, IfOk};
ghost use Rattle.cpt_cert_form.specs.declared.forms.CertLine.TheVariants.{Strange};
ghost use Rattle.cpt_cert_form.specs.Forms.{IsReadAs};
ghost use Rattle.cpt_cert_read.specs.Reading.{words_in, two_numbers_in, alone_number_in, alone_limited_in, version_in, spent_in, claim_in, numbered_in, worded_in, named_in, line_in};

use crate::nodes::node;
use crate::rows::row;
use crate::steps::{only_word, step, two_words};
use crate::words::{id, is_word, number, number_to, words_of};
use cpt_cert_form::{CertLine, Claim, Version};
use cpt_sheet::NodeLine;
use cpt_task::Memory;
use std::alloc::Global;

#[tactic(auto, unfolding(crate::specs::Reading::alone_number_in))]
fn alone_number(words: &[&[u8]]) -> Option<u64>
    ensures { result ≡ alone_number_in (map (λ w. w.now) words.now) }
{
    let word = only_word(words)?;
    number(word)
}

#[tactic(auto, unfolding(crate::specs::Reading::alone_limited_in))]
fn alone_limited(most: u64, words: &[&[u8]]) -> Option<u64>
    ensures { result ≡ alone_limited_in most (map (λ w. w.now) words.now) }
{
    let word = only_word(words)?;
    number_to(most, word)
}

#[tactic(auto, unfolding(crate::specs::Reading::two_numbers_in))]
fn two_numbers(words: &[&[u8]]) -> Option<(u64, u64)>
    ensures { result ≡ two_numbers_in (map (λ w. w.now) words.now) }
{
    let (first, second) = two_words(words)?;
    let one = number(first)?;
    let two = number(second)?;
    Some((one, two))
}

#[tactic(auto, unfolding(crate::specs::Reading::version_in))]
fn version(words: &[&[u8]]) -> Option<Version>
    ensures { result ≡ version_in (map (λ w. w.now) words.now) }
{
    let word = only_word(words)?;
    if is_word(word, b"1") {
        return Some(Version::One);
    }
    if is_word(word, b"2") {
        return Some(Version::Two);
    }
    None
}

#[tactic(auto, unfolding(crate::specs::Reading::spent_in))]
fn spent(words: &[&[u8]]) -> Option<Claim>
    ensures { result ≡ spent_in (map (λ w. w.now) words.now) }
{
    let (first, second) = two_words(words)?;
    let refuted = number_to(999_999, first)?;
    let nodes = number_to(4_294_967_295, second)?;
    if nodes == 0 {
        return None;
    }
    Some(Claim::Spent { refuted, nodes })
}

#[tactic(auto, unfolding(crate::specs::Reading::claim_in))]
fn claim(words: &[&[u8]]) -> Option<Claim>
    ensures { result ≡ claim_in (map (λ w. w.now) words.now) }
{
    let [kind, rest @ ..] = words else {
        return None;
    };
    if is_word(kind, b"optimal") {
        return alone_limited(1_000_000, rest).map(Claim::Optimal);
    }
    if is_word(kind, b"none-up-to") {
        return alone_limited(1_000_000, rest).map(Claim::NoneUpTo);
    }
    if is_word(kind, b"none") {
        return rest.is_empty().then_some(Claim::Never);
    }
    if is_word(kind, b"spent") {
        return spent(rest);
    }
    None
}

/// A line that begins with a number: an occurrence or a step.
#[tactic(auto, unfolding(crate::specs::Reading::numbered_in))]
fn numbered(first: u64, words: &[&[u8]]) -> Option<CertLine>
    ensures { result ≡ numbered_in first (map (λ w. w.now) words.now) }
{
    match words {
        [] => None,
        [word] => number(word).map(|act| CertLine::Item { start: first, act }),
        [one, two, rest @ ..] => {
            let tok = id(one)?;
            let pre = id(two)?;
            step(first, tok, pre, rest).map(|step| CertLine::Node(NodeLine::Narrow(step)))
        }
    }
}

/// A line that begins with a word, and is no row of a table.
#[tactic(auto, unfolding(crate::specs::Reading::worded_in))]
fn worded(head: &[u8], rest: &[&[u8]]) -> Option<CertLine>
    ensures { result ≡ worded_in head.now (map (λ w. w.now) rest.now) }
{
    if is_word(head, b"cpt") {
        return version(rest).map(CertLine::First);
    }
    if is_word(head, b"claim") {
        return claim(rest).map(CertLine::Claimed);
    }
    if is_word(head, b"task") {
        let (atoms, actions) = two_numbers(rest)?;
        return Some(CertLine::Sizes { atoms, actions });
    }
    if is_word(head, b"plan") {
        return alone_limited(4_294_967_295, rest).map(CertLine::Plan);
    }
    if is_word(head, b"pairs") {
        return rest.is_empty().then_some(CertLine::Pairs);
    }
    if is_word(head, b"dists") {
        return rest.is_empty().then_some(CertLine::Dists);
    }
    if is_word(head, b"tree") {
        return alone_number(rest).map(CertLine::Tree);
    }
    if is_word(head, b"open-tree") {
        return alone_number(rest).map(CertLine::OpenTree);
    }
    if is_word(head, b"end") {
        return rest.is_empty().then_some(CertLine::End);
    }
    node(head, rest).map(CertLine::Node)
}

#[tactic(auto, unfolding(crate::specs::Reading::named_in))]
fn named(alloc: Global, head: &[u8], rest: &[&[u8]]) -> Result<Option<CertLine>, Memory>
    ensures { IfOk result (λ o. o ≡ named_in head.now (map (λ w. w.now) rest.now)) }
{
    if is_word(head, b"h") {
        let runs = row(alloc, rest)?;
        return Ok(runs.map(CertLine::PairRow));
    }
    if is_word(head, b"d") {
        let runs = row(alloc, rest)?;
        return Ok(runs.map(CertLine::DistRow));
    }
    Ok(worded(head, rest))
}

#[tactic(auto, unfolding(crate::specs::Reading::line_in))]
fn line_of(alloc: Global, words: &[&[u8]]) -> Result<Option<CertLine>, Memory>
    ensures { IfOk result (λ o. o ≡ line_in (map (λ w. w.now) words.now)) }
{
    let [head, rest @ ..] = words else {
        return Ok(None);
    };
    match number(head) {
        Some(first) => Ok(numbered(first, rest)),
        None => named(alloc, head, rest),
    }
}

/// What the bytes of a line, without its line feed, are read as.
pub fn read_line(alloc: Global, bytes: &[u8]) -> Result<CertLine, Memory>
    ensures { IfOk result (λ line. IsReadAs bytes.now line) }
{
    if bytes.len() > 65_536 {
        return Ok(CertLine::Strange);
    }
    let words = words_of(alloc, bytes)?;
    let line = line_of(alloc, &words)?;
    Ok(line.unwrap_or(CertLine::Strange))
}
