//! The lines of trees that begin with a word.

ghost use Rattle.std.specs.Prelude.{◌≡◌, map, option_map};
ghost use Rattle.cpt_cert_read.specs.Reading.{two_ids_in, three_ids_in, decision_in, flaw_in, node_in};

use crate::steps::{three_words, two_words};
use crate::words::{id, is_word};
use cpt_sheet::{Decision, Flaw, NodeLine};

#[tactic(auto, unfolding(crate::specs::Reading::two_ids_in))]
fn two_ids(words: &[&[u8]]) -> Option<(u32, u32)>
    ensures { result ≡ two_ids_in (map (λ w. w.now) words.now) }
{
    let (first, second) = two_words(words)?;
    let one = id(first)?;
    let two = id(second)?;
    Some((one, two))
}

#[tactic(auto, unfolding(crate::specs::Reading::three_ids_in))]
fn three_ids(words: &[&[u8]]) -> Option<(u32, u32, u32)>
    ensures { result ≡ three_ids_in (map (λ w. w.now) words.now) }
{
    let (first, second, third) = three_words(words)?;
    let one = id(first)?;
    let two = id(second)?;
    let three = id(third)?;
    Some((one, two, three))
}

#[tactic(auto, unfolding(crate::specs::Reading::decision_in))]
fn decision(words: &[&[u8]]) -> Option<Decision>
    ensures { result ≡ decision_in (map (λ w. w.now) words.now) }
{
    let [kind, rest @ ..] = words else {
        return None;
    };
    if is_word(kind, b"join") {
        let (tok, pre, by) = three_ids(rest)?;
        return Some(Decision::Join { tok, pre, by });
    }
    if is_word(kind, b"bring") {
        let (tok, pre, act) = three_ids(rest)?;
        return Some(Decision::Bring { tok, pre, act });
    }
    if is_word(kind, b"before") {
        let (first, second) = two_ids(rest)?;
        return Some(Decision::Before { first, second });
    }
    None
}

#[tactic(auto, unfolding(crate::specs::Reading::flaw_in))]
fn flaw(words: &[&[u8]]) -> Option<Flaw>
    ensures { result ≡ flaw_in (map (λ w. w.now) words.now) }
{
    let [kind, rest @ ..] = words else {
        return None;
    };
    if is_word(kind, b"threat") {
        let (tok, pre, foe) = three_ids(rest)?;
        return Some(Flaw::Threat { tok, pre, foe });
    }
    if is_word(kind, b"open") {
        let (tok, pre) = two_ids(rest)?;
        return Some(Flaw::OpenNeed { tok, pre });
    }
    if is_word(kind, b"clash") {
        let (first, second) = two_ids(rest)?;
        return Some(Flaw::Clash { first, second });
    }
    None
}

/// A line of a tree by its first word and those behind it, where the first is no number.
#[tactic(auto, unfolding(crate::specs::Reading::node_in))]
pub fn node(head: &[u8], rest: &[&[u8]]) -> Option<NodeLine>
    ensures { result ≡ node_in head.now (map (λ w. w.now) rest.now) }
{
    if is_word(head, b"child") {
        let decision = decision(rest)?;
        return Some(NodeLine::Child(decision));
    }
    if is_word(head, b"close") {
        return rest.is_empty().then_some(NodeLine::Close);
    }
    if is_word(head, b"branch") {
        let flaw = flaw(rest)?;
        return Some(NodeLine::Branch(flaw));
    }
    if is_word(head, b"open") {
        return rest.is_empty().then_some(NodeLine::OpenNode);
    }
    None
}
