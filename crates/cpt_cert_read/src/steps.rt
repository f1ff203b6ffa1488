//! The lines of steps.

ghost use Rattle.std.specs.Prelude.{◌≡◌, map, option_map};
ghost use Rattle.cpt_cert_read.specs.Reading.{only_in, two_in, three_in, alone_span_in, alone_cand_in, alone_out_in, cand_id_in, id_side_in, side_span_in, id_side_span_in, step_in, r9, r11, r12};

use crate::words::{cand, id, is_after, out, span};
use cpt_sheet::{Cand, Step};
use cpt_task::Span;

/// The word, where there is only one.
pub fn only_word<'a>(words: &[&'a [u8]]) -> Option<&'a [u8]>
    ensures { option_map (λ w. w.now) result ≡ only_in (map (λ w. w.now) words.now) }
{
    let [one] = words else {
        return None;
    };
    Some(*one)
}

/// The words, where there are two.
pub fn two_words<'a>(words: &[&'a [u8]]) -> Option<(&'a [u8], &'a [u8])>
    ensures { option_map (λ w. (w.0.now, w.1.now)) result ≡ two_in (map (λ w. w.now) words.now) }
{
    let [one, two] = words else {
        return None;
    };
    Some((*one, *two))
}

/// The words, where there are three.
pub fn three_words<'a>(words: &[&'a [u8]]) -> Option<(&'a [u8], &'a [u8], &'a [u8])>
    ensures { option_map (λ w. (w.0.now, w.1.now, w.2.now)) result ≡ three_in (map (λ w. w.now) words.now) }
{
    let [one, two, three] = words else {
        return None;
    };
    Some((*one, *two, *three))
}

#[tactic(auto, unfolding(crate::specs::Reading::alone_span_in))]
fn alone_span(words: &[&[u8]]) -> Option<Span>
    ensures { result ≡ alone_span_in (map (λ w. w.now) words.now) }
{
    let word = only_word(words)?;
    span(word)
}

#[tactic(auto, unfolding(crate::specs::Reading::alone_cand_in))]
fn alone_cand(words: &[&[u8]]) -> Option<Cand>
    ensures { result ≡ alone_cand_in (map (λ w. w.now) words.now) }
{
    let word = only_word(words)?;
    cand(word)
}

#[tactic(auto, unfolding(crate::specs::Reading::alone_out_in))]
fn alone_out(words: &[&[u8]]) -> Option<u32>
    ensures { result ≡ alone_out_in (map (λ w. w.now) words.now) }
{
    let word = only_word(words)?;
    out(word)
}

#[tactic(auto, unfolding(crate::specs::Reading::cand_id_in))]
fn cand_and_id(words: &[&[u8]]) -> Option<(Cand, u32)>
    ensures { result ≡ cand_id_in (map (λ w. w.now) words.now) }
{
    let (first, second) = two_words(words)?;
    let by = cand(first)?;
    let number = id(second)?;
    Some((by, number))
}

#[tactic(auto, unfolding(crate::specs::Reading::id_side_in))]
fn id_and_side(words: &[&[u8]]) -> Option<(u32, bool)>
    ensures { result ≡ id_side_in (map (λ w. w.now) words.now) }
{
    let (first, second) = two_words(words)?;
    let number = id(first)?;
    let after = is_after(second)?;
    Some((number, after))
}

#[tactic(auto, unfolding(crate::specs::Reading::side_span_in))]
fn side_and_span(words: &[&[u8]]) -> Option<(bool, Span)>
    ensures { result ≡ side_span_in (map (λ w. w.now) words.now) }
{
    let (first, second) = two_words(words)?;
    let after = is_after(first)?;
    let to = span(second)?;
    Some((after, to))
}

#[tactic(auto, unfolding(crate::specs::Reading::id_side_span_in))]
fn id_side_and_span(words: &[&[u8]]) -> Option<(u32, bool, Span)>
    ensures { result ≡ id_side_span_in (map (λ w. w.now) words.now) }
{
    let (first, second, third) = three_words(words)?;
    let number = id(first)?;
    let after = is_after(second)?;
    let to = span(third)?;
    Some((number, after, to))
}

/// A step by the number of its rule, its first two numbers and the words behind them.
#[tactic(auto, unfolding(crate::specs::Reading::step_in))]
pub fn step(rule: u64, tok: u32, pre: u32, rest: &[&[u8]]) -> Option<Step>
    ensures { result ≡ step_in rule tok pre (map (λ w. w.now) rest.now) }
{
    match rule {
        1 => alone_span(rest).map(|to| Step::R1 {
            first: tok,
            second: pre,
            to,
        }),
        2 => alone_span(rest).map(|to| Step::R2 {
            first: tok,
            second: pre,
            to,
        }),
        3 => rest.is_empty().then_some(Step::R3 {
            first: tok,
            second: pre,
        }),
        4 => alone_span(rest).map(|to| Step::R4 { tok, pre, to }),
        5 => alone_cand(rest).map(|cand| Step::R5 { tok, pre, cand }),
        6 => rest.is_empty().then_some(Step::R6 { tok, pre }),
        7 => alone_out(rest).map(|act| Step::R7 { tok, pre, act }),
        8 => cand_and_id(rest).map(|two| Step::R8 {
            tok,
            pre,
            cand: two.0,
            foe: two.1,
        }),
        9 => id_and_side(rest).map(|two| ninth(tok, pre, two)),
        10 => alone_span(rest).map(|to| Step::R10 { act: tok, pre, to }),
        11 => id_side_and_span(rest).map(|three| eleventh(tok, pre, three)),
        12 => side_and_span(rest).map(|two| twelfth(tok, pre, two)),
        13 => cand_and_id(rest).map(|two| Step::R13 {
            tok,
            pre,
            cand: two.0,
            other: two.1,
        }),
        _ => None,
    }
}

fn ninth(tok: u32, pre: u32, side: (u32, bool)) -> Step
    ensures { result ≡ r9 tok pre side }
{
    let (foe, after) = side;
    if after {
        Step::R9After { tok, pre, foe }
    } else {
        Step::R9Ahead { tok, pre, foe }
    }
}

fn eleventh(tok: u32, pre: u32, side: (u32, bool, Span)) -> Step
    ensures { result ≡ r11 tok pre side }
{
    let (act, after, to) = side;
    if after {
        Step::R11After { tok, pre, act, to }
    } else {
        Step::R11Ahead { tok, pre, act, to }
    }
}

fn twelfth(tok: u32, act: u32, side: (bool, Span)) -> Step
    ensures { result ≡ r12 tok act side }
{
    let (after, to) = side;
    if after {
        Step::R12After { tok, act, to }
    } else {
        Step::R12Ahead { tok, act, to }
    }
}
