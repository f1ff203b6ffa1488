//! How long an action lasts.

ghost use Rattle.std.specs.Prelude.{◌≡◌, MatchOption, None, Some};
ghost use Rattle.cpt_pddl.specs.Faults.{Gives};
ghost use Rattle.cpt_pddl.specs.Items.{left};
ghost use Rattle.cpt_schema.specs.Durations.{after_this, duration_after, duration_by, duration_in, duration_next, duration_value, fixed, fixed_by, function_term, is_asked, is_sign, is_sum, valued};

use crate::terms::{Lit, Term, applied};
use cpt_declared::Declared;
use cpt_pddl::{
    Cursor, Fault, Feature, Next, Typed, group_at, is_name, is_word, nothing, number_in,
};
use cpt_task::List;
use std::alloc::Global;

/// How long an action lasts: a number from 1 to 100,000, or the value of a function for terms.
#[derive(Debug, Drop)]
pub enum Lasting {
    Fixed(u32),
    Value { func: u32, terms: List<Term> },
}

fn fixed_by(at: u32, number: Option<u64>) -> Result<Lasting, Fault>
    ensures { Gives (λ lasting. lasting) result (fixed_by at number) }
{
    match number {
        None => Err(Fault::Duration(at)),
        Some(n) => {
            if n >= 1 && n <= 100_000 {
                Ok(Lasting::Fixed(n as u32))
            } else {
                Err(Fault::Duration(at))
            }
        }
    }
}

#[tactic(auto, unfolding(crate::specs::Durations::fixed))]
fn fixed(at: u32, bytes: &[u8], rest: Cursor<'_>) -> Result<Lasting, Fault>
    ensures { Gives (λ lasting. lasting) result (fixed at bytes.now (left rest.entry)) }
{
    let lasting = fixed_by(at, number_in(bytes))?;
    nothing(rest)?;
    Ok(lasting)
}

fn function_term(
    alloc: Global,
    declared: &Declared,
    params: &Typed,
    atom: u32,
    inside: Cursor<'_>,
) -> Result<Lit, Fault>
    ensures { Gives (λ term. term) result (function_term declared.now params.now atom (left inside.entry)) }
{
    match inside.next() {
        Next::End(close) => Err(Fault::Shape(close)),
        Next::Word(at, bytes, rest) => {
            if is_name(bytes) {
                applied(
                    alloc,
                    declared,
                    params,
                    &declared.functions,
                    atom,
                    at,
                    bytes,
                    rest,
                )
            } else {
                Err(Fault::Shape(at))
            }
        }
        Next::Group(at, _, _) => Err(Fault::Shape(at)),
    }
}

#[tactic(auto, unfolding(crate::specs::Durations::valued))]
fn valued(
    alloc: Global,
    declared: &Declared,
    params: &Typed,
    atom: u32,
    inside: Cursor<'_>,
    rest: Cursor<'_>,
) -> Result<Lasting, Fault>
    ensures { Gives (λ lasting. lasting) result (valued declared.now params.now atom (left inside.entry) (left rest.entry)) }
{
    let Lit { pred, terms } = function_term(alloc, declared, params, atom, inside)?;
    nothing(rest)?;
    Ok(Lasting::Value { func: pred, terms })
}

fn is_sign(bytes: &[u8]) -> bool
    ensures { result ≡ is_sign bytes.now }
{
    is_word(bytes, "+") || is_word(bytes, "-") || is_word(bytes, "*") || is_word(bytes, "/")
}

fn is_sum(inside: Cursor<'_>) -> bool
    ensures { result ≡ is_sum (left inside.entry) }
{
    match inside.next() {
        Next::End(_) => false,
        Next::Word(_, bytes, _) => is_sign(bytes),
        Next::Group(_, _, _) => false,
    }
}

fn is_asked(bytes: &[u8]) -> bool
    ensures { result ≡ is_asked bytes.now }
{
    match bytes {
        [] => false,
        [b, ..] => *b == b'?',
    }
}

fn duration_value(
    alloc: Global,
    declared: &Declared,
    params: &Typed,
    from: u32,
    place: Cursor<'_>,
) -> Result<Lasting, Fault>
    ensures { Gives (λ lasting. lasting) result (duration_value declared.now params.now from (left place.entry)) }
{
    match place.next() {
        Next::End(close) => Err(Fault::Shape(close)),
        Next::Word(at, bytes, rest) => {
            if is_asked(bytes) {
                Err(Fault::Feature(Feature::Duration, from))
            } else {
                fixed(at, bytes, rest)
            }
        }
        Next::Group(at, inside, rest) => {
            if is_sum(inside) {
                Err(Fault::Feature(Feature::Duration, from))
            } else {
                valued(alloc, declared, params, at, inside, rest)
            }
        }
    }
}

fn after_this<'a>(wanted: &str, place: Cursor<'a>) -> Option<Cursor<'a>>
    ensures { MatchOption result (after_this wanted.now (left place.entry) ≡ None) (λ rest. after_this wanted.now (left place.entry) ≡ Some (left rest)) }
{
    match place.next() {
        Next::End(_) => None,
        Next::Word(_, bytes, rest) => {
            if is_word(bytes, wanted) {
                Some(rest)
            } else {
                None
            }
        }
        Next::Group(_, _, _) => None,
    }
}

#[tactic(auto, unfolding(crate::specs::Durations::duration_in))]
fn duration_in(
    alloc: Global,
    declared: &Declared,
    params: &Typed,
    from: u32,
    inside: Cursor<'_>,
) -> Result<Lasting, Fault>
    ensures { Gives (λ lasting. lasting) result (duration_in declared.now params.now from (left inside.entry)) }
{
    let Some(rest) = after_this("=", inside) else {
        return Err(Fault::Feature(Feature::Duration, from));
    };
    let Some(value) = after_this("?duration", rest) else {
        return Err(Fault::Feature(Feature::Duration, from));
    };
    duration_value(alloc, declared, params, from, value)
}

/// The duration in the group that has to stand here, and what follows it.
#[tactic(auto, unfolding(crate::specs::Durations::duration_next))]
pub fn duration_next<'a>(
    alloc: Global,
    declared: &Declared,
    params: &Typed,
    place: Cursor<'a>,
) -> Result<(Lasting, Cursor<'a>), Fault>
    ensures { Gives (λ found. (found.0, left found.1)) result (duration_next declared.now params.now (left place.entry)) }
{
    let (from, inside, rest) = group_at(place)?;
    let lasting = duration_in(alloc, declared, params, from, inside)?;
    Ok((lasting, rest))
}
