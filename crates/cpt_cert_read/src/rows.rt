//! The rows of tables.

ghost use Rattle.std.specs.Prelude.{◌≡◌, map, option_map, IfOk};
ghost use Rattle.cpt_cert_read.specs.Reading.{row_span, row_span_in, run_by, run_in, runs_in, are_alone, are_runs, row_in};
ghost use Rattle.cpt_cert_form.specs.Text.{same_span};

use crate::words::{cut, number_to, span};
use cpt_cert_form::Run;
use cpt_task::{List, Memory, Span};
use std::alloc::Global;

/// The value, where it has at most 15 digits.
fn short_span(value: Span) -> Option<Span>
    ensures { result ≡ row_span value }
{
    match value {
        Span::At(n) if n >= 1_000_000_000_000_000 => None,
        _ => Some(value),
    }
}

#[tactic(auto, unfolding(crate::specs::Reading::row_span_in))]
fn value_of(word: &[u8]) -> Option<Span>
    ensures { result ≡ row_span_in word.now }
{
    let value = span(word)?;
    short_span(value)
}

/// A value, and behind a star how often it stands there.
#[tactic(auto, unfolding(crate::specs::Reading::run_in, crate::specs::Reading::run_by))]
fn run_of(word: &[u8]) -> Option<Run>
    ensures { result ≡ run_in word.now }
{
    match cut(b'*', word) {
        None => {
            let value = value_of(word)?;
            Some(Run { value, count: 1 })
        }
        Some((front, digits)) => {
            let value = value_of(front)?;
            let count = number_to(2048, digits)?;
            if count < 2 {
                return None;
            }
            Some(Run {
                value,
                count: count as u32,
            })
        }
    }
}

#[tactic(auto, unfolding(crate::specs::Reading::runs_in))]
fn runs_of(alloc: Global, words: &[&[u8]]) -> Result<Option<Vec<Run>>, Memory>
    ensures { IfOk result (λ o. option_map (λ v. v.items) o ≡ runs_in (map (λ w. w.now) words.now)) }
{
    let mut runs = Vec::new(alloc);
    for word in words {
        let Some(run) = run_of(word) else {
            return Ok(None);
        };
        runs.push(run)?;
    }
    Ok(Some(runs))
}

/// Each run is of one value.
pub fn are_alone(runs: &[Run]) -> bool
    ensures { result ≡ are_alone runs.now }
{
    for run in runs {
        if run.count != 1 {
            return false;
        }
    }
    true
}

fn are_one(first: Span, second: Span) -> bool
    ensures { result ≡ same_span first second }
{
    match (first, second) {
        (Span::At(m), Span::At(n)) => m == n,
        (Span::Never, Span::Never) => true,
        _ => false,
    }
}

/// Two neighbours have different values.
pub fn are_runs(runs: &[Run]) -> bool
    ensures { result ≡ are_runs runs.now }
{
    let mut rest = runs;
    while let [first, tail @ ..] = rest {
        if let [second, ..] = tail
            && are_one(first.value, second.value)
        {
            return false;
        }
        rest = tail;
    }
    true
}

/// The row of these words: each value alone, or runs.
#[tactic(auto, unfolding(crate::specs::Reading::row_in))]
pub fn row(alloc: Global, words: &[&[u8]]) -> Result<Option<List<Run>>, Memory>
    ensures { IfOk result (λ o. o ≡ row_in (map (λ w. w.now) words.now)) }
{
    let Some(runs) = runs_of(alloc, words)? else {
        return Ok(None);
    };
    if are_alone(&runs) || are_runs(&runs) {
        return Ok(Some(List::from_vec(runs)));
    }
    Ok(None)
}
