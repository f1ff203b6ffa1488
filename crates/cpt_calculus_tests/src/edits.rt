//! Edits that take a formed sheet to a formed sheet, whether a rule allows them or not.

ghost use Rattle.std.specs.Prelude.{◌≡◌, MatchBool, IfSome};
ghost use Rattle.cpt_sheet.specs.Formed.{IsFormed};
ghost use Rattle.cpt_tables.specs.Spans.{IsBelow};
ghost use Rattle.cpt_calculus.specs.Rules.{change_of};
ghost use Rattle.cpt_calculus_tests.specs.Edits.{IsWithin, KeepsFormed};

use cpt_calculus::{Cand, Change, Decision, Sheet, Step, apply, fits, narrow};
use cpt_task::{Span, Task};

/// An edit of a sheet.
#[derive(Clone, Copy, Debug, PartialEq, Eq)]
pub enum Edit {
    /// Another first moment of an interval.
    Lo(Cand, Span),
    /// Another last moment of an interval.
    Hi(Cand, u64),
    /// The list of the token and the atom loses the candidate.
    Take(u32, u32, Cand),
    /// The first token comes before the second.
    Post(u32, u32),
    /// The token and the atom are joined with the other token.
    Join(u32, u32, u32),
    /// A token of the action is brought for the token and the atom.
    Bring(u32, u32, u32),
}

fn is_below(limit: u64, v: Span) -> bool
    ensures { MatchBool result (IsBelow limit v) (Unit {0}) }
{
    match v {
        Span::At(n) => n < limit,
        Span::Never => true,
    }
}

fn is_within(sheet: &Sheet, v: Span) -> bool
    ensures { MatchBool result (IsWithin sheet.now v) (Unit {0}) }
{
    match v {
        Span::At(n) => n <= sheet.bound,
        Span::Never => false,
    }
}

fn keeps_formed(task: &Task, sheet: &Sheet, change: Change) -> bool
    ensures { MatchBool result (KeepsFormed sheet.now change) (Unit {0}) }
{
    match change {
        Change::Raise {
            at: Cand::Tok(_),
            to,
        } => is_below(4_000_000_000_000_000, to),
        Change::Raise {
            at: Cand::Out(_),
            to,
        } => is_below(2_000_000_000_000_000, to),
        Change::Lower { to, .. } => is_within(sheet, to),
        Change::Take { .. } => true,
        Change::Post { first, second } => fits(task, sheet, &Decision::Before { first, second }),
    }
}

/// A step that makes the change.
fn step_of(change: Change) -> Step
    ensures { (s : Sheet) → change_of s result ≡ change }
{
    match change {
        Change::Raise {
            at: Cand::Tok(y),
            to,
        } => Step::R1 {
            first: 0,
            second: y,
            to,
        },
        Change::Raise {
            at: Cand::Out(a),
            to,
        } => Step::R10 { act: a, pre: 0, to },
        Change::Lower {
            at: Cand::Tok(x),
            to,
        } => Step::R2 {
            first: x,
            second: 0,
            to,
        },
        Change::Lower {
            at: Cand::Out(a),
            to,
        } => Step::R12Ahead { tok: 0, act: a, to },
        Change::Take { tok, pre, cand } => Step::R5 { tok, pre, cand },
        Change::Post { first, second } => Step::R3 { first, second },
    }
}

fn change_sheet(task: &Task, sheet: &mut Sheet, change: Change) -> Option<()>
    ensures { IfSome result (λ u. IsFormed task.now sheet.old → IsFormed task.now sheet.new) }
{
    if !keeps_formed(task, sheet, change) {
        return None;
    }
    match narrow(sheet, &step_of(change)) {
        Ok(()) => Some(()),
        Err(_) => None,
    }
}

fn decide(task: &Task, sheet: &mut Sheet, decision: Decision) -> Option<()>
    ensures { IfSome result (λ u. IsFormed task.now sheet.old → IsFormed task.now sheet.new) }
{
    if sheet.tokens.as_slice().len() > 9 || !fits(task, sheet, &decision) {
        return None;
    }
    match apply(task, sheet, &decision) {
        Ok(()) => Some(()),
        Err(_) => None,
    }
}

/// Makes the edit; None where it does not fit or memory is refused.
fn edit_sheet(task: &Task, sheet: &mut Sheet, edit: Edit) -> Option<()>
    ensures { IfSome result (λ u. IsFormed task.now sheet.old → IsFormed task.now sheet.new) }
{
    match edit {
        Edit::Lo(at, to) => change_sheet(task, sheet, Change::Raise { at, to }),
        Edit::Hi(at, to) => change_sheet(
            task,
            sheet,
            Change::Lower {
                at,
                to: Span::At(to),
            },
        ),
        Edit::Take(tok, pre, cand) => change_sheet(task, sheet, Change::Take { tok, pre, cand }),
        Edit::Post(first, second) => change_sheet(task, sheet, Change::Post { first, second }),
        Edit::Join(tok, pre, by) => decide(task, sheet, Decision::Join { tok, pre, by }),
        Edit::Bring(tok, pre, act) => decide(task, sheet, Decision::Bring { tok, pre, act }),
    }
}

/// Makes the edits in turn.
pub fn edit_all(task: &Task, sheet: &mut Sheet, edits: &[Edit]) -> Option<()>
    requires { IsFormed task.now sheet.old }
    ensures { IfSome result (λ u. IsFormed task.now sheet.new) }
{
    for edit in edits {
        edit_sheet(task, sheet, *edit)?;
    }
    Some(())
}
