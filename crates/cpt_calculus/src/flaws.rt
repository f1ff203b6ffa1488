//! The flaws of a sheet, and the children of a flaw.

ghost use Rattle.std.specs.Prelude.{◌≡◌, ◌↔◌, ◌<◌, IsTrue, MatchBool, IfOk, map, [], ◌∷◌};
ghost use Rattle.cpt_sheet.specs.View.{cands};
ghost use Rattle.cpt_calculus.specs.Rules.{IsToken, IsThreatOf, only};
ghost use Rattle.cpt_calculus.specs.Flaws.{IsThreat, IsOpenNeed, IsClash, IsFlaw, children, choice};

use crate::rules::{first_token, one_token, threatened};
use cpt_sheet::{Cand, Decision, Flaw, Sheet, clash, kind, list, stands};
use cpt_task::{Memory, Task};
use std::alloc::Global;

/// Whether `d` deletes what one token supplies `x` with, and stands in order with neither that token nor `x`.
pub fn is_threat(task: &Task, sheet: &Sheet, x: u32, p: u32, d: u32) -> bool
    ensures { MatchBool result (IsThreat task.now sheet.now x p d) (IsThreat task.now sheet.now x p d → ⊥) }
{
    match threatened(task, sheet, x, p, d) {
        Some(y) => !stands(sheet, d, y) && !stands(sheet, x, d),
        None => false,
    }
}

/// Whether the list of `x` for `p` is neither empty nor one token.
pub fn is_open_need(sheet: &Sheet, x: u32, p: u32) -> bool
    ensures { MatchBool result (IsOpenNeed sheet.now x p) (IsOpenNeed sheet.now x p → ⊥) }
{
    let cands = list(sheet, x, p);
    !cands.is_empty() && one_token(cands).is_none()
}

/// Whether `x` and the later `y` are action tokens that interfere, with no order between them.
pub fn is_clash(task: &Task, sheet: &Sheet, x: u32, y: u32) -> bool
    ensures { MatchBool result (IsClash task.now sheet.now x y) (IsClash task.now sheet.now x y → ⊥) }
{
    x < y
        && clash(task, kind(sheet, Cand::Tok(x)), kind(sheet, Cand::Tok(y)))
        && !stands(sheet, x, y)
        && !stands(sheet, y, x)
}

/// Whether the flaw stands in the sheet.
pub fn is_flaw(task: &Task, sheet: &Sheet, flaw: &Flaw) -> bool
    ensures { IsTrue result ↔ IsFlaw task.now sheet.now flaw.now }
{
    match *flaw {
        Flaw::Threat { tok, pre, foe } => is_threat(task, sheet, tok, pre, foe),
        Flaw::OpenNeed { tok, pre } => is_open_need(sheet, tok, pre),
        Flaw::Clash { first, second } => is_clash(task, sheet, first, second),
    }
}

fn choice_of(x: u32, p: u32, c: Cand) -> Decision
    ensures { result ≡ choice x p c }
{
    match c {
        Cand::Tok(y) => Decision::Join {
            tok: x,
            pre: p,
            by: y,
        },
        Cand::Out(a) => Decision::Bring {
            tok: x,
            pre: p,
            act: a,
        },
    }
}

/// The children of a flaw, in order.
pub fn flaw_children(
    alloc: Global,
    task: &Task,
    sheet: &Sheet,
    flaw: &Flaw,
) -> Result<Vec<Decision>, Memory>
    requires { IsFlaw task.now sheet.now flaw.now }
    ensures { IfOk result (λ v. v.items ≡ children sheet.now flaw.now) }
{
    match *flaw {
        Flaw::Threat { tok, pre, foe } => pair_of(
            alloc,
            Decision::Before {
                first: foe,
                second: first_token(list(sheet, tok, pre)),
            },
            Decision::Before {
                first: tok,
                second: foe,
            },
        ),
        Flaw::OpenNeed { tok, pre } => choices(alloc, tok, pre, list(sheet, tok, pre)),
        Flaw::Clash { first, second } => pair_of(
            alloc,
            Decision::Before { first, second },
            Decision::Before {
                first: second,
                second: first,
            },
        ),
    }
}

fn pair_of(alloc: Global, first: Decision, second: Decision) -> Result<Vec<Decision>, Memory>
    ensures { IfOk result (λ v. v.items ≡ first ∷ second ∷ []) }
{
    let mut both = Vec::new(alloc);
    both.push(first)?;
    both.push(second)?;
    Ok(both)
}

fn choices(alloc: Global, x: u32, p: u32, list: &[Cand]) -> Result<Vec<Decision>, Memory>
    ensures { IfOk result (λ v. v.items ≡ map (choice x p) list.now) }
{
    let made = list.iter().map(|c| choice_of(x, p, *c)).collect(alloc)?;
    Ok(made)
}
