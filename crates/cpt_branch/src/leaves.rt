//! The plan of a leaf.

ghost use Rattle.std.specs.Prelude.{◌≡◌, ◌<◌, ◌≤◌, ◌++◌, length, map, take, drop, IfOk};
ghost use Rattle.std.specs.List.Sorted.{IsPermutation};
ghost use Rattle.cpt_task.specs.Timeline.{IsValid, makespan};
ghost use Rattle.cpt_store.specs.Stores.{IsLent};
ghost use Rattle.cpt_sheet.specs.Edits.{moment_or};
ghost use Rattle.cpt_outcome.specs.Leaves.{act_of, IsPlanOfSheet, IsSolved, token_occurrences};

use cpt_sheet::{Interval, Kind};
use cpt_store::{Ctx, Store};
use cpt_task::{Memory, Occ, Span};
use std::alloc::Global;

/// The occurrence of a token.
fn occurrence(kind: Kind, span: Interval) -> Occ
    ensures act { result.act ≡ act_of kind }
    ensures start { result.start ≡ moment_or span.lo 0 }
{
    let act = match kind {
        Kind::Act(act) => act,
        Kind::Start | Kind::End => 0,
    };
    let start = match span.lo {
        Span::At(moment) => moment,
        Span::Never => 0,
    };
    Occ { act, start }
}

/// The occurrences of the action tokens, in the order of the tokens.
fn occurrences(alloc: Global, store: &Store) -> Result<Vec<Occ>, Memory>
    requires { 2 ≤ length store.now.sheet.tokens }
    ensures { IfOk result (λ v. v.items ≡ token_occurrences store.now.sheet) }
{
    let mut made = Vec::new(alloc);
    for tok in 2..store.tokens() {
        made.push(occurrence(store.kind(tok), store.span(tok)))?;
    }
    Ok(made)
}

/// The plan of a leaf: each action token at its first moment, by start and then by action number. It is valid, and its
/// makespan is at most the bound.
pub fn leaf_plan(alloc: Global, ctx: &Ctx, store: &Store) -> Result<Vec<Occ>, Memory>
    requires lent { IsLent ctx.now.task.now ctx.now.tables.now store.now }
    requires solved { IsSolved ctx.now.task.now ctx.now.tables.now store.now.sheet }
    ensures plan { IfOk result (λ plan. IsPlanOfSheet store.now.sheet plan.items) }
    ensures valid { IfOk result (λ plan. IsValid ctx.now.task.now plan.items) }
    ensures short { IfOk result (λ plan. makespan ctx.now.task.now plan.items ≤ store.now.sheet.bound) }
{
    let _ = ctx;
    let mut plan = occurrences(alloc, store)?;
    plan.sort_by_key(|o| (o.start, o.act))?;
    Ok(plan)
}
