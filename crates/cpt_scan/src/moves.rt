//! Steps and decisions in a store, and proposals, where they may be called for.

ghost use Rattle.std.specs.Prelude.{◌≡◌, ◌<◌, true, length, IfOk, OnOk, IfSome};
ghost use Rattle.cpt_calculus.specs.Decisions.{Fits};
ghost use Rattle.cpt_steps.specs.Landing.{IsThere};
ghost use Rattle.cpt_store.specs.Stores.{CanNarrow, IsLent, KeepsMarks};
ghost use Rattle.cpt_scan.specs.Marked.{IsMarked};

use cpt_sheet::{Cand, Decision, Step};
use cpt_store::{Ctx, Rule, Store};
use cpt_task::{Memory, Steps};
use std::sync::ledger::Ledger;
use std::test::Fail;

/// Whether the subject is there.
fn is_there(ctx: &Ctx, store: &Store, c: Cand) -> bool
    ensures { result ≡ true → IsThere ctx.now.task.now store.now.sheet c }
{
    match c {
        Cand::Tok(x) => x < store.tokens(),
        Cand::Out(a) => (a as usize) < ctx.task.actions().len(),
    }
}

/// The step that the rules have there, where the sheet is live and the subject is there.
pub fn step_at<R: Rule>(ctx: &Ctx, store: &Store, rule: &R, c: Cand) -> Option<Step>
    requires { IsLent ctx.now.task.now ctx.now.tables.now store.now }
    ensures { IfSome result (CanNarrow store.now) }
{
    if store.dead() || !is_there(ctx, store, c) {
        return None;
    }
    rule.propose(ctx, store, c)
}

/// Whether the rules say that the step wakes the subject, where the sheet is live and the subject is there; else true.
pub fn wakes<R: Rule>(ctx: &Ctx, store: &Store, rule: &R, step: &Step, c: Cand) -> bool
    requires { IsLent ctx.now.task.now ctx.now.tables.now store.now }
{
    store.dead() || !is_there(ctx, store, c) || rule.wakes(ctx, store, step, c)
}

/// Makes a step in the store.
pub fn narrow_in<L: Ledger>(ctx: &Ctx, store: &mut Store, step: &Step, ticks: &mut Steps<L>)
    requires lent { IsLent ctx.now.task.now ctx.now.tables.now store.old }
    requires can { CanNarrow store.old step.now }
    ensures lent { IsLent ctx.now.task.now ctx.now.tables.now store.new }
    ensures marks { KeepsMarks store.old.marks store.new.marks }
{
    let _ = ctx;
    store.narrow(step, ticks);
}

/// Makes a decision that fits in the store.
fn apply_to<L: Ledger>(
    ctx: &Ctx,
    store: &mut Store,
    decision: &Decision,
    ticks: &mut Steps<L>,
) -> Result<(), Memory>
    requires lent { IsLent ctx.now.task.now ctx.now.tables.now store.old }
    requires fits { Fits store.old.sheet decision.now }
    requires few { length store.old.sheet.tokens < 4200000000 }
    ensures lent { OnOk result (IsLent ctx.now.task.now ctx.now.tables.now store.new) }
    ensures marks { OnOk result (KeepsMarks store.old.marks store.new.marks) }
{
    store.reserve(ctx, decision)?;
    store.apply(ctx, decision, ticks);
    Ok(())
}

/// Makes a decision that fits, behind a new mark, whose number it gives.
pub fn decide_behind_mark<L: Ledger>(
    ctx: &Ctx,
    store: &mut Store,
    decision: &Decision,
    ticks: &mut Steps<L>,
) -> Result<usize, Memory>
    requires lent { IsLent ctx.now.task.now ctx.now.tables.now store.old }
    requires fits { Fits store.old.sheet decision.now }
    requires few { length store.old.sheet.tokens < 4200000000 }
    ensures lent { OnOk result (IsLent ctx.now.task.now ctx.now.tables.now store.new) }
    ensures number { IfOk result (λ n. n ≡ length store.old.marks) }
    ensures marks { OnOk result (IsMarked store.old.sheet store.old.marks store.new.marks) }
{
    store.reserve(ctx, decision)?;
    let mark = store.mark();
    store.apply(ctx, decision, ticks);
    Ok(mark)
}

/// Makes the decision in the store, where it fits.
pub fn decide_in<L: Ledger>(
    ctx: &Ctx,
    store: &mut Store,
    decision: &Decision,
    ticks: &mut Steps<L>,
) -> Result<(), Fail>
    requires { IsLent ctx.now.task.now ctx.now.tables.now store.old }
    ensures lent { OnOk result (IsLent ctx.now.task.now ctx.now.tables.now store.new) }
    ensures marks { OnOk result (KeepsMarks store.old.marks store.new.marks) }
{
    if !store.fits(ctx, decision) || store.tokens() > 100 {
        return Err("the decision does not fit")?;
    }
    apply_to(ctx, store, decision, ticks)?;
    Ok(())
}
