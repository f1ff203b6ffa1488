//! Sheets of decisions, closed by trying all steps.

ghost use Rattle.std.specs.Prelude.{◌≡◌, ◌<◌, ◌≤◌, length, IfOk, OnOk};
ghost use Rattle.cpt_sheet.specs.Formed.{IsFormed};
ghost use Rattle.cpt_sheet.specs.Gaps.{FitsTask};

use crate::scan::{all_steps, further, landings};
use cpt_calculus::{apply, fits, legal, narrow, root};
use cpt_sheet::{Decision, Sheet, Step};
use cpt_store::Ctx;
use std::alloc::Global;
use std::test::Fail;

/// Makes the step, where it is legal.
pub fn make_if_legal(ctx: &Ctx, sheet: &mut Sheet, step: &Step) -> Result<bool, Fail>
    requires tables { FitsTask ctx.now.task.now ctx.now.tables.now }
    requires formed { IsFormed ctx.now.task.now sheet.old }
    ensures { OnOk result (IsFormed ctx.now.task.now sheet.new) }
{
    if !legal(ctx.task, ctx.tables, sheet, step) {
        return Ok(false);
    }
    narrow(sheet, step)?;
    Ok(true)
}

/// Makes the step, and then the same with the next moments, as far as they are legal.
fn exhaust(ctx: &Ctx, sheet: &mut Sheet, first: Step) -> Result<(), Fail>
    requires tables { FitsTask ctx.now.task.now ctx.now.tables.now }
    requires formed { IsFormed ctx.now.task.now sheet.old }
    ensures { OnOk result (IsFormed ctx.now.task.now sheet.new) }
{
    let mut step = first;
    for _ in 0..10_000u32 {
        if !make_if_legal(ctx, sheet, &step)? {
            return Ok(());
        }
        step = further(step);
    }
    Err("no end")?
}

/// Makes all steps of the sheet that are legal when their turn comes.
fn sweep(alloc: Global, ctx: &Ctx, sheet: &mut Sheet) -> Result<(), Fail>
    requires tables { FitsTask ctx.now.task.now ctx.now.tables.now }
    requires formed { IsFormed ctx.now.task.now sheet.old }
    ensures { OnOk result (IsFormed ctx.now.task.now sheet.new) }
{
    let steps = all_steps(alloc, ctx, sheet)?;
    for step in &steps {
        exhaust(ctx, sheet, *step)?;
    }
    Ok(())
}

/// Makes legal steps until there are none.
pub fn close(alloc: Global, ctx: &Ctx, sheet: &mut Sheet) -> Result<(), Fail>
    requires tables { FitsTask ctx.now.task.now ctx.now.tables.now }
    requires formed { IsFormed ctx.now.task.now sheet.old }
    ensures { OnOk result (IsFormed ctx.now.task.now sheet.new) }
{
    for _ in 0..10_000u32 {
        if landings(alloc, ctx, sheet)?.is_empty() {
            return Ok(());
        }
        sweep(alloc, ctx, sheet)?;
    }
    Err("no end")?
}

/// Makes the decision, where it fits.
pub fn apply_if_fits(ctx: &Ctx, sheet: &mut Sheet, decision: &Decision) -> Result<(), Fail>
    requires { IsFormed ctx.now.task.now sheet.old }
    ensures { OnOk result (IsFormed ctx.now.task.now sheet.new) }
{
    if !fits(ctx.task, sheet, decision) || sheet.tokens.as_slice().len() > 100 {
        return Err("the decision does not fit")?;
    }
    apply(ctx.task, sheet, decision)?;
    Ok(())
}

/// The sheet of the decisions at the bound, closed before each of them but not after the last.
pub fn decided(alloc: Global, ctx: &Ctx, bound: u64, decisions: &[Decision]) -> Result<Sheet, Fail>
    requires tables { FitsTask ctx.now.task.now ctx.now.tables.now }
    requires bound { bound ≤ 1000000 }
    ensures { IfOk result (IsFormed ctx.now.task.now) }
{
    let mut sheet = root(alloc, ctx.task, ctx.tables, bound)?;
    for decision in decisions {
        close(alloc, ctx, &mut sheet)?;
        apply_if_fits(ctx, &mut sheet, decision)?;
    }
    Ok(sheet)
}

/// The sheet of the decisions at the bound, closed.
pub fn closed(alloc: Global, ctx: &Ctx, bound: u64, decisions: &[Decision]) -> Result<Sheet, Fail>
    requires tables { FitsTask ctx.now.task.now ctx.now.tables.now }
    requires bound { bound ≤ 1000000 }
{
    let mut sheet = decided(alloc, ctx, bound, decisions)?;
    close(alloc, ctx, &mut sheet)?;
    Ok(sheet)
}
