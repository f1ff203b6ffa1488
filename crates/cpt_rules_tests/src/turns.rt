//! Turns that a store takes beside a sheet of the calculus.

ghost use Rattle.std.specs.Prelude.{◌≡◌, OnOk};
ghost use Rattle.cpt_task.specs.Shape.{TaskShape};
ghost use Rattle.cpt_tables.specs.declared.tables.Tables.{Tables};
ghost use Rattle.cpt_sheet.specs.Formed.{IsFormed};
ghost use Rattle.cpt_store.specs.Stores.{CanNarrow, IsLent, KeepsMarks};

use cpt_calculus::fits;
use cpt_scan::{apply_if_fits, decide_in, make_if_legal, narrow_in, some_decision};
use cpt_sheet::{Sheet, Step};
use cpt_store::{Ctx, Store};
use cpt_task::Steps;
use rand_pcg::Pcg32;
use std::alloc::Global;
use std::sync::ledger::Ledger;
use std::test::Fail;

/// Makes the step in both. Whether it is legal for the calculus.
pub fn step_both<L: Ledger>(
    ctx: &Ctx,
    store: &mut Store,
    sheet: &mut Sheet,
    step: &Step,
    ticks: &mut Steps<L>,
) -> Result<bool, Fail>
    requires lent { IsLent ctx.now.task.now ctx.now.tables.now store.old }
    requires formed { IsFormed ctx.now.task.now sheet.old }
    requires can { CanNarrow store.old step.now }
    ensures lent { OnOk result (IsLent ctx.now.task.now ctx.now.tables.now store.new) }
    ensures formed { OnOk result (IsFormed ctx.now.task.now sheet.new) }
    ensures marks { OnOk result (KeepsMarks store.old.marks store.new.marks) }
{
    narrow_in(ctx, store, step, ticks);
    let is_legal = make_if_legal(ctx, sheet, step)?;
    Ok(is_legal)
}

/// Makes a random decision in both, where it fits. Whether it fits for the calculus too.
pub fn decide_both<L: Ledger>(
    ctx: &Ctx,
    store: &mut Store,
    sheet: &mut Sheet,
    random: &mut Pcg32,
    ticks: &mut Steps<L>,
) -> Result<bool, Fail>
    requires lent { IsLent ctx.now.task.now ctx.now.tables.now store.old }
    requires formed { IsFormed ctx.now.task.now sheet.old }
    ensures lent { OnOk result (IsLent ctx.now.task.now ctx.now.tables.now store.new) }
    ensures formed { OnOk result (IsFormed ctx.now.task.now sheet.new) }
    ensures marks { OnOk result (KeepsMarks store.old.marks store.new.marks) }
{
    let decision = some_decision(ctx, store, random);
    let fits = fits(ctx.task, sheet, &decision);
    if fits != store.fits(ctx, &decision) || !fits {
        return Ok(!fits);
    }
    decide_in(ctx, store, &decision, ticks)?;
    apply_if_fits(ctx, sheet, &decision)?;
    Ok(true)
}

/// What takes turns beside a sheet.
pub trait Turns {
    // What holds of it before each turn, beside the task and the tables.
    ghost stands: { Self → TaskShape → Tables → Type 0 };

    /// Whether its sheet is dead.
    fn is_over(&self) -> bool;

    /// A turn. Whether all agrees.
    fn take_turn(
        &mut self,
        alloc: Global,
        ctx: &Ctx,
        sheet: &mut Sheet,
        random: &mut Pcg32,
    ) -> Result<bool, Fail>
        requires stands { stands self.old ctx.now.task.now ctx.now.tables.now }
        requires formed { IsFormed ctx.now.task.now sheet.old }
        ensures stands { OnOk result (stands self.new ctx.now.task.now ctx.now.tables.now) }
        ensures formed { OnOk result (IsFormed ctx.now.task.now sheet.new) };
}

/// So many turns, or as many as there are before its sheet is dead. Whether all agrees in each.
pub fn take_turns<T: Turns + Drop>(
    alloc: Global,
    ctx: &Ctx,
    opened: T,
    sheet: &mut Sheet,
    seed: u64,
    count: u32,
) -> Result<bool, Fail>
    requires stands { T.stands opened ctx.now.task.now ctx.now.tables.now }
    requires formed { IsFormed ctx.now.task.now sheet.old }
{
    let mut it = opened;
    let mut random = Pcg32::new(seed, 54);
    for _ in 0..count {
        if it.is_over() {
            return Ok(true);
        }
        if !it.take_turn(alloc, ctx, sheet, &mut random)? {
            return Ok(false);
        }
    }
    Ok(true)
}
