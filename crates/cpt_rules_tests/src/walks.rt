//! Random steps, decisions and ways back: a store beside a sheet of the calculus.

ghost use Rattle.std.specs.Prelude.{◌≡◌, ◌<◌, ◌≤◌, length, OnOk};
ghost use Rattle.cpt_calculus.specs.Decisions.{Fits};
ghost use Rattle.cpt_sheet.specs.Formed.{IsFormed};
ghost use Rattle.cpt_sheet.specs.Gaps.{FitsTask};
ghost use Rattle.cpt_store.specs.Stores.{IsLent, KeepsMarks};

use crate::turns::{Turns, decide_both, step_both, take_turns};
use cpt_calculus::{copy_sheet, root};
use cpt_scan::{
    KEY, RESOURCE, TRUCKS, apply_if_fits, decide_behind_mark, is_sheet, some_decision, some_step,
    tables_of, task_of,
};
use cpt_sheet::{Decision, Sheet, is_dead};
use cpt_store::{Ctx, Store};
use cpt_task::{Steps, Task};
use rand_core::utils::NextWord;
use rand_pcg::Pcg32;
use std::alloc::Global;
use std::marker::Brand;
use std::sync::ledger::{Blank, Ledger};
use std::test::Fail;

/// A step or, one time in eight and where nobody has a step, a decision.
fn choose_both<L: Ledger>(
    ctx: &Ctx,
    store: &mut Store,
    sheet: &mut Sheet,
    random: &mut Pcg32,
    ticks: &mut Steps<L>,
) -> Result<bool, Fail>
    requires lent { IsLent ctx.now.task.now ctx.now.tables.now store.old }
    requires formed { IsFormed ctx.now.task.now sheet.old }
    ensures lent { OnOk result (IsLent ctx.now.task.now ctx.now.tables.now store.new) }
    ensures formed { OnOk result (IsFormed ctx.now.task.now sheet.new) }
    ensures marks { OnOk result (KeepsMarks store.old.marks store.new.marks) }
{
    if random.next_word() % 8 == 0 {
        return decide_both(ctx, store, sheet, random, ticks);
    }
    match some_step(ctx, store, random) {
        Some(step) => step_both(ctx, store, sheet, &step, ticks),
        None => decide_both(ctx, store, sheet, random, ticks),
    }
}

/// Whether the store has the sheet, and is dead where it is.
fn is_same(ctx: &Ctx, store: &Store, sheet: &Sheet) -> bool
    requires { IsLent ctx.now.task.now ctx.now.tables.now store.now }
{
    is_sheet(ctx, store, sheet) && store.dead() == is_dead(sheet)
}

/// So many steps and decisions in both, or as many as there are before the sheet is dead. Whether the store has the sheet
/// after each.
fn go_on_both<L: Ledger>(
    ctx: &Ctx,
    store: &mut Store,
    sheet: &mut Sheet,
    random: &mut Pcg32,
    ticks: &mut Steps<L>,
    count: u32,
) -> Result<bool, Fail>
    requires lent { IsLent ctx.now.task.now ctx.now.tables.now store.old }
    requires formed { IsFormed ctx.now.task.now sheet.old }
    ensures lent { OnOk result (IsLent ctx.now.task.now ctx.now.tables.now store.new) }
    ensures formed { OnOk result (IsFormed ctx.now.task.now sheet.new) }
    ensures marks { OnOk result (KeepsMarks store.old.marks store.new.marks) }
{
    for _ in 0..count {
        if store.dead() {
            return Ok(true);
        }
        let agrees = choose_both(ctx, store, sheet, random, ticks)?;
        if !agrees || !is_same(ctx, store, sheet) {
            return Ok(false);
        }
    }
    Ok(true)
}

/// Decides in a copy of the sheet, and goes on for a while in the store and the copy. Whether both agree.
fn wander<L: Ledger>(
    alloc: Global,
    ctx: &Ctx,
    store: &mut Store,
    sheet: &Sheet,
    decision: &Decision,
    random: &mut Pcg32,
    ticks: &mut Steps<L>,
) -> Result<bool, Fail>
    requires lent { IsLent ctx.now.task.now ctx.now.tables.now store.old }
    requires formed { IsFormed ctx.now.task.now sheet.now }
    ensures lent { OnOk result (IsLent ctx.now.task.now ctx.now.tables.now store.new) }
    ensures marks { OnOk result (KeepsMarks store.old.marks store.new.marks) }
{
    let mut copy = copy_sheet(alloc, sheet)?;
    apply_if_fits(ctx, &mut copy, decision)?;
    go_on_both(ctx, store, &mut copy, random, ticks, 12)
}

/// Decides behind a mark, goes on for a while, and goes back. Whether the store has the sheet then.
fn go_and_return<L: Ledger>(
    alloc: Global,
    ctx: &Ctx,
    store: &mut Store,
    sheet: &Sheet,
    decision: &Decision,
    random: &mut Pcg32,
    ticks: &mut Steps<L>,
) -> Result<bool, Fail>
    requires lent { IsLent ctx.now.task.now ctx.now.tables.now store.old }
    requires formed { IsFormed ctx.now.task.now sheet.now }
    requires fits { Fits store.old.sheet decision.now }
    requires few { length store.old.sheet.tokens < 4200000000 }
    ensures { OnOk result (IsLent ctx.now.task.now ctx.now.tables.now store.new) }
{
    let mark = decide_behind_mark(ctx, store, decision, ticks)?;
    let agrees = wander(alloc, ctx, store, sheet, decision, random, ticks)?;
    store.undo_to(mark, ticks);
    let is_back = is_sheet(ctx, store, sheet);
    Ok(agrees && is_back)
}

/// Goes and returns by a random decision, where it fits.
fn detour<L: Ledger>(
    alloc: Global,
    ctx: &Ctx,
    store: &mut Store,
    sheet: &Sheet,
    random: &mut Pcg32,
    ticks: &mut Steps<L>,
) -> Result<bool, Fail>
    requires lent { IsLent ctx.now.task.now ctx.now.tables.now store.old }
    requires formed { IsFormed ctx.now.task.now sheet.now }
    ensures { OnOk result (IsLent ctx.now.task.now ctx.now.tables.now store.new) }
{
    let decision = some_decision(ctx, store, random);
    if !store.fits(ctx, &decision) || store.tokens() > 100 {
        return Ok(true);
    }
    go_and_return(alloc, ctx, store, sheet, &decision, random, ticks)
}

/// Goes on for a step or a decision, or makes a detour, with a counter that nobody reads.
fn turn<L: Ledger>(
    alloc: Global,
    ctx: &Ctx,
    store: &mut Store,
    sheet: &mut Sheet,
    random: &mut Pcg32,
    blank: Blank,
) -> Result<bool, Fail>
    requires lent { IsLent ctx.now.task.now ctx.now.tables.now store.old }
    requires formed { IsFormed ctx.now.task.now sheet.old }
    requires name { blank.name ≡ L.name }
    requires parts { blank.parts ≡ L.parts }
    requires some { 0 < L.parts }
    ensures lent { OnOk result (IsLent ctx.now.task.now ctx.now.tables.now store.new) }
    ensures formed { OnOk result (IsFormed ctx.now.task.now sheet.new) }
{
    let mut ticks = Steps::<L>::new(blank);
    if random.next_word() % 4 == 0 {
        return detour(alloc, ctx, store, sheet, random, &mut ticks);
    }
    go_on_both(ctx, store, sheet, random, &mut ticks, 1)
}

impl Turns for Store {
    ghost stands = { λ s t b. IsLent t b s };

    fn is_over(&self) -> bool {
        self.dead()
    }

    fn take_turn(
        &mut self,
        alloc: Global,
        ctx: &Ctx,
        sheet: &mut Sheet,
        random: &mut Pcg32,
    ) -> Result<bool, Fail> {
        turn::<Brand>(alloc, ctx, self, sheet, random, Blank::new(1))
    }
}

/// Walks from the root beside the root's sheet.
fn walks_beside(
    alloc: Global,
    ctx: &Ctx,
    sheet: &mut Sheet,
    bound: u64,
    seed: u64,
) -> Result<bool, Fail>
    requires tables { FitsTask ctx.now.task.now ctx.now.tables.now }
    requires bound { bound ≤ 1000000 }
    requires formed { IsFormed ctx.now.task.now sheet.old }
{
    match Store::root(alloc, ctx, bound) {
        Ok(store) => take_turns(alloc, ctx, store, sheet, seed, 20),
        Err(_) => Err("no memory")?,
    }
}

fn walks_at(alloc: Global, ctx: &Ctx, bound: u64, seed: u64) -> Result<bool, Fail>
    requires tables { FitsTask ctx.now.task.now ctx.now.tables.now }
    requires bound { bound ≤ 1000000 }
{
    let mut sheet = root(alloc, ctx.task, ctx.tables, bound)?;
    walks_beside(alloc, ctx, &mut sheet, bound, seed)
}

/// Walks at bounds from `least` on, so many times.
fn walks_from(alloc: Global, ctx: &Ctx, least: u64, count: u64) -> Result<bool, Fail>
    requires { FitsTask ctx.now.task.now ctx.now.tables.now }
{
    for round in 0..count {
        let bound = least.saturating_add(round % 8).min(1_000_000);
        if !walks_at(alloc, ctx, bound, round)? {
            return Ok(false);
        }
    }
    Ok(true)
}

fn walks_over(alloc: Global, task: &Task, least: u64, count: u64) -> Result<bool, Fail> {
    let tables = tables_of(alloc, task)?;
    let ctx = Ctx {
        task,
        tables: &tables,
    };
    walks_from(alloc, &ctx, least, count)
}

/// Whether a store agrees with the calculus on so many walks through the task.
fn agrees(alloc: Global, text: &str, least: u64, count: u64) -> Result<bool, Fail> {
    let task = task_of(alloc, text)?;
    walks_over(alloc, &task, least, count)
}

#[test]
fn walks_through_a_shared_resource(rt: HostRuntime) -> Result<(), Fail> {
    assert!(rt; agrees(rt.alloc(), RESOURCE, 4, 40)?);
    Ok(())
}

#[test]
fn walks_with_a_key_that_is_used_up(rt: HostRuntime) -> Result<(), Fail> {
    assert!(rt; agrees(rt.alloc(), KEY, 6, 40)?);
    Ok(())
}

#[test]
fn walks_of_two_trucks(rt: HostRuntime) -> Result<(), Fail> {
    assert!(rt; agrees(rt.alloc(), TRUCKS, 6, 40)?);
    Ok(())
}
