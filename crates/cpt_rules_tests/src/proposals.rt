//! At random sheets: what is proposed beside all legal steps, and whom a step wakes beside who has a legal step only after it.

ghost use Rattle.std.specs.Prelude.{◌≡◌, ◌<◌, ◌≤◌, OnOk};
ghost use Rattle.cpt_sheet.specs.Formed.{IsFormed};
ghost use Rattle.cpt_sheet.specs.Gaps.{FitsTask};
ghost use Rattle.cpt_store.specs.Stores.{CanNarrow, IsLent};

use crate::turns::{Turns, decide_both, step_both, take_turns};
use cpt_calculus::{legal, root};
use cpt_scan::{
    ALL_RULES, KEY, RESOURCE, TRUCKS, further, landing, landings, some_step, step_at, subject_at,
    subject_count, tables_of, task_of, wakes,
};
use cpt_sheet::{Cand, Sheet, Step};
use cpt_store::{Ctx, Store};
use cpt_task::{Steps, Task};
use rand_core::utils::NextWord;
use rand_pcg::Pcg32;
use std::alloc::Global;
use std::marker::Brand;
use std::sync::ledger::{Blank, Ledger};
use std::test::Fail;

/// Whether the step is legal and lands there, and the same with the next moment is not legal.
fn is_tight(ctx: &Ctx, sheet: &Sheet, step: Step, c: Cand) -> bool
    requires tables { FitsTask ctx.now.task.now ctx.now.tables.now }
    requires formed { IsFormed ctx.now.task.now sheet.now }
{
    let next = further(step);
    legal(ctx.task, ctx.tables, sheet, &step)
        && landing(sheet, step) == c
        && (next == step || !legal(ctx.task, ctx.tables, sheet, &next))
}

/// Whether the proposal at the subject is a legal step with the very value of its row, or there is none and no legal step
/// lands there.
fn is_right(ctx: &Ctx, store: &Store, sheet: &Sheet, c: Cand, landings: &[Cand]) -> bool
    requires lent { IsLent ctx.now.task.now ctx.now.tables.now store.now }
    requires formed { IsFormed ctx.now.task.now sheet.now }
{
    match step_at(ctx, store, &ALL_RULES, c) {
        Some(step) => is_tight(ctx, sheet, step, c),
        None => !landings.contains(&c),
    }
}

/// Whether the proposals at all subjects are right.
fn are_right(ctx: &Ctx, store: &Store, sheet: &Sheet, landings: &[Cand]) -> bool
    requires lent { IsLent ctx.now.task.now ctx.now.tables.now store.now }
    requires formed { IsFormed ctx.now.task.now sheet.now }
{
    for number in 0..subject_count(ctx, store) {
        if !is_right(ctx, store, sheet, subject_at(store, number), landings) {
            return false;
        }
    }
    true
}

/// Whether those are woken by the step who had no legal step and have one after it. The store is the one after it.
fn are_woken(ctx: &Ctx, store: &Store, step: &Step, before: &[Cand], after: &[Cand]) -> bool
    requires { IsLent ctx.now.task.now ctx.now.tables.now store.now }
{
    for c in after {
        if !before.contains(c) && !wakes(ctx, store, &ALL_RULES, step, *c) {
            return false;
        }
    }
    true
}

/// Makes the step in both. Whether it is legal for the calculus, and who has a legal step only after it is woken.
fn wake_both<L: Ledger>(
    alloc: Global,
    ctx: &Ctx,
    store: &mut Store,
    sheet: &mut Sheet,
    step: &Step,
    before: &[Cand],
    ticks: &mut Steps<L>,
) -> Result<bool, Fail>
    requires lent { IsLent ctx.now.task.now ctx.now.tables.now store.old }
    requires formed { IsFormed ctx.now.task.now sheet.old }
    requires can { CanNarrow store.old step.now }
    ensures lent { OnOk result (IsLent ctx.now.task.now ctx.now.tables.now store.new) }
    ensures formed { OnOk result (IsFormed ctx.now.task.now sheet.new) }
{
    let is_legal = step_both(ctx, store, sheet, step, ticks)?;
    let after = landings(alloc, ctx, sheet)?;
    Ok(is_legal && are_woken(ctx, store, step, before, &after))
}

/// Makes a random step in both or, where nobody has one, a random decision.
fn go_on<L: Ledger>(
    alloc: Global,
    ctx: &Ctx,
    store: &mut Store,
    sheet: &mut Sheet,
    before: &[Cand],
    random: &mut Pcg32,
    ticks: &mut Steps<L>,
) -> Result<bool, Fail>
    requires lent { IsLent ctx.now.task.now ctx.now.tables.now store.old }
    requires formed { IsFormed ctx.now.task.now sheet.old }
    ensures lent { OnOk result (IsLent ctx.now.task.now ctx.now.tables.now store.new) }
    ensures formed { OnOk result (IsFormed ctx.now.task.now sheet.new) }
{
    match some_step(ctx, store, random) {
        Some(step) => wake_both(alloc, ctx, store, sheet, &step, before, ticks),
        None => decide_both(ctx, store, sheet, random, ticks),
    }
}

/// Compares the proposals with all legal steps, and goes on.
fn compare<L: Ledger>(
    alloc: Global,
    ctx: &Ctx,
    store: &mut Store,
    sheet: &mut Sheet,
    random: &mut Pcg32,
    ticks: &mut Steps<L>,
) -> Result<bool, Fail>
    requires lent { IsLent ctx.now.task.now ctx.now.tables.now store.old }
    requires formed { IsFormed ctx.now.task.now sheet.old }
    ensures lent { OnOk result (IsLent ctx.now.task.now ctx.now.tables.now store.new) }
    ensures formed { OnOk result (IsFormed ctx.now.task.now sheet.new) }
{
    let before = landings(alloc, ctx, sheet)?;
    if !are_right(ctx, store, sheet, &before) {
        return Ok(false);
    }
    go_on(alloc, ctx, store, sheet, &before, random, ticks)
}

/// Compares and goes on or, one time in eight, decides, with a counter that nobody reads.
fn turn<L: Ledger>(
    alloc: Global,
    ctx: &Ctx,
    store: &mut Store,
    sheet: &mut Sheet,
    random: &mut Pcg32,
    blank: Blank,
) -> Result<bool, Fail>
    requires lent { IsLent ctx.now.task.now ctx.now.tables.now store.old }
    requires formed { IsFormed ctx.now.task.now sheet.old }
    requires name { blank.name ≡ L.name }
    requires parts { blank.parts ≡ L.parts }
    requires some { 0 < L.parts }
    ensures lent { OnOk result (IsLent ctx.now.task.now ctx.now.tables.now store.new) }
    ensures formed { OnOk result (IsFormed ctx.now.task.now sheet.new) }
{
    let mut ticks = Steps::<L>::new(blank);
    if random.next_word() % 8 == 0 {
        return decide_both(ctx, store, sheet, random, &mut ticks);
    }
    compare(alloc, ctx, store, sheet, random, &mut ticks)
}

/// A store whose proposals are compared at each turn.
#[derive(Drop)]
struct Compared {
    store: Store,
}

impl Turns for Compared {
    ghost stands = { λ s t b. IsLent t b s.store };

    fn is_over(&self) -> bool {
        self.store.dead()
    }

    fn take_turn(
        &mut self,
        alloc: Global,
        ctx: &Ctx,
        sheet: &mut Sheet,
        random: &mut Pcg32,
    ) -> Result<bool, Fail> {
        turn::<Brand>(alloc, ctx, &mut self.store, sheet, random, Blank::new(1))
    }
}

/// Compares from the root on.
fn compares_beside(
    alloc: Global,
    ctx: &Ctx,
    sheet: &mut Sheet,
    bound: u64,
    seed: u64,
) -> Result<bool, Fail>
    requires tables { FitsTask ctx.now.task.now ctx.now.tables.now }
    requires bound { bound ≤ 1000000 }
    requires formed { IsFormed ctx.now.task.now sheet.old }
{
    match Store::root(alloc, ctx, bound) {
        Ok(store) => take_turns(alloc, ctx, Compared { store }, sheet, seed, 20),
        Err(_) => Err("no memory")?,
    }
}

fn compares_at(alloc: Global, ctx: &Ctx, bound: u64, seed: u64) -> Result<bool, Fail>
    requires tables { FitsTask ctx.now.task.now ctx.now.tables.now }
    requires bound { bound ≤ 1000000 }
{
    let mut sheet = root(alloc, ctx.task, ctx.tables, bound)?;
    compares_beside(alloc, ctx, &mut sheet, bound, seed)
}

/// Compares at bounds from `least` on, so many times.
fn compares_from(alloc: Global, ctx: &Ctx, least: u64, count: u64) -> Result<bool, Fail>
    requires { FitsTask ctx.now.task.now ctx.now.tables.now }
{
    for round in 0..count {
        let bound = least.saturating_add(round % 8).min(1_000_000);
        if !compares_at(alloc, ctx, bound, round)? {
            return Ok(false);
        }
    }
    Ok(true)
}

fn compares_over(alloc: Global, task: &Task, least: u64, count: u64) -> Result<bool, Fail> {
    let tables = tables_of(alloc, task)?;
    let ctx = Ctx {
        task,
        tables: &tables,
    };
    compares_from(alloc, &ctx, least, count)
}

/// Whether the rules agree with the calculus on so many walks through the task.
fn agrees(alloc: Global, text: &str, least: u64, count: u64) -> Result<bool, Fail> {
    let task = task_of(alloc, text)?;
    compares_over(alloc, &task, least, count)
}

#[test]
fn proposals_for_a_shared_resource(rt: HostRuntime) -> Result<(), Fail> {
    assert!(rt; agrees(rt.alloc(), RESOURCE, 4, 40)?);
    Ok(())
}

#[test]
fn proposals_with_a_key_that_is_used_up(rt: HostRuntime) -> Result<(), Fail> {
    assert!(rt; agrees(rt.alloc(), KEY, 6, 40)?);
    Ok(())
}

#[test]
fn proposals_for_two_trucks(rt: HostRuntime) -> Result<(), Fail> {
    assert!(rt; agrees(rt.alloc(), TRUCKS, 6, 40)?);
    Ok(())
}
