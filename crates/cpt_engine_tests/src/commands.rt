//! Random decisions, retractions and reopenings: an engine beside the calculus, command after command.

ghost use Rattle.std.specs.Prelude.{◌≡◌, ◌<◌, ◌≤◌};
ghost use Rattle.cpt_sheet.specs.Formed.{IsFormed};
ghost use Rattle.cpt_sheet.specs.Gaps.{FitsTask};
ghost use Rattle.cpt_store.specs.Stores.{IsLent};

use crate::moves::{decide, reopen, take_back};
use cpt_calculus::copy_sheet;
use cpt_engine::{Engine, State};
use cpt_scan::{
    ALL_RULES, KEY, RESOURCE, SATELLITE, TRUCKS, close, decided, is_sheet, make_if_legal,
    some_decision, tables_of, task_of,
};
use cpt_sheet::{Decision, Sheet, Step, is_dead};
use cpt_store::{Ctx, Rule, Store};
use cpt_tables::Tables;
use cpt_task::Task;
use rand_core::utils::NextWord;
use rand_pcg::Pcg32;
use std::alloc::Global;
use std::marker::Brand;
use std::sync::ledger::Blank;
use std::test::Fail;

/// What an engine shows.
#[derive(Clone, Copy)]
struct Shown<'a> {
    decisions: &'a [Decision],
    steps: &'a [Step],
    is_alive: bool,
}

/// Makes the steps. Whether each is legal where its turn comes.
fn make_all(ctx: &Ctx, sheet: &mut Sheet, steps: &[Step]) -> Result<bool, Fail>
    requires tables { FitsTask ctx.now.task.now ctx.now.tables.now }
    requires formed { IsFormed ctx.now.task.now sheet.old }
{
    for step in steps {
        if !make_if_legal(ctx, sheet, step)? {
            return Ok(false);
        }
    }
    Ok(true)
}

/// Whether the steps lead, each legal, from the sheet of the decisions to the store's sheet.
fn is_led(
    alloc: Global,
    ctx: &Ctx,
    store: &Store,
    shown: &Shown,
    sheet: &Sheet,
) -> Result<bool, Fail>
    requires lent { IsLent ctx.now.task.now ctx.now.tables.now store.now }
    requires formed { IsFormed ctx.now.task.now sheet.now }
{
    let mut led = copy_sheet(alloc, sheet)?;
    Ok(make_all(ctx, &mut led, shown.steps)? && is_sheet(ctx, store, &led))
}

/// Closes the sheet of the decisions. Whether the state is that of the closed sheet and, where it is live, the store has it.
fn is_closed(
    alloc: Global,
    ctx: &Ctx,
    store: &Store,
    shown: &Shown,
    sheet: &mut Sheet,
) -> Result<bool, Fail>
    requires lent { IsLent ctx.now.task.now ctx.now.tables.now store.now }
    requires formed { IsFormed ctx.now.task.now sheet.old }
{
    close(alloc, ctx, sheet)?;
    if !shown.is_alive {
        return Ok(is_dead(sheet));
    }
    Ok(!is_dead(sheet) && is_sheet(ctx, store, sheet))
}

/// Whether the state, the steps and the store's sheet are those of the calculus for the decisions that stand.
fn is_reached(alloc: Global, ctx: &Ctx, store: &Store, shown: &Shown) -> Result<bool, Fail>
    requires lent { IsLent ctx.now.task.now ctx.now.tables.now store.now }
{
    let bound = store.bound();
    if bound > 1_000_000 {
        return Ok(false);
    }
    let mut sheet = decided(alloc, ctx, bound, shown.decisions)?;
    Ok(
        is_led(alloc, ctx, store, shown, &sheet)?
            && is_closed(alloc, ctx, store, shown, &mut sheet)?,
    )
}

/// A command.
#[derive(Clone, Copy)]
enum Command {
    Decide(Decision),
    Retract,
    Reopen(u64),
    Wait,
}

/// A random decision that fits, or none.
fn some_deciding(ctx: &Ctx, store: &Store, random: &mut Pcg32) -> Command
    requires lent { IsLent ctx.now.task.now ctx.now.tables.now store.now }
{
    let decision = some_decision(ctx, store, random);
    match store.fits(ctx, &decision) {
        true => Command::Decide(decision),
        false => Command::Wait,
    }
}

/// An engine that obeys.
trait Obedient {
    /// Obeys, where it may.
    fn obey(&mut self, command: Command) -> Result<(), Fail>;

    /// Whether it is in the same state, by the same steps.
    fn is_as(&self, shown: &Shown) -> bool;
}

impl<'a, R: Rule + Copy> Obedient for Engine<'a, R> {
    fn obey(&mut self, command: Command) -> Result<(), Fail> {
        match command {
            Command::Decide(decision) => {
                decide(self, decision)?;
            }
            Command::Retract => {
                let _ = take_back::<R, Brand>(self, Blank::new(1));
            }
            Command::Reopen(bound) => reopen(self, bound)?,
            Command::Wait => {}
        }
        Ok(())
    }

    fn is_as(&self, shown: &Shown) -> bool {
        let is_alive = self.state() == State::Alive;
        is_alive == shown.is_alive && self.steps() == shown.steps
    }
}

/// Whether the decisions alone lead an engine to the same state, by the same steps.
fn repeats<E: Obedient + Drop>(opened: E, shown: &Shown) -> Result<bool, Fail> {
    let mut engine = opened;
    for decision in shown.decisions {
        engine.obey(Command::Decide(*decision))?;
    }
    Ok(engine.is_as(shown))
}

/// Whether an engine that is opened anew at the bound comes to the same state, by the same steps.
fn is_repeated(alloc: Global, ctx: &Ctx, bound: u64, shown: &Shown) -> Result<bool, Fail>
    requires { FitsTask ctx.now.task.now ctx.now.tables.now }
{
    if bound > 1_000_000 {
        return Ok(false);
    }
    match Engine::open(alloc, ctx.task, ctx.tables, bound, ALL_RULES) {
        Ok(engine) => repeats(engine, shown),
        Err(_) => Err("no memory")?,
    }
}

/// An engine that takes random commands.
trait Commanded {
    /// Whether its state, its sheet and its steps are those of the calculus and of an engine that is opened anew.
    fn agrees(&self, alloc: Global) -> Result<bool, Fail>;

    /// A random command: one in sixteen is a reopening, as is each where the engine is dead without a decision, and four are
    /// retractions, as is each where it is dead by one.
    fn choose(&self, least: u64, random: &mut Pcg32) -> Command;
}

impl<'a, R: Rule + Copy> Commanded for Engine<'a, R> {
    fn agrees(&self, alloc: Global) -> Result<bool, Fail> {
        let shown = Shown {
            decisions: self.decisions(),
            steps: self.steps(),
            is_alive: self.state() == State::Alive,
        };
        let ctx = self.ctx();
        Ok(
            is_reached(alloc, &ctx, self.store(), &shown)?
                && is_repeated(alloc, &ctx, self.store().bound(), &shown)?,
        )
    }

    fn choose(&self, least: u64, random: &mut Pcg32) -> Command {
        let word = random.next_word() % 16;
        let is_dead = self.state() == State::Dead;
        if word == 0 || (is_dead && self.decisions().is_empty()) {
            return Command::Reopen(least.saturating_add((random.next_word() % 6) as u64));
        }
        if word < 5 || is_dead {
            return Command::Retract;
        }
        some_deciding(&self.ctx(), self.store(), random)
    }
}

/// So many commands. Whether the engine agrees with the calculus before each.
fn obeys_all<E: Commanded + Obedient + Drop>(
    alloc: Global,
    opened: E,
    least: u64,
    count: u32,
) -> Result<bool, Fail> {
    let mut engine = opened;
    let mut random = Pcg32::new(42, 54);
    for _ in 0..count {
        if !engine.agrees(alloc)? {
            return Ok(false);
        }
        let command = engine.choose(least, &mut random);
        engine.obey(command)?;
    }
    Ok(true)
}

fn agrees_from(
    alloc: Global,
    task: &Task,
    tables: &Tables,
    least: u64,
    count: u32,
) -> Result<bool, Fail>
    requires tables { FitsTask task.now tables.now }
    requires least { least ≤ 1000000 }
{
    match Engine::open(alloc, task, tables, least, ALL_RULES) {
        Ok(engine) => obeys_all(alloc, engine, least, count),
        Err(_) => Err("no memory")?,
    }
}

fn agrees_over_tables(alloc: Global, task: &Task, least: u64, count: u32) -> Result<bool, Fail>
    requires { least ≤ 1000000 }
{
    let tables = tables_of(alloc, task)?;
    agrees_from(alloc, task, &tables, least, count)
}

/// Whether an engine that is opened at the bound agrees with the calculus through so many random commands.
fn agrees(alloc: Global, text: &str, least: u64, count: u32) -> Result<bool, Fail>
    requires { least ≤ 1000000 }
{
    let task = task_of(alloc, text)?;
    agrees_over_tables(alloc, &task, least, count)
}

#[test]
fn a_shared_resource(rt: HostRuntime) -> Result<(), Fail> {
    assert!(rt; agrees(rt.alloc(), RESOURCE, 5, 200)?);
    Ok(())
}

#[test]
fn a_key_that_is_used_up(rt: HostRuntime) -> Result<(), Fail> {
    assert!(rt; agrees(rt.alloc(), KEY, 6, 200)?);
    Ok(())
}

#[test]
fn two_trucks(rt: HostRuntime) -> Result<(), Fail> {
    assert!(rt; agrees(rt.alloc(), TRUCKS, 8, 200)?);
    Ok(())
}

#[test]
fn a_satellite(rt: HostRuntime) -> Result<(), Fail> {
    assert!(rt; agrees(rt.alloc(), SATELLITE, 30, 200)?);
    Ok(())
}
