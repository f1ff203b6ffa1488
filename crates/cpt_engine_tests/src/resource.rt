//! The engine on three actions that share a resource.

ghost use Rattle.std.specs.Prelude.{◌≡◌, ◌<◌, ◌≤◌};
ghost use Rattle.cpt_sheet.specs.Gaps.{FitsTask};

use crate::moves::{decide, reopen, take_back};
use cpt_engine::{Engine, State};
use cpt_scan::{ALL_RULES, INSIDE_RULES, RESOURCE, closed, is_sheet, tables_of, task_of};
use cpt_sheet::Cand::{Out, Tok};
use cpt_sheet::{Decision, Interval, Sheet, list, span};
use cpt_store::{Ctx, Rule};
use cpt_task::Span::At;
use cpt_task::Task;
use std::alloc::Global;
use std::marker::Brand;
use std::sync::ledger::Blank;
use std::test::Fail;

/// The first action supplies the end with the first goal.
const FIRST_GOAL: Decision = Decision::Bring {
    tok: 1,
    pre: 1,
    act: 0,
};

/// The start supplies the first action with the resource.
const FROM_START: Decision = Decision::Join {
    tok: 2,
    pre: 0,
    by: 0,
};

/// The second action supplies the first with the resource.
const FROM_SECOND: Decision = Decision::Bring {
    tok: 2,
    pre: 0,
    act: 1,
};

/// A command to an engine.
#[derive(Clone, Copy)]
enum Command {
    Decide(Decision),
    Retract,
    Reopen(u64),
}

/// One of the sheets below.
#[derive(Clone, Copy)]
enum Which {
    Opened,
    First,
    Reopened,
    Dead,
}

/// A command, whether it leaves the engine alive or takes a decision back, and what the engine shows then: the decisions
/// that stand, the calls that were answered, and the sheet.
#[derive(Clone, Copy)]
struct Row {
    command: Command,
    answer: bool,
    decisions: usize,
    used: u64,
    sheet: Which,
}

/// With all rules and at bound 5 the first goal can be supplied, and then nobody can supply the resource.
const WITH_ALL_RULES: [Row; 8] = [
    Row {
        command: Command::Decide(FIRST_GOAL),
        answer: true,
        decisions: 1,
        used: 1,
        sheet: Which::First,
    },
    Row {
        command: Command::Decide(FROM_START),
        answer: false,
        decisions: 2,
        used: 2,
        sheet: Which::Dead,
    },
    Row {
        command: Command::Retract,
        answer: true,
        decisions: 1,
        used: 2,
        sheet: Which::First,
    },
    Row {
        command: Command::Decide(FROM_SECOND),
        answer: false,
        decisions: 2,
        used: 3,
        sheet: Which::Dead,
    },
    Row {
        command: Command::Retract,
        answer: true,
        decisions: 1,
        used: 3,
        sheet: Which::First,
    },
    Row {
        command: Command::Retract,
        answer: true,
        decisions: 0,
        used: 3,
        sheet: Which::Opened,
    },
    Row {
        command: Command::Retract,
        answer: false,
        decisions: 0,
        used: 3,
        sheet: Which::Opened,
    },
    Row {
        command: Command::Reopen(6),
        answer: true,
        decisions: 0,
        used: 4,
        sheet: Which::Reopened,
    },
];

/// Commands to an engine.
trait Commanded {
    /// Obeys. Whether the engine is alive then or, of a retraction, whether there was a decision.
    fn obey(&mut self, command: Command) -> Result<bool, Fail>;

    /// Whether so many decisions stand, and so many calls were answered.
    fn counts(&self, decisions: usize, used: u64) -> bool;

    fn is_alive(&self) -> bool;

    /// Whether it has this sheet, and is alive.
    fn has_sheet(&self, sheet: &Sheet) -> bool;
}

impl<'a, R: Rule + Copy> Commanded for Engine<'a, R> {
    fn obey(&mut self, command: Command) -> Result<bool, Fail> {
        match command {
            Command::Decide(decision) => Ok(decide(self, decision)? == State::Alive),
            Command::Retract => Ok(take_back::<R, Brand>(self, Blank::new(1))),
            Command::Reopen(bound) => {
                reopen(self, bound)?;
                Ok(self.state() == State::Alive)
            }
        }
    }

    fn counts(&self, decisions: usize, used: u64) -> bool {
        self.decisions().len() == decisions && self.used() == used
    }

    fn is_alive(&self) -> bool {
        self.state() == State::Alive
    }

    fn has_sheet(&self, sheet: &Sheet) -> bool {
        self.state() == State::Alive && is_sheet(&self.ctx(), self.store(), sheet)
    }
}

fn between(lo: u64, hi: u64) -> Interval {
    Interval { lo: At(lo), hi }
}

/// The end may begin from 4 to `bound`, and each outside action from 0 to `last`.
fn is_open(sheet: &Sheet, bound: u64, last: u64) -> bool {
    let outside = [Out(0), Out(1), Out(2)];
    span(sheet, Tok(1)) == between(4, bound)
        && outside.iter().all(|c| span(sheet, *c) == between(0, last))
}

/// The first action may begin from 0 to 3, and the start and all actions can supply it.
fn is_supplied(sheet: &Sheet) -> bool {
    let wanted = [Tok(0), Out(0), Out(1), Out(2)];
    span(sheet, Tok(2)) == between(0, 3) && list(sheet, 2, 0) == wanted.as_slice()
}

/// Whether the engine is alive and has the closed sheet of the decisions at the bound.
fn has_closed<E: Commanded>(
    alloc: Global,
    ctx: &Ctx,
    engine: &E,
    bound: u64,
    decisions: &[Decision],
) -> Result<bool, Fail>
    requires tables { FitsTask ctx.now.task.now ctx.now.tables.now }
    requires bound { bound ≤ 1000000 }
{
    let sheet = closed(alloc, ctx, bound, decisions)?;
    Ok(engine.has_sheet(&sheet))
}

fn shows<E: Commanded>(alloc: Global, ctx: &Ctx, engine: &E, which: Which) -> Result<bool, Fail>
    requires { FitsTask ctx.now.task.now ctx.now.tables.now }
{
    match which {
        Which::Opened => has_closed(alloc, ctx, engine, 5, &[]),
        Which::First => has_closed(alloc, ctx, engine, 5, &[FIRST_GOAL]),
        Which::Reopened => has_closed(alloc, ctx, engine, 6, &[]),
        Which::Dead => Ok(!engine.is_alive()),
    }
}

/// Whether the engine answers the command as its row says.
fn obeys_row<E: Commanded>(
    alloc: Global,
    ctx: &Ctx,
    engine: &mut E,
    row: &Row,
) -> Result<bool, Fail>
    requires { FitsTask ctx.now.task.now ctx.now.tables.now }
{
    let answer = engine.obey(row.command)?;
    let is_right = answer == row.answer && engine.counts(row.decisions, row.used);
    Ok(is_right && shows(alloc, ctx, engine, row.sheet)?)
}

/// Whether the engine answers each command as its row says.
fn obeys<E: Commanded + Drop>(alloc: Global, ctx: &Ctx, opened: E) -> Result<bool, Fail>
    requires { FitsTask ctx.now.task.now ctx.now.tables.now }
{
    let mut engine = opened;
    for row in &WITH_ALL_RULES {
        if !obeys_row(alloc, ctx, &mut engine, row)? {
            return Ok(false);
        }
    }
    Ok(true)
}

/// Whether the engine stays alive through the decisions, of which all but the first are taken back.
fn stays_alive<E: Commanded + Drop>(opened: E) -> Result<bool, Fail> {
    let mut engine = opened;
    let first = engine.obey(Command::Decide(FIRST_GOAL))?;
    let second = engine.obey(Command::Decide(FROM_START))?;
    let back = engine.obey(Command::Retract)?;
    let third = engine.obey(Command::Decide(FROM_SECOND))?;
    Ok(first && second && back && third)
}

fn obeys_with_all_rules(alloc: Global, ctx: &Ctx) -> Result<bool, Fail>
    requires { FitsTask ctx.now.task.now ctx.now.tables.now }
{
    match Engine::open(alloc, ctx.task, ctx.tables, 5, ALL_RULES) {
        Ok(engine) => obeys(alloc, ctx, engine),
        Err(_) => Err("no memory")?,
    }
}

fn stays_alive_without_outside_rules(alloc: Global, ctx: &Ctx) -> Result<bool, Fail>
    requires { FitsTask ctx.now.task.now ctx.now.tables.now }
{
    match Engine::open(alloc, ctx.task, ctx.tables, 5, INSIDE_RULES) {
        Ok(engine) => stays_alive(engine),
        Err(_) => Err("no memory")?,
    }
}

/// Whether the calculus' closed sheet at the bound is as worked out by hand.
fn opens_as_worked_out(alloc: Global, ctx: &Ctx, bound: u64, last: u64) -> Result<bool, Fail>
    requires tables { FitsTask ctx.now.task.now ctx.now.tables.now }
    requires bound { bound ≤ 1000000 }
{
    let sheet = closed(alloc, ctx, bound, &[])?;
    Ok(is_open(&sheet, bound, last))
}

fn is_supplied_as_worked_out(alloc: Global, ctx: &Ctx) -> Result<bool, Fail>
    requires { FitsTask ctx.now.task.now ctx.now.tables.now }
{
    let sheet = closed(alloc, ctx, 5, &[FIRST_GOAL])?;
    Ok(is_supplied(&sheet))
}

/// Whether the calculus' sheets are as worked out by hand, and the engine has them in turn.
fn is_as_worked_out(alloc: Global, ctx: &Ctx) -> Result<bool, Fail>
    requires { FitsTask ctx.now.task.now ctx.now.tables.now }
{
    let are_right = opens_as_worked_out(alloc, ctx, 5, 3)?
        && opens_as_worked_out(alloc, ctx, 6, 4)?
        && is_supplied_as_worked_out(alloc, ctx)?;
    Ok(are_right && obeys_with_all_rules(alloc, ctx)?)
}

fn all_over_tables(alloc: Global, task: &Task) -> Result<bool, Fail> {
    let tables = tables_of(alloc, task)?;
    let ctx = Ctx {
        task,
        tables: &tables,
    };
    Ok(is_as_worked_out(alloc, &ctx)? && stays_alive_without_outside_rules(alloc, &ctx)?)
}

fn all_at_its_bounds(alloc: Global) -> Result<bool, Fail> {
    let task = task_of(alloc, RESOURCE)?;
    all_over_tables(alloc, &task)
}

#[test]
fn a_shared_resource_at_its_bounds(rt: HostRuntime) -> Result<(), Fail> {
    assert!(rt; all_at_its_bounds(rt.alloc())?);
    Ok(())
}
