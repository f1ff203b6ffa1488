//! How often the engine asks a rule, on a transport problem of eight packages.

ghost use Rattle.std.specs.Prelude.{◌≡◌, IfOk};
ghost use Rattle.cpt_domain.specs.Sound.{IsSound};
ghost use Rattle.cpt_facts.specs.Fitting.{Fits};
ghost use Rattle.cpt_sheet.specs.Gaps.{FitsTask};
ghost use Rattle.cpt_store.specs.Stores.{IsLent};

use crate::moves::decide;
use cpt_branch::{children, first_flaw};
use cpt_domain::{Domain, read_domain};
use cpt_engine::{Engine, State};
use cpt_gen::make;
use cpt_ground::ground;
use cpt_problem::{Problem, read_problem};
use cpt_reach::{Pruned, prune};
use cpt_scan::{ALL_RULES, tables_of};
use cpt_sexp::{Forest, parse};
use cpt_sheet::{Decision, Step};
use cpt_store::{Ctx, Rule, Store, Subject};
use cpt_tables::Tables;
use cpt_task::Task;
use std::alloc::Global;
use std::cell::Cell;
use std::test::Fail;

/// A rule that hands each call on, and counts calls of `propose` and true answers of `wakes`.
#[derive(Clone, Copy)]
struct Counted<'a, R> {
    rule: R,
    asked: &'a Cell<u64>,
    woken: &'a Cell<u64>,
}

fn count(cell: &Cell<u64>) {
    cell.set(cell.get().wrapping_add(1));
}

impl<'a, R: Rule> Rule for Counted<'a, R> {
    ghost covers = { R.covers };

    ghost monotone = { R.monotone };

    fn propose(&self, ctx: &Ctx, store: &Store, subject: Subject) -> Option<Step> {
        count(self.asked);
        self.rule.propose(ctx, store, subject)
    }

    fn wakes(&self, ctx: &Ctx, store: &Store, step: &Step, subject: Subject) -> bool {
        let wakes = self.rule.wakes(ctx, store, step, subject);
        if wakes {
            count(self.woken);
        }
        wakes
    }
}

fn forest_of(alloc: Global, text: &[u8]) -> Result<Forest, Fail> {
    if text.len() > 16_777_216 {
        return Err("too long a text")?;
    }
    Ok(parse(alloc, text)?)
}

fn domain_of(alloc: Global, text: &[u8]) -> Result<Domain, Fail>
    ensures { IfOk result IsSound }
{
    let forest = forest_of(alloc, text)?;
    Ok(read_domain(alloc, &forest)?)
}

fn problem_of(alloc: Global, domain: &Domain, text: &[u8]) -> Result<Problem, Fail>
    requires { IsSound domain.now }
    ensures { IfOk result (λ p. Fits domain.now p) }
{
    let forest = forest_of(alloc, text)?;
    Ok(read_problem(alloc, domain, &forest)?)
}

fn ground_of(alloc: Global, domain: &Domain, text: &[u8]) -> Result<Task, Fail>
    requires { IsSound domain.now }
{
    let problem = problem_of(alloc, domain, text)?;
    Ok(ground(alloc, domain, &problem)?)
}

fn task_of_texts(alloc: Global, domain: &[u8], problem: &[u8]) -> Result<Task, Fail> {
    let domain = domain_of(alloc, domain)?;
    ground_of(alloc, &domain, problem)
}

fn made_task(alloc: Global) -> Result<Task, Fail> {
    let made = make(alloc, 8)?;
    task_of_texts(alloc, made.domain.as_slice(), made.problem.as_slice())
}

/// The kept part of the generated problem of eight packages.
fn eight_packages(alloc: Global) -> Result<Pruned, Fail> {
    let task = made_task(alloc)?;
    Ok(prune(alloc, &task)?)
}

/// Whether few are asked where the engine is opened over the task's own tables.
fn asks_few_of(alloc: Global, task: &Task) -> Result<bool, Fail> {
    let tables = tables_of(alloc, task)?;
    let asked = Cell::new(0);
    let woken = Cell::new(0);
    asks_few(alloc, task, &tables, &asked, &woken)
}

/// An engine that is led along the first children.
trait Descent {
    /// The tokens, the actions and the steps of the newest call.
    fn size(&self) -> u64;

    /// Decides the first child of the first flaw. Whether there is one.
    fn descend(&mut self, alloc: Global) -> Result<bool, Fail>;
}

fn size_of(store: &Store, actions: usize, steps: usize) -> u64 {
    let tokens = store.tokens() as usize;
    tokens.saturating_add(actions).saturating_add(steps) as u64
}

/// The first child of the first flaw; None where there is no flaw.
fn first_child(alloc: Global, ctx: &Ctx, store: &Store) -> Result<Option<Decision>, Fail>
    requires { IsLent ctx.now.task.now ctx.now.tables.now store.now }
{
    let Some(flaw) = first_flaw(ctx, store) else {
        return Ok(None);
    };
    let children = children(alloc, ctx, store, flaw)?;
    Ok(children.first().copied())
}

impl<'a, R: Rule + Copy> Descent for Engine<'a, R> {
    fn size(&self) -> u64 {
        size_of(
            self.store(),
            self.ctx().task.actions().len(),
            self.steps().len(),
        )
    }

    fn descend(&mut self, alloc: Global) -> Result<bool, Fail> {
        if self.state() != State::Alive {
            return Ok(false);
        }
        match first_child(alloc, &self.ctx(), self.store())? {
            Some(decision) => {
                decide(self, decision)?;
                Ok(true)
            }
            None => Ok(false),
        }
    }
}

/// Whether the calls of `propose` since the last look are at most the tokens, the actions, the steps and the true answers
/// of `wakes`.
fn are_few<E: Descent>(engine: &E, asked: &Cell<u64>, woken: &Cell<u64>) -> bool {
    let most = engine.size().saturating_add(woken.take());
    asked.take() <= most
}

/// Decides the first children until there is none. Whether few are asked each time.
fn descend_to_end<E: Descent + Drop>(
    alloc: Global,
    opened: E,
    asked: &Cell<u64>,
    woken: &Cell<u64>,
) -> Result<bool, Fail> {
    let mut engine = opened;
    for _ in 0..1000u32 {
        if !are_few(&engine, asked, woken) {
            return Ok(false);
        }
        if !engine.descend(alloc)? {
            return Ok(true);
        }
    }
    Err("no end")?
}

/// Opens an engine of the counting rule. Whether few are asked from there to the end of the first branch.
fn asks_few(
    alloc: Global,
    task: &Task,
    tables: &Tables,
    asked: &Cell<u64>,
    woken: &Cell<u64>,
) -> Result<bool, Fail>
    requires { FitsTask task.now tables.now }
{
    let rule = Counted {
        rule: ALL_RULES,
        asked,
        woken,
    };
    match Engine::open(alloc, task, tables, 26, rule) {
        Ok(engine) => descend_to_end(alloc, engine, asked, woken),
        Err(_) => Err("no memory")?,
    }
}

/// Whether few are asked on the problem of eight packages.
fn asks_few_of_eight(alloc: Global) -> Result<bool, Fail> {
    let kept = eight_packages(alloc)?;
    asks_few_of(alloc, &kept.task)
}

#[test]
fn few_are_asked_on_the_way_to_a_leaf(rt: HostRuntime) -> Result<(), Fail> {
    assert!(rt; asks_few_of_eight(rt.alloc())?);
    Ok(())
}
