//! The engine.

ghost use Rattle.std.specs.Prelude.{◌≡◌, ◌+◌, ◌-◌, ◌<◌, ◌≤◌, ◌^◌, [], length, slice_index, true, false, IfOk, OnOk, OnErr, IsTrue, MatchBool};
ghost use Rattle.cpt_sheet.specs.Gaps.{FitsTask};
ghost use Rattle.cpt_calculus.specs.Decisions.{Fits};
ghost use Rattle.cpt_store.specs.Stores.{IsLent};
ghost use Rattle.cpt_engine.specs.declared.state.State.TheVariants.{Alive};
ghost use Rattle.cpt_engine.specs.Engines.{EngineShape, IsDecided, IsReached, IsReopened, IsRetracted, Stands};

use crate::running::{forward, start};
use crate::state::State;
use cpt_agenda::{Agenda, Users, users_of_task};
use cpt_sheet::{Decision, Step};
use cpt_store::{Ctx, Rule, Store};
use cpt_tables::Tables;
use cpt_task::{Memory, Steps, Task};
use std::alloc::Global;
use std::marker::{Brand, Model};
use std::sync::ledger::{Blank, Ledger};

/// The last number, or 0.
fn last_start(starts: &[usize]) -> usize
    ensures { result ≡ slice_index starts.now (length starts.now - 1) }
{
    if starts.len() == 0 {
        return 0;
    }
    starts[starts.len() - 1]
}

/// A store that is closed under rules after each decision.
#[derive(Drop)]
pub struct Engine<'a, R: Rule + Copy> {
    alloc: Global,
    task: &'a Task,
    tables: &'a Tables,
    rule: R,
    users: Users,
    agenda: Agenda,
    bound: u64,
    store: Store,
    decisions: Vec<Decision>,
    starts: Vec<usize>,
    steps: Vec<Step>,
    state: State,
    used: u64,
}

impl<'a, R: Rule + Copy> Model for Engine<'a, R> {
    ghost use Rattle.cpt_engine.specs.Engines.{EngineShape, IsKept};

    ghost Value = { EngineShape };

    ghost view = { λ e. record { task = e.task.now; tables = e.tables.now; bound = e.bound; decisions = e.decisions.items; starts = e.starts.items; all_steps = e.steps.items; sheet = e.store.sheet; marks = e.store.marks; state = e.state; used = e.used } };

    ghost invariant = { λ e. IsKept R.covers e.store e.users (record { task = e.task.now; tables = e.tables.now; bound = e.bound; decisions = e.decisions.items; starts = e.starts.items; all_steps = e.steps.items; sheet = e.store.sheet; marks = e.store.marks; state = e.state; used = e.used }) };
}

impl<'a, R: Rule + Copy> Engine<'a, R> {
    /// The engine at the root of a bound, closed under the rule.
    pub fn open(
        alloc: Global,
        task: &'a Task,
        tables: &'a Tables,
        bound: u64,
        rule: R,
    ) -> Result<Engine<'a, R>, Memory>
        requires tables { FitsTask task.now tables.now }
        requires bound { bound ≤ 1000000 }
        ensures task { IfOk result (λ e. e.task ≡ task.now) }
        ensures tables { IfOk result (λ e. e.tables ≡ tables.now) }
        ensures bound { IfOk result (λ e. e.bound ≡ bound) }
        ensures decisions { IfOk result (λ e. e.decisions ≡ []) }
        ensures used { IfOk result (λ e. e.used ≡ 0) }
        ensures stands { IfOk result (Stands R.covers) }
    {
        let ctx = Ctx { task, tables };
        let users = users_of_task(alloc, task)?;
        let mut agenda = Agenda::new(alloc, 2, task.actions().len())?;
        let mut steps = Vec::new(alloc);
        let (store, state) = start::<R, Brand>(
            alloc,
            &ctx,
            bound,
            &rule,
            &users,
            &mut agenda,
            &mut steps,
            Blank::new(1),
        )?;
        Ok(Engine {
            alloc,
            task,
            tables,
            rule,
            users,
            agenda,
            bound,
            store,
            decisions: Vec::new(alloc),
            starts: Vec::new(alloc),
            steps,
            state,
            used: 0,
        })
    }

    /// Makes a decision, and closes the sheet. After `Memory` the engine is as it was.
    pub fn decide(&mut self, decision: Decision) -> Result<State, Memory>
        requires alive { self.old.state ≡ Alive }
        requires fits { Fits self.old.sheet decision }
        requires few { length self.old.sheet.tokens < 4200000000 }
        requires used { self.old.used < 2 ^ 64 - 1 }
        ensures ok { IfOk result (λ state. IsDecided self.old decision state self.new) }
        ensures err { OnErr result (self.new ≡ self.old) }
        ensures stands { Stands R.covers self.new }
    {
        self.decisions.reserve(1)?;
        self.starts.reserve(1)?;
        let count = self.store.tokens() as usize + 1;
        self.agenda
            .ready(self.alloc, count, self.task.actions().len())?;
        let ctx = Ctx {
            task: self.task,
            tables: self.tables,
        };
        self.store.reserve(&ctx, &decision)?;
        let start = self.steps.len();
        let state = forward::<R, Brand>(
            &ctx,
            &mut self.store,
            &self.rule,
            &self.users,
            &mut self.agenda,
            &mut self.steps,
            &decision,
            Blank::new(1),
        )?;
        self.decisions.push_reserved(decision);
        self.starts.push_reserved(start);
        self.state = state;
        self.used += 1;
        Ok(state)
    }

    /// Takes the newest decision back. It takes no memory.
    pub fn retract<L: Ledger>(&mut self, steps: &mut Steps<L>) -> bool
        ensures some { result ≡ true → IsRetracted self.old self.new steps.old steps.new }
        ensures none { result ≡ false → (self.old.decisions ≡ []) × (self.new ≡ self.old) }
        ensures stands { Stands R.covers self.new }
    {
        let start = match self.starts.pop() {
            Some(start) => start,
            None => return false,
        };
        let _ = self.decisions.pop();
        self.steps.truncate(start);
        self.store.undo_to(self.starts.len(), steps);
        self.state = State::Alive;
        true
    }

    /// The engine at the root of another bound, with no decision. After `Memory` it is as it was.
    pub fn reopen(&mut self, bound: u64) -> Result<(), Memory>
        requires bound { bound ≤ 1000000 }
        requires used { self.old.used < 2 ^ 64 - 1 }
        ensures ok { OnOk result (IsReopened self.old bound self.new) }
        ensures err { OnErr result (self.new ≡ self.old) }
        ensures stands { Stands R.covers self.new }
    {
        let ctx = Ctx {
            task: self.task,
            tables: self.tables,
        };
        self.agenda.ready(self.alloc, 2, self.task.actions().len())?;
        let mut steps = Vec::new(self.alloc);
        let (store, state) = start::<R, Brand>(
            self.alloc,
            &ctx,
            bound,
            &self.rule,
            &self.users,
            &mut self.agenda,
            &mut steps,
            Blank::new(1),
        )?;
        self.store = store;
        self.state = state;
        self.steps = steps;
        self.decisions.clear();
        self.starts.clear();
        self.bound = bound;
        self.used += 1;
        Ok(())
    }

    /// The steps of the newest decision or, where none stands, of the opening or newest reopening.
    pub fn steps(&self) -> &[Step]
        ensures { IsReached self.now.state R.covers self.now.task self.now.tables self.now.bound self.now.decisions result.now self.now.sheet }
    {
        let from = last_start(&self.starts);
        &self.steps[from..]
    }

    /// How many decisions and reopenings were answered.
    pub fn used(&self) -> u64
        ensures { result ≡ self.now.used }
    {
        self.used
    }

    /// The task and the tables.
    pub fn ctx(&self) -> Ctx<'a>
        ensures task { result.task.now ≡ self.now.task }
        ensures tables { result.tables.now ≡ self.now.tables }
    {
        Ctx {
            task: self.task,
            tables: self.tables,
        }
    }

    /// Whether the sheet is dead.
    pub fn state(&self) -> State
        ensures state { result ≡ self.now.state }
        ensures stands { Stands R.covers self.now }
    {
        self.state
    }

    /// The store.
    pub fn store(&self) -> &Store
        ensures sheet { result.now.sheet ≡ self.now.sheet }
        ensures lent { IsLent self.now.task self.now.tables result.now }
        ensures stands { Stands R.covers self.now }
    {
        &self.store
    }

    /// The standing decisions.
    pub fn decisions(&self) -> &[Decision]
        ensures { result.now ≡ self.now.decisions }
    {
        self.decisions.as_slice()
    }
}
