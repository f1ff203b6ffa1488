//! Steps until no one has any.

ghost use Rattle.std.specs.Prelude.{◌≡◌, ◌+◌, ◌<◌, ◌≤◌, ◌∷◌, [], true, length, IfOk, OnOk, OnErr};
ghost use Rattle.cpt_sheet.specs.Live.{IsLive};
ghost use Rattle.cpt_store.specs.Proposals.{IsProposed};
ghost use Rattle.cpt_sheet.specs.Formed.{IsFormed};
ghost use Rattle.cpt_sheet.specs.Gaps.{FitsTask};
ghost use Rattle.cpt_calculus.specs.Decisions.{applied, Fits};
ghost use Rattle.cpt_calculus.specs.Root.{root_of};
ghost use Rattle.cpt_store.specs.Stores.{IsLent, IsReady, IsSpent, KeepsMarks};
ghost use Rattle.cpt_agenda.specs.Agendas.{IsIdle};
ghost use Rattle.cpt_agenda.specs.Users.{AreUsersOf};
ghost use Rattle.cpt_engine.specs.declared.state.State.TheVariants.{Alive};
ghost use Rattle.cpt_engine.specs.Running.{HasGrown, HasLed, HasMark, IsAdvanced, IsAfter, IsRunning, IsSettledAs, IsTurned, work};

use crate::state::State;
use cpt_agenda::{Agenda, Users, fill, stir, wake};
use cpt_sheet::{Cand, Decision, Step};
use cpt_store::{Ctx, Rule, Store};
use cpt_task::{Memory, Steps};
use std::alloc::Global;
use std::sync::ledger::{Blank, Ledger};

/// Makes a step that is proposed at a subject, and puts on the agenda whom it wakes.
fn advance<R: Rule, L: Ledger>(
    ctx: &Ctx,
    store: &mut Store,
    rule: &R,
    users: &Users,
    agenda: &mut Agenda,
    steps: &mut Vec<Step>,
    ticks: &mut Steps<L>,
    subject: Cand,
    step: Step,
) -> Result<State, Memory>
    requires task { store.old.task ≡ ctx.now.task.now }
    requires users { AreUsersOf ctx.now.task.now users.now }
    requires running { IsRunning R.covers ctx.now.task.now ctx.now.tables.now store.old.sheet agenda.old (subject ∷ agenda.old.waiting) }
    requires live { IsLive store.old.sheet }
    requires proposal { IsProposed R.covers ctx.now.task.now ctx.now.tables.now store.old.sheet subject step }
    requires spent { IsSpent store.old }
    ensures task { store.new.task ≡ ctx.now.task.now }
    ensures advanced { IfOk result (λ state. IsAdvanced state R.covers ctx.now.task.now ctx.now.tables.now subject store.old.sheet store.new.sheet agenda.old agenda.new) }
    ensures led { OnOk result (HasLed R.covers ctx.now.task.now ctx.now.tables.now store.old.sheet store.new.sheet steps.old.items steps.new.items) }
    ensures grown { HasGrown steps.old.items steps.new.items }
    ensures marks { KeepsMarks store.old.marks store.new.marks }
    ensures spent { IsSpent store.new }
{
    steps.push(step)?;
    store.narrow(&step, ticks);
    if store.dead_at(subject) {
        return Ok(State::Dead);
    }
    wake(ctx, store, rule, users, &step, agenda);
    Ok(State::Alive)
}

/// Makes the steps of one subject, until it has none.
fn pursue<R: Rule, L: Ledger>(
    ctx: &Ctx,
    store: &mut Store,
    rule: &R,
    users: &Users,
    agenda: &mut Agenda,
    steps: &mut Vec<Step>,
    ticks: &mut Steps<L>,
    subject: Cand,
) -> Result<State, Memory>
    requires task { store.old.task ≡ ctx.now.task.now }
    requires users { AreUsersOf ctx.now.task.now users.now }
    requires running { IsRunning R.covers ctx.now.task.now ctx.now.tables.now store.old.sheet agenda.old (subject ∷ agenda.old.waiting) }
    requires live { IsLive store.old.sheet }
    requires spent { IsSpent store.old }
    ensures task { store.new.task ≡ ctx.now.task.now }
    ensures turned { IfOk result (λ state. IsTurned state R.covers ctx.now.task.now ctx.now.tables.now store.new.sheet agenda.new (work store.old.sheet agenda.old.room (subject ∷ agenda.old.waiting))) }
    ensures led { OnOk result (HasLed R.covers ctx.now.task.now ctx.now.tables.now store.old.sheet store.new.sheet steps.old.items steps.new.items) }
    ensures grown { HasGrown steps.old.items steps.new.items }
    ensures marks { KeepsMarks store.old.marks store.new.marks }
    ensures spent { IsSpent store.new }
{
    while let Some(step) = rule.propose(ctx, store, subject) {
        match advance(ctx, store, rule, users, agenda, steps, ticks, subject, step) {
            Ok(State::Alive) => {}
            Ok(State::Dead) => return Ok(State::Dead),
            Err(e) => return Err(e),
        }
    }
    Ok(State::Alive)
}

/// Makes steps until no one on the agenda is left, or the sheet is dead.
fn run<R: Rule, L: Ledger>(
    ctx: &Ctx,
    store: &mut Store,
    rule: &R,
    users: &Users,
    agenda: &mut Agenda,
    steps: &mut Vec<Step>,
    ticks: &mut Steps<L>,
) -> Result<State, Memory>
    requires task { store.old.task ≡ ctx.now.task.now }
    requires users { AreUsersOf ctx.now.task.now users.now }
    requires running { IsRunning R.covers ctx.now.task.now ctx.now.tables.now store.old.sheet agenda.old agenda.old.waiting }
    requires live { IsLive store.old.sheet }
    requires spent { IsSpent store.old }
    ensures task { store.new.task ≡ ctx.now.task.now }
    ensures settled { IfOk result (λ state. IsSettledAs state R.covers ctx.now.task.now ctx.now.tables.now store.new.sheet) }
    ensures led { OnOk result (HasLed R.covers ctx.now.task.now ctx.now.tables.now store.old.sheet store.new.sheet steps.old.items steps.new.items) }
    ensures grown { HasGrown steps.old.items steps.new.items }
    ensures marks { KeepsMarks store.old.marks store.new.marks }
    ensures spent { IsSpent store.new }
{
    while let Some(subject) = agenda.next() {
        match pursue(ctx, store, rule, users, agenda, steps, ticks, subject) {
            Ok(State::Alive) => {}
            Ok(State::Dead) => return Ok(State::Dead),
            Err(e) => return Err(e),
        }
    }
    Ok(State::Alive)
}

/// Makes steps from the sheet after a decision at a closed one, until it is closed or dead. No one waits at first.
fn settle<R: Rule, L: Ledger>(
    ctx: &Ctx,
    store: &mut Store,
    rule: &R,
    users: &Users,
    agenda: &mut Agenda,
    steps: &mut Vec<Step>,
    ticks: &mut Steps<L>,
    decision: &Decision,
) -> Result<State, Memory>
    requires lent { IsLent ctx.now.task.now ctx.now.tables.now store.old }
    requires after { IsAfter R.covers ctx.now.task.now ctx.now.tables.now decision.now store.old.sheet }
    requires few { length store.old.sheet.tokens ≤ 4200000000 }
    requires tokens { length store.old.sheet.tokens ≤ agenda.old.tokens }
    requires acts { length ctx.now.task.now.actions ≤ agenda.old.acts }
    requires idle { IsIdle agenda.old }
    requires users { AreUsersOf ctx.now.task.now users.now }
    requires spent { IsSpent store.old }
    ensures task { store.new.task ≡ ctx.now.task.now }
    ensures settled { IfOk result (λ state. IsSettledAs state R.covers ctx.now.task.now ctx.now.tables.now store.new.sheet) }
    ensures led { OnOk result (HasLed R.covers ctx.now.task.now ctx.now.tables.now store.old.sheet store.new.sheet steps.old.items steps.new.items) }
    ensures grown { HasGrown steps.old.items steps.new.items }
    ensures marks { KeepsMarks store.old.marks store.new.marks }
    ensures spent { IsSpent store.new }
{
    if store.dead() {
        return Ok(State::Dead);
    }
    stir(ctx, store, rule, users, decision, agenda);
    run(ctx, store, rule, users, agenda, steps, ticks)
}

/// Makes a decision at a closed sheet and the steps after it, for which room stands. After `Memory` all is as it was.
pub(crate) fn forward<R: Rule, L: Ledger>(
    ctx: &Ctx,
    store: &mut Store,
    rule: &R,
    users: &Users,
    agenda: &mut Agenda,
    steps: &mut Vec<Step>,
    decision: &Decision,
    blank: Blank,
) -> Result<State, Memory>
    requires lent { IsLent ctx.now.task.now ctx.now.tables.now store.old }
    requires closed { IsSettledAs Alive R.covers ctx.now.task.now ctx.now.tables.now store.old.sheet }
    requires fits { Fits store.old.sheet decision.now }
    requires few { length store.old.sheet.tokens < 4200000000 }
    requires tokens { length store.old.sheet.tokens + 1 ≤ agenda.old.tokens }
    requires acts { length ctx.now.task.now.actions ≤ agenda.old.acts }
    requires idle { IsIdle agenda.old }
    requires users { AreUsersOf ctx.now.task.now users.now }
    requires ready { IsReady ctx.now.task.now store.old decision.now }
    requires markable { store.old.markable ≡ true }
    requires name { blank.name ≡ L.name }
    requires parts { blank.parts ≡ L.parts }
    requires some { 0 < L.parts }
    ensures task { store.new.task ≡ ctx.now.task.now }
    ensures settled { IfOk result (λ state. IsSettledAs state R.covers ctx.now.task.now ctx.now.tables.now store.new.sheet) }
    ensures led { OnOk result (HasLed R.covers ctx.now.task.now ctx.now.tables.now (applied ctx.now.task.now store.old.sheet decision.now) store.new.sheet steps.old.items steps.new.items) }
    ensures marks { OnOk result (HasMark store.old.sheet store.old.marks store.new.marks) }
    ensures err_sheet { OnErr result (store.new.sheet ≡ store.old.sheet) }
    ensures err_marks { OnErr result (store.new.marks ≡ store.old.marks) }
    ensures err_steps { OnErr result (steps.new.items ≡ steps.old.items) }
{
    let mut ticks = Steps::<L>::new(blank);
    let start = steps.len();
    let mark = store.mark();
    store.apply(ctx, decision, &mut ticks);
    match settle(ctx, store, rule, users, agenda, steps, &mut ticks, decision) {
        Ok(state) => Ok(state),
        Err(e) => {
            store.undo_to(mark, &mut ticks);
            steps.truncate(start);
            Err(e)
        }
    }
}

/// Makes the steps of all that are there, until the sheet is closed or dead. No one waits at first.
fn close<R: Rule, L: Ledger>(
    ctx: &Ctx,
    store: &mut Store,
    rule: &R,
    users: &Users,
    agenda: &mut Agenda,
    steps: &mut Vec<Step>,
    ticks: &mut Steps<L>,
) -> Result<State, Memory>
    requires lent { IsLent ctx.now.task.now ctx.now.tables.now store.old }
    requires few { length store.old.sheet.tokens ≤ 4200000000 }
    requires tokens { length store.old.sheet.tokens ≤ agenda.old.tokens }
    requires acts { length ctx.now.task.now.actions ≤ agenda.old.acts }
    requires idle { IsIdle agenda.old }
    requires users { AreUsersOf ctx.now.task.now users.now }
    requires spent { IsSpent store.old }
    ensures task { store.new.task ≡ ctx.now.task.now }
    ensures settled { IfOk result (λ state. IsSettledAs state R.covers ctx.now.task.now ctx.now.tables.now store.new.sheet) }
    ensures led { OnOk result (HasLed R.covers ctx.now.task.now ctx.now.tables.now store.old.sheet store.new.sheet steps.old.items steps.new.items) }
    ensures marks { KeepsMarks store.old.marks store.new.marks }
{
    if store.dead() {
        return Ok(State::Dead);
    }
    fill(ctx, store, rule, agenda);
    run(ctx, store, rule, users, agenda, steps, ticks)
}

/// The root sheet of a bound, closed under the rule.
pub(crate) fn start<R: Rule, L: Ledger>(
    alloc: Global,
    ctx: &Ctx,
    bound: u64,
    rule: &R,
    users: &Users,
    agenda: &mut Agenda,
    steps: &mut Vec<Step>,
    blank: Blank,
) -> Result<(Store, State), Memory>
    requires tables { FitsTask ctx.now.task.now ctx.now.tables.now }
    requires bound { bound ≤ 1000000 }
    requires none { steps.old.items ≡ [] }
    requires tokens { 2 ≤ agenda.old.tokens }
    requires acts { length ctx.now.task.now.actions ≤ agenda.old.acts }
    requires idle { IsIdle agenda.old }
    requires users { AreUsersOf ctx.now.task.now users.now }
    requires name { blank.name ≡ L.name }
    requires parts { blank.parts ≡ L.parts }
    requires some { 0 < L.parts }
    ensures task { IfOk result (λ p. p.0.task ≡ ctx.now.task.now) }
    ensures settled { IfOk result (λ p. IsSettledAs p.1 R.covers ctx.now.task.now ctx.now.tables.now p.0.sheet) }
    ensures led { IfOk result (λ p. HasLed R.covers ctx.now.task.now ctx.now.tables.now (root_of ctx.now.task.now ctx.now.tables.now bound) p.0.sheet [] steps.new.items) }
    ensures marks { IfOk result (λ p. p.0.marks ≡ []) }
    ensures formed { OnOk result (IsFormed ctx.now.task.now (root_of ctx.now.task.now ctx.now.tables.now bound)) }
{
    let mut ticks = Steps::<L>::new(blank);
    let mut store = Store::root(alloc, ctx, bound)?;
    let state = close(ctx, &mut store, rule, users, agenda, steps, &mut ticks)?;
    Ok((store, state))
}
