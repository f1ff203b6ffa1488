//! Whom a step wakes on two chains that share nothing.

ghost use Rattle.std.specs.Prelude.{◌≡◌, ◌<◌};
ghost use Rattle.cpt_task.specs.Shape.{TaskShape};
ghost use Rattle.cpt_tables.specs.declared.tables.Tables.{Tables};
ghost use Rattle.cpt_sheet.specs.Gaps.{FitsTask};
ghost use Rattle.cpt_store.specs.Stores.{IsLent};

use cpt_scan::{ALL_RULES, CHAINS, decide_in, narrow_in, step_at, task_of, wakes, zero_tables_of};
use cpt_sheet::Cand::{Out, Tok};
use cpt_sheet::{Decision, Step};
use cpt_store::{Ctx, Store};
use cpt_task::Span::At;
use cpt_task::{Steps, Task};
use std::alloc::Global;
use std::marker::Brand;
use std::sync::ledger::{Blank, Ledger};
use std::test::Fail;

/// The last action of the first chain supplies the end.
const FIRST_END: Decision = Decision::Bring {
    tok: 1,
    pre: 1,
    act: 1,
};

/// The last action of the second chain supplies the end.
const SECOND_END: Decision = Decision::Bring {
    tok: 1,
    pre: 3,
    act: 3,
};

/// The last action of the first chain waits for the action that supplies it.
const WAITS: Step = Step::R4 {
    tok: 2,
    pre: 0,
    to: At(1),
};

/// Whether the step, which was just made, wakes its own chain and nobody of the other.
fn wakes_its_own(ctx: &Ctx, store: &Store, step: &Step) -> bool
    requires { IsLent ctx.now.task.now ctx.now.tables.now store.now }
{
    let others = [Tok(3), Out(2), Out(3)];
    let own = [Tok(1), Tok(2)];
    own.iter().all(|c| wakes(ctx, store, &ALL_RULES, step, *c))
        && !others
            .iter()
            .any(|c| wakes(ctx, store, &ALL_RULES, step, *c))
}

/// Whether the last action of the first chain is proposed to wait, and that wakes nobody in the other chain.
fn keeps_apart<L: Ledger>(ctx: &Ctx, store: &mut Store, ticks: &mut Steps<L>) -> bool
    requires { IsLent ctx.now.task.now ctx.now.tables.now store.old }
{
    match step_at(ctx, store, &ALL_RULES, Tok(2)) {
        Some(step) => {
            narrow_in(ctx, store, &step, ticks);
            step == WAITS && wakes_its_own(ctx, store, &step)
        }
        None => false,
    }
}

fn decided_apart<L: Ledger>(ctx: &Ctx, store: &mut Store, blank: Blank) -> Result<bool, Fail>
    requires lent { IsLent ctx.now.task.now ctx.now.tables.now store.old }
    requires name { blank.name ≡ L.name }
    requires parts { blank.parts ≡ L.parts }
    requires some { 0 < L.parts }
{
    let mut ticks = Steps::<L>::new(blank);
    decide_in(ctx, store, &FIRST_END, &mut ticks)?;
    decide_in(ctx, store, &SECOND_END, &mut ticks)?;
    Ok(keeps_apart(ctx, store, &mut ticks))
}

/// A store of the two chains.
trait TwoChains {
    // What holds of it beside the task and the tables.
    ghost stands: { Self → TaskShape → Tables → Type 0 };

    /// Makes both decisions. Whether the step of one chain wakes nobody of the other.
    fn is_apart(&mut self, ctx: &Ctx) -> Result<bool, Fail>
        requires { stands self.old ctx.now.task.now ctx.now.tables.now };
}

impl TwoChains for Store {
    ghost stands = { λ s t b. IsLent t b s };

    fn is_apart(&mut self, ctx: &Ctx) -> Result<bool, Fail> {
        decided_apart::<Brand>(ctx, self, Blank::new(1))
    }
}

/// The same of a store that nobody needs any more.
fn ends_apart<S: TwoChains + Drop>(opened: S, ctx: &Ctx) -> Result<bool, Fail>
    requires { S.stands opened ctx.now.task.now ctx.now.tables.now }
{
    let mut store = opened;
    store.is_apart(ctx)
}

fn apart_at_root(alloc: Global, ctx: &Ctx) -> Result<bool, Fail>
    requires { FitsTask ctx.now.task.now ctx.now.tables.now }
{
    match Store::root(alloc, ctx, 9) {
        Ok(store) => ends_apart(store, ctx),
        Err(_) => Err("no memory")?,
    }
}

fn apart_over_zeros(alloc: Global, task: &Task) -> Result<bool, Fail> {
    let tables = zero_tables_of(alloc, task)?;
    let ctx = Ctx {
        task,
        tables: &tables,
    };
    apart_at_root(alloc, &ctx)
}

fn two_chains_are_apart(alloc: Global) -> Result<bool, Fail> {
    let task = task_of(alloc, CHAINS)?;
    apart_over_zeros(alloc, &task)
}

#[test]
fn a_step_in_one_chain_wakes_nobody_in_the_other(rt: HostRuntime) -> Result<(), Fail> {
    assert!(rt; two_chains_are_apart(rt.alloc())?);
    Ok(())
}
