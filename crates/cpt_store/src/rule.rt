//! What a rule is.

ghost use Rattle.std.specs.Prelude.{◌≡◌, ◌<◌, ◌≤◌, ◌^◌, ℕ, List, false, length, MatchOption};

use crate::store::{Ctx, Store, Subject};
use cpt_sheet::Step;

/// Some of the thirteen rules.
pub trait Rule {
    ghost use Rattle.cpt_sheet.specs.Live.{IsLive};
    ghost use Rattle.cpt_calculus.specs.Closing.{IsMonotone};
    ghost use Rattle.cpt_steps.specs.Landing.{IsClosedAt, IsThere};
    ghost use Rattle.cpt_waking.specs.Waking.{StaysClosed};
    ghost use Rattle.cpt_store.specs.Stores.{IsLent};
    ghost use Rattle.cpt_store.specs.Proposals.{IsProposed};

    /// The numbers of the rules.
    ghost covers: { List ℕ };

    /// A legal step of these rules that lands at the subject, with its very value; None where there is none.
    fn propose(&self, ctx: &Ctx, store: &Store, subject: Subject) -> Option<Step>
        requires lent { IsLent ctx.now.task.now ctx.now.tables.now store.now }
        requires live { IsLive store.now.sheet }
        requires there { IsThere ctx.now.task.now store.now.sheet subject }
        ensures { MatchOption result (IsClosedAt covers ctx.now.task.now ctx.now.tables.now store.now.sheet subject) (IsProposed covers ctx.now.task.now ctx.now.tables.now store.now.sheet subject) };

    /// Whether the step may have given the subject a legal step of these rules.
    fn wakes(&self, ctx: &Ctx, store: &Store, step: &Step, subject: Subject) -> bool
        requires lent { IsLent ctx.now.task.now ctx.now.tables.now store.now }
        requires live { IsLive store.now.sheet }
        requires there { IsThere ctx.now.task.now store.now.sheet subject }
        ensures { result ≡ false → StaysClosed covers ctx.now.task.now ctx.now.tables.now store.now.sheet step.now subject };

    ghost monotone: { IsMonotone covers };
}

/// The rules of both.
#[derive(Clone, Copy)]
pub struct Both<A, B> {
    pub first: A,
    pub second: B,
}

impl<A: Rule, B: Rule> Rule for Both<A, B> {
    ghost use Rattle.std.specs.Prelude.{◌++◌};
    ghost use Rattle.cpt_waking.proofs.RuleLemmas.{monotone_both};

    ghost covers = { A.covers ++ B.covers };

    ghost monotone = { monotone_both A.covers B.covers A.monotone B.monotone };

    fn propose(&self, ctx: &Ctx, store: &Store, subject: Subject) -> Option<Step> {
        match self.first.propose(ctx, store, subject) {
            Some(step) => Some(step),
            None => self.second.propose(ctx, store, subject),
        }
    }

    fn wakes(&self, ctx: &Ctx, store: &Store, step: &Step, subject: Subject) -> bool {
        if self.first.wakes(ctx, store, step, subject) {
            return true;
        }
        self.second.wakes(ctx, store, step, subject)
    }
}
