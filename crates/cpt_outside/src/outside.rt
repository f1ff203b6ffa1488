//! Rules 10 to 13: the union.

ghost use Rattle.std.specs.Prelude.{◌≡◌, ◌≢◌, ◌∷◌, ◌<◌, [], ℕ, true, false, MatchBool, MatchOption, All, Contains, length};
ghost use Rattle.cpt_tables.specs.Admissible.{nth_action};
ghost use Rattle.cpt_tables.specs.Spans.{◌≤ˢ◌, IsBelow};
ghost use Rattle.cpt_sheet.specs.declared.data.Cand.TheVariants.{Tok, Out};
ghost use Rattle.cpt_sheet.specs.View.{kind_of, cands, has, lo};
ghost use Rattle.cpt_sheet.specs.Gaps.{CanPrecede, IsImpossibleBeside};
ghost use Rattle.cpt_sheet.specs.Roles.{needs_of, deletes_of, Deletes};
ghost use Rattle.cpt_calculus.specs.Rules.{IsToken, IsStep13};
ghost use Rattle.cpt_proposal.specs.Gains.{HasStep12After, HasStep12Ahead, IsApart, HasStep11After, HasStep11Ahead, HasStep10};
ghost use Rattle.cpt_steps.specs.Landing.{IsClosedAt};
ghost use Rattle.cpt_proposal.specs.Least.{IsLeast};
ghost use Rattle.cpt_index.specs.Lists.{Lists, IsOffer, IsConsumer, IsNeed, IsRival};
ghost use Rattle.cpt_proposal.specs.Lent.{CanPropose};
ghost use Rattle.cpt_store.specs.Proposals.{IsProposed};
ghost use Rattle.cpt_outside.specs.NoStep.{outside_rules, IsPeaceful, IsPeacefulFor, is_source, source_arrival, ReachesOut, IsReached, HasPartner, IsNoPartner, IsMatched, IsMatchedEach, AreMatched, IsErased};

use crate::limits::{propose11, propose12};
use crate::mutex::propose13;
use crate::sources::propose10;
use cpt_sheet::{Cand, Step};
use cpt_store::{Ctx, Rule, Store, Subject, can_wake};

fn propose_out(ctx: &Ctx, store: &Store, a: u32) -> Option<Step>
    requires { CanPropose ctx.now.task.now ctx.now.tables.now store.now }
    ensures { MatchOption result (IsClosedAt outside_rules ctx.now.task.now ctx.now.tables.now store.now.sheet (Out a)) (IsProposed outside_rules ctx.now.task.now ctx.now.tables.now store.now.sheet (Out a)) }
{
    if let Some(step) = propose10(ctx, store, a) {
        return Some(step);
    }
    if let Some(step) = propose12(ctx, store, a) {
        return Some(step);
    }
    if let Some(step) = propose11(ctx, store, a) {
        return Some(step);
    }
    None
}

/// Rules 10 to 13.
#[derive(Clone, Copy)]
pub struct OutsideRules;

impl Rule for OutsideRules {
    ghost use Rattle.cpt_calculus.proofs.Monotone.{step_mono};

    ghost covers = { 10 ∷ 11 ∷ 12 ∷ 13 ∷ [] };

    ghost monotone = { λ t b above below step o h live legal. step_mono t b above below h live step legal };

    fn propose(&self, ctx: &Ctx, store: &Store, subject: Subject) -> Option<Step> {
        match subject {
            Cand::Tok(x) => propose13(ctx, store, x),
            Cand::Out(a) => propose_out(ctx, store, a),
        }
    }

    fn wakes(&self, ctx: &Ctx, store: &Store, step: &Step, subject: Subject) -> bool {
        can_wake(ctx, store, step, subject)
    }
}
