//! Rules 11 and 12: outside actions against tokens.

ghost use Rattle.std.specs.Prelude.{◌≡◌, ◌≢◌, ◌∷◌, ◌<◌, [], ℕ, true, false, MatchBool, MatchOption, All, Contains, length};
ghost use Rattle.cpt_tables.specs.Admissible.{nth_action};
ghost use Rattle.cpt_tables.specs.Spans.{◌≤ˢ◌, IsBelow};
ghost use Rattle.cpt_sheet.specs.declared.data.Cand.TheVariants.{Tok, Out};
ghost use Rattle.cpt_sheet.specs.View.{kind_of, cands, has, lo};
ghost use Rattle.cpt_sheet.specs.Gaps.{CanPrecede, IsImpossibleBeside};
ghost use Rattle.cpt_sheet.specs.Roles.{needs_of, deletes_of, Deletes};
ghost use Rattle.cpt_calculus.specs.Rules.{IsToken, IsStep13};
ghost use Rattle.cpt_proposal.specs.Gains.{HasStep12After, HasStep12Ahead, IsApart, HasStep11After, HasStep11Ahead, HasStep10};
ghost use Rattle.cpt_steps.specs.Landing.{IsClosedAt};
ghost use Rattle.cpt_proposal.specs.Least.{IsLeast};
ghost use Rattle.cpt_index.specs.Lists.{Lists, IsOffer, IsConsumer, IsNeed, IsRival};
ghost use Rattle.cpt_proposal.specs.Lent.{CanPropose};
ghost use Rattle.cpt_store.specs.Proposals.{IsProposed};
ghost use Rattle.cpt_outside.specs.NoStep.{outside_rules, IsPeaceful, IsPeacefulFor, is_source, source_arrival, ReachesOut, IsReached, HasPartner, IsNoPartner, IsMatched, IsMatchedEach, AreMatched, IsErased};

use cpt_proposal::{deletes_of, is_sooner};
use cpt_sheet::{Cand, Kind, Step};
use cpt_store::{Ctx, Store};
use cpt_task::Span;

fn after12(ctx: &Ctx, store: &Store, a: u32, x: u32) -> Option<Step>
    requires lent { CanPropose ctx.now.task.now ctx.now.tables.now store.now }
    requires rival { IsRival ctx.now.task.now store.now.sheet a x }
    ensures { MatchOption result (HasStep12After ctx.now.task.now ctx.now.tables.now store.now.sheet x a → ⊥) (IsProposed outside_rules ctx.now.task.now ctx.now.tables.now store.now.sheet (Out a)) }
{
    if store.can_precede(ctx, Cand::Out(a), Cand::Tok(x)) {
        return None;
    }
    let to = store.arrives(ctx, Cand::Tok(x), Cand::Out(a));
    if is_sooner(store.span_at(Cand::Out(a)).lo, to) {
        Some(Step::R12After { tok: x, act: a, to })
    } else {
        None
    }
}

fn ahead12(ctx: &Ctx, store: &Store, a: u32, x: u32) -> Option<Step>
    requires lent { CanPropose ctx.now.task.now ctx.now.tables.now store.now }
    requires rival { IsRival ctx.now.task.now store.now.sheet a x }
    ensures { MatchOption result (HasStep12Ahead ctx.now.task.now ctx.now.tables.now store.now.sheet x a → ⊥) (IsProposed outside_rules ctx.now.task.now ctx.now.tables.now store.now.sheet (Out a)) }
{
    if store.can_precede(ctx, Cand::Tok(x), Cand::Out(a)) {
        return None;
    }
    let to = store.must_begin_by(ctx, Cand::Out(a), Cand::Tok(x));
    if is_sooner(to, Span::At(store.span_at(Cand::Out(a)).hi)) {
        Some(Step::R12Ahead { tok: x, act: a, to })
    } else {
        None
    }
}

fn part12(ctx: &Ctx, store: &Store, a: u32, x: u32) -> Option<Step>
    requires lent { CanPropose ctx.now.task.now ctx.now.tables.now store.now }
    requires rival { IsRival ctx.now.task.now store.now.sheet a x }
    ensures { MatchOption result (IsApart ctx.now.task.now ctx.now.tables.now store.now.sheet x a) (IsProposed outside_rules ctx.now.task.now ctx.now.tables.now store.now.sheet (Out a)) }
{
    if let Some(step) = after12(ctx, store, a, x) {
        return Some(step);
    }
    if let Some(step) = ahead12(ctx, store, a, x) {
        return Some(step);
    }
    None
}

fn part12_in(ctx: &Ctx, store: &Store, a: u32, list: &[u32]) -> Option<Step>
    requires lent { CanPropose ctx.now.task.now ctx.now.tables.now store.now }
    requires rivals { All (IsRival ctx.now.task.now store.now.sheet a) list.now }
    ensures { MatchOption result (All (λ x. IsApart ctx.now.task.now ctx.now.tables.now store.now.sheet x a) list.now) (IsProposed outside_rules ctx.now.task.now ctx.now.tables.now store.now.sheet (Out a)) }
{
    list.iter().find_map(|x| part12(ctx, store, a, *x))
}

/// Keeps `Out a` apart from the tokens that interfere with it.
pub fn propose12(ctx: &Ctx, store: &Store, a: u32) -> Option<Step>
    requires lent { CanPropose ctx.now.task.now ctx.now.tables.now store.now }
    ensures { MatchOption result ((x : ℕ) → IsApart ctx.now.task.now ctx.now.tables.now store.now.sheet x a) (IsProposed outside_rules ctx.now.task.now ctx.now.tables.now store.now.sheet (Out a)) }
{
    let list = store.rivals(a);
    if let Some(step) = part12_in(ctx, store, a, list) {
        return Some(step);
    }
    None
}

fn after11(ctx: &Ctx, store: &Store, a: u32, p: u32, x: u32, y: u32) -> Option<Step>
    requires lent { CanPropose ctx.now.task.now ctx.now.tables.now store.now }
    requires deletes { IsErased ctx.now.task.now a p }
    requires one { IsToken (cands store.now.sheet x p) y }
    ensures { MatchOption result ((z : ℕ) → HasStep11After ctx.now.task.now ctx.now.tables.now store.now.sheet x p a z → ⊥) (IsProposed outside_rules ctx.now.task.now ctx.now.tables.now store.now.sheet (Out a)) }
{
    if store.can_precede(ctx, Cand::Out(a), Cand::Tok(y)) {
        return None;
    }
    let to = store.arrives(ctx, Cand::Tok(x), Cand::Out(a));
    if is_sooner(store.span_at(Cand::Out(a)).lo, to) {
        Some(Step::R11After {
            tok: x,
            pre: p,
            act: a,
            to,
        })
    } else {
        None
    }
}

fn ahead11(ctx: &Ctx, store: &Store, a: u32, p: u32, x: u32, y: u32) -> Option<Step>
    requires lent { CanPropose ctx.now.task.now ctx.now.tables.now store.now }
    requires deletes { IsErased ctx.now.task.now a p }
    requires one { IsToken (cands store.now.sheet x p) y }
    ensures { MatchOption result ((z : ℕ) → HasStep11Ahead ctx.now.task.now ctx.now.tables.now store.now.sheet x p a z → ⊥) (IsProposed outside_rules ctx.now.task.now ctx.now.tables.now store.now.sheet (Out a)) }
{
    if store.can_precede(ctx, Cand::Tok(x), Cand::Out(a)) {
        return None;
    }
    let to = store.must_begin_by(ctx, Cand::Out(a), Cand::Tok(y));
    if is_sooner(to, Span::At(store.span_at(Cand::Out(a)).hi)) {
        Some(Step::R11Ahead {
            tok: x,
            pre: p,
            act: a,
            to,
        })
    } else {
        None
    }
}

fn clear_one(ctx: &Ctx, store: &Store, a: u32, p: u32, x: u32, y: u32) -> Option<Step>
    requires lent { CanPropose ctx.now.task.now ctx.now.tables.now store.now }
    requires deletes { IsErased ctx.now.task.now a p }
    requires one { IsToken (cands store.now.sheet x p) y }
    ensures { MatchOption result (IsPeaceful ctx.now.task.now ctx.now.tables.now store.now.sheet a p x) (IsProposed outside_rules ctx.now.task.now ctx.now.tables.now store.now.sheet (Out a)) }
{
    if let Some(step) = after11(ctx, store, a, p, x, y) {
        return Some(step);
    }
    if let Some(step) = ahead11(ctx, store, a, p, x, y) {
        return Some(step);
    }
    None
}

#[tactic(auto, using(crate::proofs::LimitLemmas::peaceful_open))]
fn clear(ctx: &Ctx, store: &Store, a: u32, p: u32, x: u32) -> Option<Step>
    requires lent { CanPropose ctx.now.task.now ctx.now.tables.now store.now }
    requires deletes { IsErased ctx.now.task.now a p }
    ensures { MatchOption result (IsPeaceful ctx.now.task.now ctx.now.tables.now store.now.sheet a p x) (IsProposed outside_rules ctx.now.task.now ctx.now.tables.now store.now.sheet (Out a)) }
{
    match store.supplier(x, p) {
        Some(y) => clear_one(ctx, store, a, p, x, y),
        None => None,
    }
}

fn clear_in(ctx: &Ctx, store: &Store, a: u32, p: u32, list: &[u32]) -> Option<Step>
    requires lent { CanPropose ctx.now.task.now ctx.now.tables.now store.now }
    requires deletes { IsErased ctx.now.task.now a p }
    ensures { MatchOption result (All (IsPeaceful ctx.now.task.now ctx.now.tables.now store.now.sheet a p) list.now) (IsProposed outside_rules ctx.now.task.now ctx.now.tables.now store.now.sheet (Out a)) }
{
    list.iter().find_map(|x| clear(ctx, store, a, p, *x))
}

fn clear_for(ctx: &Ctx, store: &Store, a: u32, p: u32) -> Option<Step>
    requires lent { CanPropose ctx.now.task.now ctx.now.tables.now store.now }
    requires deletes { IsErased ctx.now.task.now a p }
    ensures { MatchOption result (IsPeacefulFor ctx.now.task.now ctx.now.tables.now store.now.sheet a p) (IsProposed outside_rules ctx.now.task.now ctx.now.tables.now store.now.sheet (Out a)) }
{
    let list = store.consumers(p);
    if let Some(step) = clear_in(ctx, store, a, p, list) {
        return Some(step);
    }
    None
}

fn clears_in(ctx: &Ctx, store: &Store, a: u32, list: &[u32]) -> Option<Step>
    requires lent { CanPropose ctx.now.task.now ctx.now.tables.now store.now }
    requires deletes { All (IsErased ctx.now.task.now a) list.now }
    ensures { MatchOption result (All (IsPeacefulFor ctx.now.task.now ctx.now.tables.now store.now.sheet a) list.now) (IsProposed outside_rules ctx.now.task.now ctx.now.tables.now store.now.sheet (Out a)) }
{
    list.iter().find_map(|p| clear_for(ctx, store, a, *p))
}

/// Keeps `Out a` clear of the tokens that it would leave without supply.
pub fn propose11(ctx: &Ctx, store: &Store, a: u32) -> Option<Step>
    requires lent { CanPropose ctx.now.task.now ctx.now.tables.now store.now }
    ensures { MatchOption result (All (IsPeacefulFor ctx.now.task.now ctx.now.tables.now store.now.sheet a) (deletes_of ctx.now.task.now (Kind.Act a))) (IsProposed outside_rules ctx.now.task.now ctx.now.tables.now store.now.sheet (Out a)) }
{
    let list = deletes_of(ctx.task, Kind::Act(a));
    clears_in(ctx, store, a, list)
}
