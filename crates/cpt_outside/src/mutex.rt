//! Rule 13: candidates that go with no candidate for another precondition.

ghost use Rattle.std.specs.Prelude.{◌≡◌, ◌≢◌, ◌∷◌, ◌<◌, [], ℕ, true, false, MatchBool, MatchOption, All, Contains, length};
ghost use Rattle.cpt_tables.specs.Admissible.{nth_action};
ghost use Rattle.cpt_tables.specs.Spans.{◌≤ˢ◌, IsBelow};
ghost use Rattle.cpt_sheet.specs.declared.data.Cand.TheVariants.{Tok, Out};
ghost use Rattle.cpt_sheet.specs.View.{kind_of, cands, has, lo};
ghost use Rattle.cpt_sheet.specs.Gaps.{CanPrecede, IsImpossibleBeside};
ghost use Rattle.cpt_sheet.specs.Roles.{needs_of, deletes_of, Deletes};
ghost use Rattle.cpt_calculus.specs.Rules.{IsToken, IsStep13};
ghost use Rattle.cpt_proposal.specs.Gains.{HasStep12After, HasStep12Ahead, IsApart, HasStep11After, HasStep11Ahead, HasStep10};
ghost use Rattle.cpt_steps.specs.Landing.{IsClosedAt};
ghost use Rattle.cpt_proposal.specs.Least.{IsLeast};
ghost use Rattle.cpt_index.specs.Lists.{Covers, Lists, IsOffer, IsConsumer, IsNeed, IsRival};
ghost use Rattle.cpt_proposal.specs.Lent.{CanPropose};
ghost use Rattle.cpt_store.specs.Proposals.{IsProposed};
ghost use Rattle.cpt_outside.specs.NoStep.{outside_rules, IsPeaceful, IsPeacefulFor, is_source, source_arrival, ReachesOut, IsReached, HasPartner, IsNoPartner, IsMatched, IsMatchedEach, AreMatched, IsErased};

use cpt_sheet::{Cand, Step};
use cpt_store::{Ctx, Store};

#[tactic(auto, using(crate::proofs::MutexLemmas::no_partner))]
fn is_partner(ctx: &Ctx, store: &Store, x: u32, p: u32, q: u32, c: Cand, d: Cand) -> bool
    requires { CanPropose ctx.now.task.now ctx.now.tables.now store.now }
    ensures { MatchBool result (HasPartner ctx.now.task.now ctx.now.tables.now store.now.sheet x p q c d) (IsNoPartner ctx.now.task.now ctx.now.tables.now store.now.sheet x p q c d) }
{
    if !store.holds(x, q, d) {
        return false;
    }
    if !store.clash(ctx, c, d) {
        return true;
    }
    !store.is_impossible_beside(ctx, p, q, c, d)
}

fn has_partner(ctx: &Ctx, store: &Store, x: u32, p: u32, q: u32, c: Cand, list: &[Cand]) -> bool
    requires { CanPropose ctx.now.task.now ctx.now.tables.now store.now }
    ensures { MatchBool result ((d : Cand) × Contains list.now d × HasPartner ctx.now.task.now ctx.now.tables.now store.now.sheet x p q c d) (All (IsNoPartner ctx.now.task.now ctx.now.tables.now store.now.sheet x p q c) list.now) }
{
    list.iter().any(|d| is_partner(ctx, store, x, p, q, c, *d))
}

fn drop_against(
    ctx: &Ctx,
    store: &Store,
    x: u32,
    p: u32,
    c: Cand,
    q: u32,
    list: &[Cand],
) -> Option<Step>
    requires lent { CanPropose ctx.now.task.now ctx.now.tables.now store.now }
    requires listed { has c (cands store.now.sheet x p) ≡ true }
    requires need { IsNeed store.now.sheet x q }
    requires different { q ≢ p }
    requires lists { Covers store.now.sheet x q list.now }
    ensures { MatchOption result (IsMatched ctx.now.task.now ctx.now.tables.now store.now.sheet x p c q) (IsProposed outside_rules ctx.now.task.now ctx.now.tables.now store.now.sheet (Tok x)) }
{
    if has_partner(ctx, store, x, p, q, c, list) {
        return None;
    }
    Some(Step::R13 {
        tok: x,
        pre: p,
        cand: c,
        other: q,
    })
}

#[tactic(auto, using(cpt_proposal::proofs::ReaderLemmas::covers_one, cpt_proposal::proofs::ReaderLemmas::covers_offers, crate::proofs::MutexLemmas::same_need))]
fn drop_by(ctx: &Ctx, store: &Store, x: u32, p: u32, c: Cand, q: u32) -> Option<Step>
    requires lent { CanPropose ctx.now.task.now ctx.now.tables.now store.now }
    requires listed { has c (cands store.now.sheet x p) ≡ true }
    requires need { IsNeed store.now.sheet x q }
    ensures { MatchOption result (IsMatched ctx.now.task.now ctx.now.tables.now store.now.sheet x p c q) (IsProposed outside_rules ctx.now.task.now ctx.now.tables.now store.now.sheet (Tok x)) }
{
    if q == p {
        return None;
    }
    if let Some(y) = store.supplier(x, q) {
        let one = [Cand::Tok(y)];
        return drop_against(ctx, store, x, p, c, q, &one);
    }
    let list = store.offers(q);
    drop_against(ctx, store, x, p, c, q, list)
}

fn drop_by_in(ctx: &Ctx, store: &Store, x: u32, p: u32, c: Cand, needs: &[u32]) -> Option<Step>
    requires lent { CanPropose ctx.now.task.now ctx.now.tables.now store.now }
    requires listed { has c (cands store.now.sheet x p) ≡ true }
    requires needs { All (IsNeed store.now.sheet x) needs.now }
    ensures { MatchOption result (All (IsMatched ctx.now.task.now ctx.now.tables.now store.now.sheet x p c) needs.now) (IsProposed outside_rules ctx.now.task.now ctx.now.tables.now store.now.sheet (Tok x)) }
{
    needs.iter().find_map(|q| drop_by(ctx, store, x, p, c, *q))
}

fn drop_one(ctx: &Ctx, store: &Store, x: u32, p: u32, needs: &[u32], c: Cand) -> Option<Step>
    requires lent { CanPropose ctx.now.task.now ctx.now.tables.now store.now }
    requires needs { Lists (IsNeed store.now.sheet x) needs.now }
    ensures { MatchOption result (IsMatchedEach ctx.now.task.now ctx.now.tables.now store.now.sheet x p c) (IsProposed outside_rules ctx.now.task.now ctx.now.tables.now store.now.sheet (Tok x)) }
{
    if !store.holds(x, p, c) {
        return None;
    }
    if let Some(step) = drop_by_in(ctx, store, x, p, c, needs) {
        return Some(step);
    }
    None
}

fn drop_in(ctx: &Ctx, store: &Store, x: u32, p: u32, needs: &[u32], list: &[Cand]) -> Option<Step>
    requires lent { CanPropose ctx.now.task.now ctx.now.tables.now store.now }
    requires needs { Lists (IsNeed store.now.sheet x) needs.now }
    ensures { MatchOption result (All (IsMatchedEach ctx.now.task.now ctx.now.tables.now store.now.sheet x p) list.now) (IsProposed outside_rules ctx.now.task.now ctx.now.tables.now store.now.sheet (Tok x)) }
{
    list.iter()
        .find_map(|c| drop_one(ctx, store, x, p, needs, *c))
}

fn drop_from(ctx: &Ctx, store: &Store, x: u32, needs: &[u32], p: u32, list: &[Cand]) -> Option<Step>
    requires lent { CanPropose ctx.now.task.now ctx.now.tables.now store.now }
    requires needs { Lists (IsNeed store.now.sheet x) needs.now }
    requires lists { Covers store.now.sheet x p list.now }
    ensures { MatchOption result (AreMatched ctx.now.task.now ctx.now.tables.now store.now.sheet x p) (IsProposed outside_rules ctx.now.task.now ctx.now.tables.now store.now.sheet (Tok x)) }
{
    if let Some(step) = drop_in(ctx, store, x, p, needs, list) {
        return Some(step);
    }
    None
}

#[tactic(auto, using(cpt_proposal::proofs::ReaderLemmas::covers_one, cpt_proposal::proofs::ReaderLemmas::covers_offers))]
fn drop_for(ctx: &Ctx, store: &Store, x: u32, needs: &[u32], p: u32) -> Option<Step>
    requires lent { CanPropose ctx.now.task.now ctx.now.tables.now store.now }
    requires needs { Lists (IsNeed store.now.sheet x) needs.now }
    ensures { MatchOption result (AreMatched ctx.now.task.now ctx.now.tables.now store.now.sheet x p) (IsProposed outside_rules ctx.now.task.now ctx.now.tables.now store.now.sheet (Tok x)) }
{
    if let Some(y) = store.supplier(x, p) {
        let one = [Cand::Tok(y)];
        return drop_from(ctx, store, x, needs, p, &one);
    }
    let list = store.offers(p);
    drop_from(ctx, store, x, needs, p, list)
}

fn drops_in(ctx: &Ctx, store: &Store, x: u32, needs: &[u32], list: &[u32]) -> Option<Step>
    requires lent { CanPropose ctx.now.task.now ctx.now.tables.now store.now }
    requires needs { Lists (IsNeed store.now.sheet x) needs.now }
    ensures { MatchOption result (All (AreMatched ctx.now.task.now ctx.now.tables.now store.now.sheet x) list.now) (IsProposed outside_rules ctx.now.task.now ctx.now.tables.now store.now.sheet (Tok x)) }
{
    list.iter().find_map(|p| drop_for(ctx, store, x, needs, *p))
}

/// Drops a candidate of `x` that goes with no candidate for another precondition.
pub fn propose13(ctx: &Ctx, store: &Store, x: u32) -> Option<Step>
    requires lent { CanPropose ctx.now.task.now ctx.now.tables.now store.now }
    requires there { x < length store.now.sheet.tokens }
    ensures { MatchOption result (IsClosedAt outside_rules ctx.now.task.now ctx.now.tables.now store.now.sheet (Tok x)) (IsProposed outside_rules ctx.now.task.now ctx.now.tables.now store.now.sheet (Tok x)) }
{
    let list = store.needs(ctx, x);
    if let Some(step) = drops_in(ctx, store, x, list, list) {
        return Some(step);
    }
    None
}
