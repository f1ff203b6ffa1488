//! Rules 8 and 9: who deletes what a token needs.

ghost use Rattle.std.specs.Prelude.{◌≡◌, ◌≢◌, ◌∷◌, ◌<◌, [], ℕ, true, false, MatchBool, MatchOption, All, Contains, length};
ghost use Rattle.cpt_sheet.specs.declared.data.Cand.TheVariants.{Tok, Out};
ghost use Rattle.cpt_sheet.specs.View.{kind_of, cands, has};
ghost use Rattle.cpt_sheet.specs.Gaps.{CanPrecede};
ghost use Rattle.cpt_sheet.specs.Roles.{deletes_of};
ghost use Rattle.cpt_calculus.specs.Rules.{IsStep8, IsToken};
ghost use Rattle.cpt_proposal.specs.Gains.{HasStep9After, HasStep9Ahead};
ghost use Rattle.cpt_steps.specs.Landing.{IsClosedAt};
ghost use Rattle.cpt_index.specs.Lists.{Covers, Lists, IsOffer, IsConsumer, IsDeleter, IsNeed};
ghost use Rattle.cpt_proposal.specs.Lent.{CanPropose};
ghost use Rattle.cpt_store.specs.Proposals.{IsProposed};
ghost use Rattle.cpt_threat.specs.NoStep.{threat_rules, SparesAll, IsUnharmedBy, IsUnharmed, IsNotAheadOf};

use cpt_proposal::deletes_of;
use cpt_sheet::{Cand, Step, is_same};
use cpt_store::{Ctx, Rule, Store, Subject, can_wake};

#[tactic(auto, using(crate::proofs::ThreatLemmas::is_proposed8))]
fn step8(ctx: &Ctx, store: &Store, x: u32, p: u32, d: u32, c: Cand) -> Option<Step>
    requires lent { CanPropose ctx.now.task.now ctx.now.tables.now store.now }
    requires deletes { IsDeleter ctx.now.task.now store.now.sheet p d }
    requires other { d ≢ x }
    requires passed { CanPrecede ctx.now.task.now ctx.now.tables.now store.now.sheet (Tok x) (Tok d) → ⊥ }
    ensures { MatchOption result (IsStep8 ctx.now.task.now ctx.now.tables.now store.now.sheet x p c d → ⊥) (IsProposed threat_rules ctx.now.task.now ctx.now.tables.now store.now.sheet (Tok x)) }
{
    if !store.holds(x, p, c) {
        return None;
    }
    if is_same(Cand::Tok(d), c) {
        return None;
    }
    if store.can_precede(ctx, Cand::Tok(d), c) {
        return None;
    }
    Some(Step::R8 {
        tok: x,
        pre: p,
        cand: c,
        foe: d,
    })
}

fn step8_in(ctx: &Ctx, store: &Store, x: u32, p: u32, d: u32, list: &[Cand]) -> Option<Step>
    requires lent { CanPropose ctx.now.task.now ctx.now.tables.now store.now }
    requires deletes { IsDeleter ctx.now.task.now store.now.sheet p d }
    requires other { d ≢ x }
    requires passed { CanPrecede ctx.now.task.now ctx.now.tables.now store.now.sheet (Tok x) (Tok d) → ⊥ }
    ensures { MatchOption result (All (λ c. IsStep8 ctx.now.task.now ctx.now.tables.now store.now.sheet x p c d → ⊥) list.now) (IsProposed threat_rules ctx.now.task.now ctx.now.tables.now store.now.sheet (Tok x)) }
{
    list.iter().find_map(|c| step8(ctx, store, x, p, d, *c))
}

fn drop_from(ctx: &Ctx, store: &Store, x: u32, p: u32, d: u32, list: &[Cand]) -> Option<Step>
    requires lent { CanPropose ctx.now.task.now ctx.now.tables.now store.now }
    requires deletes { IsDeleter ctx.now.task.now store.now.sheet p d }
    requires other { d ≢ x }
    requires passed { CanPrecede ctx.now.task.now ctx.now.tables.now store.now.sheet (Tok x) (Tok d) → ⊥ }
    requires lists { Covers store.now.sheet x p list.now }
    ensures { MatchOption result (SparesAll ctx.now.task.now ctx.now.tables.now store.now.sheet x p d) (IsProposed threat_rules ctx.now.task.now ctx.now.tables.now store.now.sheet (Tok x)) }
{
    if let Some(step) = step8_in(ctx, store, x, p, d, list) {
        return Some(step);
    }
    None
}

/// Drops a candidate that `d` comes between.
#[tactic(auto, using(crate::proofs::ThreatLemmas::spares_past, cpt_proposal::proofs::ReaderLemmas::covers_one, cpt_proposal::proofs::ReaderLemmas::covers_offers))]
fn drop_for(ctx: &Ctx, store: &Store, x: u32, p: u32, d: u32) -> Option<Step>
    requires lent { CanPropose ctx.now.task.now ctx.now.tables.now store.now }
    requires deletes { IsDeleter ctx.now.task.now store.now.sheet p d }
    requires other { d ≢ x }
    ensures { MatchOption result (SparesAll ctx.now.task.now ctx.now.tables.now store.now.sheet x p d) (IsProposed threat_rules ctx.now.task.now ctx.now.tables.now store.now.sheet (Tok x)) }
{
    if store.can_precede(ctx, Cand::Tok(x), Cand::Tok(d)) {
        return None;
    }
    if let Some(y) = store.supplier(x, p) {
        let one = [Cand::Tok(y)];
        return drop_from(ctx, store, x, p, d, &one);
    }
    let list = store.offers(p);
    drop_from(ctx, store, x, p, d, list)
}

#[tactic(auto, using(crate::proofs::ThreatLemmas::is_proposed9))]
fn step9(ctx: &Ctx, store: &Store, x: u32, p: u32, d: u32, y: u32) -> Option<Step>
    requires lent { CanPropose ctx.now.task.now ctx.now.tables.now store.now }
    requires deletes { IsDeleter ctx.now.task.now store.now.sheet p d }
    requires other { d ≢ x }
    requires one { IsToken (cands store.now.sheet x p) y }
    ensures { MatchOption result (HasStep9After ctx.now.task.now ctx.now.tables.now store.now.sheet x p d → ⊥) (IsProposed threat_rules ctx.now.task.now ctx.now.tables.now store.now.sheet (Tok x)) }
{
    if d == y {
        return None;
    }
    if store.before(x, d) {
        return None;
    }
    if store.can_precede(ctx, Cand::Tok(d), Cand::Tok(y)) {
        return None;
    }
    Some(Step::R9After {
        tok: x,
        pre: p,
        foe: d,
    })
}

/// Posts `x` before `d` where the one token of the list comes before `d`.
fn after_for(ctx: &Ctx, store: &Store, x: u32, p: u32, d: u32) -> Option<Step>
    requires lent { CanPropose ctx.now.task.now ctx.now.tables.now store.now }
    requires deletes { IsDeleter ctx.now.task.now store.now.sheet p d }
    requires other { d ≢ x }
    ensures { MatchOption result (HasStep9After ctx.now.task.now ctx.now.tables.now store.now.sheet x p d → ⊥) (IsProposed threat_rules ctx.now.task.now ctx.now.tables.now store.now.sheet (Tok x)) }
{
    match store.supplier(x, p) {
        Some(y) => step9(ctx, store, x, p, d, y),
        None => None,
    }
}

fn harm_by(ctx: &Ctx, store: &Store, x: u32, p: u32, d: u32) -> Option<Step>
    requires lent { CanPropose ctx.now.task.now ctx.now.tables.now store.now }
    requires deletes { IsDeleter ctx.now.task.now store.now.sheet p d }
    ensures { MatchOption result (IsUnharmedBy ctx.now.task.now ctx.now.tables.now store.now.sheet x p d) (IsProposed threat_rules ctx.now.task.now ctx.now.tables.now store.now.sheet (Tok x)) }
{
    if d == x {
        return None;
    }
    if let Some(step) = drop_for(ctx, store, x, p, d) {
        return Some(step);
    }
    if let Some(step) = after_for(ctx, store, x, p, d) {
        return Some(step);
    }
    None
}

fn harm_in(ctx: &Ctx, store: &Store, x: u32, p: u32, list: &[u32]) -> Option<Step>
    requires lent { CanPropose ctx.now.task.now ctx.now.tables.now store.now }
    requires deleters { All (IsDeleter ctx.now.task.now store.now.sheet p) list.now }
    ensures { MatchOption result (All (IsUnharmedBy ctx.now.task.now ctx.now.tables.now store.now.sheet x p) list.now) (IsProposed threat_rules ctx.now.task.now ctx.now.tables.now store.now.sheet (Tok x)) }
{
    list.iter().find_map(|d| harm_by(ctx, store, x, p, *d))
}

fn harm(ctx: &Ctx, store: &Store, x: u32, p: u32) -> Option<Step>
    requires { CanPropose ctx.now.task.now ctx.now.tables.now store.now }
    ensures { MatchOption result (IsUnharmed ctx.now.task.now ctx.now.tables.now store.now.sheet x p) (IsProposed threat_rules ctx.now.task.now ctx.now.tables.now store.now.sheet (Tok x)) }
{
    let list = store.deleters(p);
    if let Some(step) = harm_in(ctx, store, x, p, list) {
        return Some(step);
    }
    None
}

fn harms_in(ctx: &Ctx, store: &Store, x: u32, list: &[u32]) -> Option<Step>
    requires { CanPropose ctx.now.task.now ctx.now.tables.now store.now }
    ensures { MatchOption result (All (IsUnharmed ctx.now.task.now ctx.now.tables.now store.now.sheet x) list.now) (IsProposed threat_rules ctx.now.task.now ctx.now.tables.now store.now.sheet (Tok x)) }
{
    list.iter().find_map(|p| harm(ctx, store, x, *p))
}

fn step9_ahead(ctx: &Ctx, store: &Store, d: u32, p: u32, x: u32, y: u32) -> Option<Step>
    requires lent { CanPropose ctx.now.task.now ctx.now.tables.now store.now }
    requires deletes { IsDeleter ctx.now.task.now store.now.sheet p d }
    requires one { IsToken (cands store.now.sheet x p) y }
    ensures { MatchOption result (HasStep9Ahead ctx.now.task.now ctx.now.tables.now store.now.sheet x p d → ⊥) (IsProposed threat_rules ctx.now.task.now ctx.now.tables.now store.now.sheet (Tok d)) }
{
    if d == x {
        return None;
    }
    if d == y {
        return None;
    }
    if store.before(d, y) {
        return None;
    }
    if store.can_precede(ctx, Cand::Tok(x), Cand::Tok(d)) {
        return None;
    }
    Some(Step::R9Ahead {
        tok: x,
        pre: p,
        foe: d,
    })
}

fn ahead_of(ctx: &Ctx, store: &Store, d: u32, p: u32, x: u32) -> Option<Step>
    requires lent { CanPropose ctx.now.task.now ctx.now.tables.now store.now }
    requires deletes { IsDeleter ctx.now.task.now store.now.sheet p d }
    ensures { MatchOption result (HasStep9Ahead ctx.now.task.now ctx.now.tables.now store.now.sheet x p d → ⊥) (IsProposed threat_rules ctx.now.task.now ctx.now.tables.now store.now.sheet (Tok d)) }
{
    match store.supplier(x, p) {
        Some(y) => step9_ahead(ctx, store, d, p, x, y),
        None => None,
    }
}

fn ahead_of_in(ctx: &Ctx, store: &Store, d: u32, p: u32, list: &[u32]) -> Option<Step>
    requires lent { CanPropose ctx.now.task.now ctx.now.tables.now store.now }
    requires deletes { IsDeleter ctx.now.task.now store.now.sheet p d }
    ensures { MatchOption result (All (λ x. HasStep9Ahead ctx.now.task.now ctx.now.tables.now store.now.sheet x p d → ⊥) list.now) (IsProposed threat_rules ctx.now.task.now ctx.now.tables.now store.now.sheet (Tok d)) }
{
    list.iter().find_map(|x| ahead_of(ctx, store, d, p, *x))
}

fn ahead_for(ctx: &Ctx, store: &Store, d: u32, p: u32) -> Option<Step>
    requires lent { CanPropose ctx.now.task.now ctx.now.tables.now store.now }
    requires deletes { IsDeleter ctx.now.task.now store.now.sheet p d }
    ensures { MatchOption result (IsNotAheadOf ctx.now.task.now ctx.now.tables.now store.now.sheet d p) (IsProposed threat_rules ctx.now.task.now ctx.now.tables.now store.now.sheet (Tok d)) }
{
    let list = store.consumers(p);
    if let Some(step) = ahead_of_in(ctx, store, d, p, list) {
        return Some(step);
    }
    None
}

fn ahead_in(ctx: &Ctx, store: &Store, d: u32, list: &[u32]) -> Option<Step>
    requires lent { CanPropose ctx.now.task.now ctx.now.tables.now store.now }
    requires deletes { All (λ p. IsDeleter ctx.now.task.now store.now.sheet p d) list.now }
    ensures { MatchOption result (All (IsNotAheadOf ctx.now.task.now ctx.now.tables.now store.now.sheet d) list.now) (IsProposed threat_rules ctx.now.task.now ctx.now.tables.now store.now.sheet (Tok d)) }
{
    list.iter().find_map(|p| ahead_for(ctx, store, d, *p))
}

fn ahead(ctx: &Ctx, store: &Store, d: u32) -> Option<Step>
    requires { CanPropose ctx.now.task.now ctx.now.tables.now store.now }
    ensures { MatchOption result (All (IsNotAheadOf ctx.now.task.now ctx.now.tables.now store.now.sheet d) (deletes_of ctx.now.task.now (kind_of store.now.sheet (Tok d)))) (IsProposed threat_rules ctx.now.task.now ctx.now.tables.now store.now.sheet (Tok d)) }
{
    ahead_in(
        ctx,
        store,
        d,
        deletes_of(ctx.task, store.kind_at(Cand::Tok(d))),
    )
}

fn propose_at(ctx: &Ctx, store: &Store, x: u32) -> Option<Step>
    requires lent { CanPropose ctx.now.task.now ctx.now.tables.now store.now }
    requires there { x < length store.now.sheet.tokens }
    ensures { MatchOption result (IsClosedAt threat_rules ctx.now.task.now ctx.now.tables.now store.now.sheet (Tok x)) (IsProposed threat_rules ctx.now.task.now ctx.now.tables.now store.now.sheet (Tok x)) }
{
    let needs = store.needs(ctx, x);
    if let Some(step) = harms_in(ctx, store, x, needs) {
        return Some(step);
    }
    if let Some(step) = ahead(ctx, store, x) {
        return Some(step);
    }
    None
}

/// Rules 8 and 9.
#[derive(Clone, Copy)]
pub struct ThreatRules;

impl Rule for ThreatRules {
    ghost use Rattle.cpt_calculus.proofs.Monotone.{step_mono};

    ghost covers = { 8 ∷ 9 ∷ [] };

    ghost monotone = { λ t b above below step o h live legal. step_mono t b above below h live step legal };

    #[tactic(auto, using(crate::proofs::ThreatLemmas::no_out))]
    fn propose(&self, ctx: &Ctx, store: &Store, subject: Subject) -> Option<Step> {
        match subject {
            Cand::Tok(x) => propose_at(ctx, store, x),
            Cand::Out(_) => None,
        }
    }

    fn wakes(&self, ctx: &Ctx, store: &Store, step: &Step, subject: Subject) -> bool {
        can_wake(ctx, store, step, subject)
    }
}
