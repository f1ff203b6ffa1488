//! Rules 4 to 7: who supplies a token.

ghost use Rattle.std.specs.Prelude.{◌≡◌, ◌∷◌, ◌<◌, [], ℕ, true, false, MatchBool, MatchOption, MatchResult, All, Contains, length};
ghost use Rattle.cpt_sheet.specs.declared.data.Cand.TheVariants.{Tok, Out};
ghost use Rattle.cpt_sheet.specs.View.{kind_of, cands, has, lo};
ghost use Rattle.cpt_sheet.specs.Gaps.{arrival, CanPrecede, ordered};
ghost use Rattle.cpt_sheet.specs.Roles.{adds_of};
ghost use Rattle.cpt_calculus.specs.Rules.{IsStep7};
ghost use Rattle.cpt_proposal.specs.Gains.{HasStep6};
ghost use Rattle.cpt_steps.specs.Landing.{IsClosedAt};
ghost use Rattle.cpt_index.specs.Lists.{Covers, IsNeed};
ghost use Rattle.cpt_proposal.specs.Lent.{CanPropose};
ghost use Rattle.cpt_store.specs.Proposals.{IsProposed};
ghost use Rattle.cpt_support.specs.NoStep.{support_rules, PostsNone, IsSupplied, IsPassed, IsPassedTo};

use cpt_proposal::is_sooner;
use cpt_sheet::{Cand, Step, adds_of, is_shut};
use cpt_store::{Ctx, Rule, Store, Subject, can_wake};
use cpt_tables::lesser_span;
use cpt_task::Span;

#[tactic(auto, using(crate::proofs::SupportLemmas::is_proposed6, crate::proofs::SupportLemmas::is_other6, crate::proofs::SupportLemmas::is_old6, crate::proofs::SupportLemmas::is_none6))]
fn step6(ctx: &Ctx, store: &Store, y: u32, p: u32, x: u32) -> Option<Step>
    requires { CanPropose ctx.now.task.now ctx.now.tables.now store.now }
    ensures { MatchOption result (HasStep6 store.now.sheet x p y → ⊥) (IsProposed support_rules ctx.now.task.now ctx.now.tables.now store.now.sheet (Tok y)) }
{
    let _ = ctx;
    let Some(z) = store.supplier(x, p) else {
        return None;
    };
    if z != y {
        return None;
    }
    if store.before(y, x) {
        return None;
    }
    Some(Step::R6 { tok: x, pre: p })
}

fn step6_in(ctx: &Ctx, store: &Store, y: u32, p: u32, list: &[u32]) -> Option<Step>
    requires { CanPropose ctx.now.task.now ctx.now.tables.now store.now }
    ensures { MatchOption result (All (λ x. HasStep6 store.now.sheet x p y → ⊥) list.now) (IsProposed support_rules ctx.now.task.now ctx.now.tables.now store.now.sheet (Tok y)) }
{
    list.iter().find_map(|x| step6(ctx, store, y, p, *x))
}

#[tactic(auto, using(crate::proofs::SupportLemmas::posts_none))]
fn post_for(ctx: &Ctx, store: &Store, y: u32, p: u32) -> Option<Step>
    requires { CanPropose ctx.now.task.now ctx.now.tables.now store.now }
    ensures { MatchOption result (PostsNone store.now.sheet y p) (IsProposed support_rules ctx.now.task.now ctx.now.tables.now store.now.sheet (Tok y)) }
{
    if let Some(step) = step6_in(ctx, store, y, p, store.consumers(p)) {
        return Some(step);
    }
    None
}

fn post_in(ctx: &Ctx, store: &Store, y: u32, list: &[u32]) -> Option<Step>
    requires { CanPropose ctx.now.task.now ctx.now.tables.now store.now }
    ensures { MatchOption result (All (PostsNone store.now.sheet y) list.now) (IsProposed support_rules ctx.now.task.now ctx.now.tables.now store.now.sheet (Tok y)) }
{
    list.iter().find_map(|p| post_for(ctx, store, y, *p))
}

fn post(ctx: &Ctx, store: &Store, y: u32) -> Option<Step>
    requires { CanPropose ctx.now.task.now ctx.now.tables.now store.now }
    ensures { MatchOption result (All (PostsNone store.now.sheet y) (adds_of ctx.now.task.now (kind_of store.now.sheet (Tok y)))) (IsProposed support_rules ctx.now.task.now ctx.now.tables.now store.now.sheet (Tok y)) }
{
    post_in(
        ctx,
        store,
        y,
        adds_of(ctx.task, store.kind_at(Cand::Tok(y))),
    )
}

#[tactic(auto, using(crate::proofs::SupportLemmas::is_proposed7, crate::proofs::SupportLemmas::is_open7))]
fn step7(ctx: &Ctx, store: &Store, x: u32, p: u32, a: u32) -> Option<Step>
    requires lent { CanPropose ctx.now.task.now ctx.now.tables.now store.now }
    requires listed { has (Out a) (cands store.now.sheet x p) ≡ true }
    ensures { MatchOption result (IsStep7 store.now.sheet x p a → ⊥) (IsProposed support_rules ctx.now.task.now ctx.now.tables.now store.now.sheet (Tok x)) }
{
    let _ = ctx;
    if is_shut(store.span_at(Cand::Out(a))) {
        Some(Step::R7 {
            tok: x,
            pre: p,
            act: a,
        })
    } else {
        None
    }
}

fn step7_of(ctx: &Ctx, store: &Store, x: u32, p: u32, c: Cand) -> Option<Step>
    requires lent { CanPropose ctx.now.task.now ctx.now.tables.now store.now }
    requires listed { has c (cands store.now.sheet x p) ≡ true }
    ensures { MatchOption result ((a : ℕ) → c ≡ Out a → IsStep7 store.now.sheet x p a → ⊥) (IsProposed support_rules ctx.now.task.now ctx.now.tables.now store.now.sheet (Tok x)) }
{
    match c {
        Cand::Out(a) => step7(ctx, store, x, p, a),
        Cand::Tok(_) => None,
    }
}

/// Whether `x` is posted before the candidate.
fn is_ahead(store: &Store, x: u32, c: Cand) -> bool
    ensures { result ≡ ordered store.now.sheet (Tok x) c }
{
    match c {
        Cand::Tok(y) => store.before(x, y),
        Cand::Out(_) => false,
    }
}

/// Whether `c`, which arrives at `v`, can precede `x`.
#[tactic(auto, using(crate::proofs::SupportLemmas::precedes))]
fn is_in_time(ctx: &Ctx, store: &Store, x: u32, c: Cand, v: Span) -> bool
    requires lent { CanPropose ctx.now.task.now ctx.now.tables.now store.now }
    requires value { v ≡ arrival ctx.now.task.now ctx.now.tables.now store.now.sheet c (Tok x) }
    ensures { MatchBool result (CanPrecede ctx.now.task.now ctx.now.tables.now store.now.sheet c (Tok x)) (CanPrecede ctx.now.task.now ctx.now.tables.now store.now.sheet c (Tok x) → ⊥) }
{
    let _ = ctx;
    !is_sooner(Span::At(store.span_at(Cand::Tok(x)).hi), v) && !is_ahead(store, x, c)
}

/// When `c` lets `x` begin, Never where it is no candidate; or the step that drops it.
fn pass_one(ctx: &Ctx, store: &Store, x: u32, p: u32, c: Cand) -> Result<Span, Step>
    requires { CanPropose ctx.now.task.now ctx.now.tables.now store.now }
    ensures { MatchResult result (IsPassed ctx.now.task.now ctx.now.tables.now store.now.sheet x p c) (IsProposed support_rules ctx.now.task.now ctx.now.tables.now store.now.sheet (Tok x)) }
{
    if !store.holds(x, p, c) {
        return Ok(Span::Never);
    }
    let v = store.arrives(ctx, c, Cand::Tok(x));
    if !is_in_time(ctx, store, x, c, v) {
        return Err(Step::R5 {
            tok: x,
            pre: p,
            cand: c,
        });
    }
    if let Some(step) = step7_of(ctx, store, x, p, c) {
        return Err(step);
    }
    Ok(v)
}

/// The least of when the candidates let `x` begin; or a step that drops one.
#[tactic(auto, using(crate::proofs::SupportLemmas::passed_none))]
fn pass(ctx: &Ctx, store: &Store, x: u32, p: u32, list: &[Cand]) -> Result<Span, Step>
    requires { CanPropose ctx.now.task.now ctx.now.tables.now store.now }
    ensures { MatchResult result (IsPassedTo ctx.now.task.now ctx.now.tables.now store.now.sheet x p list.now (length list.now)) (IsProposed support_rules ctx.now.task.now ctx.now.tables.now store.now.sheet (Tok x)) }
{
    let mut least = Span::Never;
    for c in list {
        match pass_one(ctx, store, x, p, *c) {
            Ok(v) => least = lesser_span(least, v),
            Err(step) => return Err(step),
        }
    }
    Ok(least)
}

fn raise_to(ctx: &Ctx, store: &Store, x: u32, p: u32, list: &[Cand], least: Span) -> Option<Step>
    requires lent { CanPropose ctx.now.task.now ctx.now.tables.now store.now }
    requires need { IsNeed store.now.sheet x p }
    requires lists { Covers store.now.sheet x p list.now }
    requires passed { IsPassedTo ctx.now.task.now ctx.now.tables.now store.now.sheet x p list.now (length list.now) least }
    ensures { MatchOption result (IsSupplied ctx.now.task.now ctx.now.tables.now store.now.sheet x p) (IsProposed support_rules ctx.now.task.now ctx.now.tables.now store.now.sheet (Tok x)) }
{
    let _ = ctx;
    let _ = list;
    if is_sooner(store.span_at(Cand::Tok(x)).lo, least) {
        Some(Step::R4 {
            tok: x,
            pre: p,
            to: least,
        })
    } else {
        None
    }
}

fn supply_from(ctx: &Ctx, store: &Store, x: u32, p: u32, list: &[Cand]) -> Option<Step>
    requires lent { CanPropose ctx.now.task.now ctx.now.tables.now store.now }
    requires need { IsNeed store.now.sheet x p }
    requires lists { Covers store.now.sheet x p list.now }
    ensures { MatchOption result (IsSupplied ctx.now.task.now ctx.now.tables.now store.now.sheet x p) (IsProposed support_rules ctx.now.task.now ctx.now.tables.now store.now.sheet (Tok x)) }
{
    match pass(ctx, store, x, p, list) {
        Ok(least) => raise_to(ctx, store, x, p, list, least),
        Err(step) => Some(step),
    }
}

/// Only the one token of a decided list is looked at.
#[tactic(auto, using(cpt_proposal::proofs::ReaderLemmas::covers_one, cpt_proposal::proofs::ReaderLemmas::covers_offers))]
fn supply(ctx: &Ctx, store: &Store, x: u32, p: u32) -> Option<Step>
    requires lent { CanPropose ctx.now.task.now ctx.now.tables.now store.now }
    requires need { IsNeed store.now.sheet x p }
    ensures { MatchOption result (IsSupplied ctx.now.task.now ctx.now.tables.now store.now.sheet x p) (IsProposed support_rules ctx.now.task.now ctx.now.tables.now store.now.sheet (Tok x)) }
{
    if let Some(y) = store.supplier(x, p) {
        let one = [Cand::Tok(y)];
        return supply_from(ctx, store, x, p, &one);
    }
    let list = store.offers(p);
    supply_from(ctx, store, x, p, list)
}

fn supply_in(ctx: &Ctx, store: &Store, x: u32, list: &[u32]) -> Option<Step>
    requires lent { CanPropose ctx.now.task.now ctx.now.tables.now store.now }
    requires needs { All (IsNeed store.now.sheet x) list.now }
    ensures { MatchOption result (All (IsSupplied ctx.now.task.now ctx.now.tables.now store.now.sheet x) list.now) (IsProposed support_rules ctx.now.task.now ctx.now.tables.now store.now.sheet (Tok x)) }
{
    list.iter().find_map(|p| supply(ctx, store, x, *p))
}

#[tactic(auto, using(crate::proofs::SupportLemmas::is_closed))]
fn propose_at(ctx: &Ctx, store: &Store, x: u32) -> Option<Step>
    requires lent { CanPropose ctx.now.task.now ctx.now.tables.now store.now }
    requires there { x < length store.now.sheet.tokens }
    ensures { MatchOption result (IsClosedAt support_rules ctx.now.task.now ctx.now.tables.now store.now.sheet (Tok x)) (IsProposed support_rules ctx.now.task.now ctx.now.tables.now store.now.sheet (Tok x)) }
{
    if let Some(step) = supply_in(ctx, store, x, store.needs(ctx, x)) {
        return Some(step);
    }
    if let Some(step) = post(ctx, store, x) {
        return Some(step);
    }
    None
}

/// Rules 4 to 7.
#[derive(Clone, Copy)]
pub struct SupportRules;

impl Rule for SupportRules {
    ghost use Rattle.cpt_calculus.proofs.Monotone.{step_mono};

    ghost covers = { 4 ∷ 5 ∷ 6 ∷ 7 ∷ [] };

    ghost monotone = { λ t b above below step o h live legal. step_mono t b above below h live step legal };

    #[tactic(auto, using(crate::proofs::SupportLemmas::no_out))]
    fn propose(&self, ctx: &Ctx, store: &Store, subject: Subject) -> Option<Step> {
        match subject {
            Cand::Tok(x) => propose_at(ctx, store, x),
            Cand::Out(_) => None,
        }
    }

    fn wakes(&self, ctx: &Ctx, store: &Store, step: &Step, subject: Subject) -> bool {
        can_wake(ctx, store, step, subject)
    }
}
