//! Rules 1 to 3: what an order says of the moments of its tokens, and orders between tokens that interfere.

ghost use Rattle.std.specs.Prelude.{◌≡◌, ◌∷◌, ◌<◌, [], ℕ, true, false, MatchBool, MatchOption, All, length};
ghost use Rattle.cpt_sheet.specs.declared.data.Cand.TheVariants.{Tok, Out};
ghost use Rattle.cpt_sheet.specs.View.{kind_of};
ghost use Rattle.cpt_proposal.specs.Gains.{HasStep3};
ghost use Rattle.cpt_steps.specs.Landing.{IsClosedAt};
ghost use Rattle.cpt_order.specs.Best.{IsGain1, IsNoGain1, IsGain2, IsNoGain2};
ghost use Rattle.cpt_index.specs.Lists.{IsRival};
ghost use Rattle.cpt_proposal.specs.Lent.{CanPropose};
ghost use Rattle.cpt_store.specs.Proposals.{IsProposed};

use cpt_proposal::is_sooner;
use cpt_sheet::{Cand, Kind, Step};
use cpt_store::{Ctx, Rule, Store, Subject, can_wake};
use cpt_task::Span;

/// The arrival from `x` at `y`, where the order stands and it is above `top`.
fn gain1(ctx: &Ctx, store: &Store, x: u32, y: u32, top: Span) -> Option<Span>
    requires { CanPropose ctx.now.task.now ctx.now.tables.now store.now }
    ensures { MatchOption result (IsNoGain1 ctx.now.task.now ctx.now.tables.now store.now.sheet x y top) (IsGain1 ctx.now.task.now ctx.now.tables.now store.now.sheet x y top) }
{
    if !store.before(x, y) {
        return None;
    }
    let to = store.arrives(ctx, Cand::Tok(x), Cand::Tok(y));
    if is_sooner(top, to) { Some(to) } else { None }
}

fn propose1(ctx: &Ctx, store: &Store, y: u32) -> Option<Step>
    requires { CanPropose ctx.now.task.now ctx.now.tables.now store.now }
    ensures { MatchOption result (IsClosedAt (1 ∷ []) ctx.now.task.now ctx.now.tables.now store.now.sheet (Tok y)) (IsProposed (1 ∷ []) ctx.now.task.now ctx.now.tables.now store.now.sheet (Tok y)) }
{
    let mut top = store.span_at(Cand::Tok(y)).lo;
    let mut best = None;
    for x in 0..store.tokens() {
        if let Some(to) = gain1(ctx, store, x, y, top) {
            top = to;
            best = Some(Step::R1 {
                first: x,
                second: y,
                to,
            });
        }
    }
    best
}

/// The deadline of `x` before `y`, where the order stands and it is below `top`.
fn gain2(ctx: &Ctx, store: &Store, x: u32, y: u32, top: Span) -> Option<Span>
    requires { CanPropose ctx.now.task.now ctx.now.tables.now store.now }
    ensures { MatchOption result (IsNoGain2 ctx.now.task.now ctx.now.tables.now store.now.sheet x y top) (IsGain2 ctx.now.task.now ctx.now.tables.now store.now.sheet x y top) }
{
    if !store.before(x, y) {
        return None;
    }
    let to = store.must_begin_by(ctx, Cand::Tok(x), Cand::Tok(y));
    if is_sooner(to, top) { Some(to) } else { None }
}

fn propose2(ctx: &Ctx, store: &Store, x: u32) -> Option<Step>
    requires { CanPropose ctx.now.task.now ctx.now.tables.now store.now }
    ensures { MatchOption result (IsClosedAt (2 ∷ []) ctx.now.task.now ctx.now.tables.now store.now.sheet (Tok x)) (IsProposed (2 ∷ []) ctx.now.task.now ctx.now.tables.now store.now.sheet (Tok x)) }
{
    let mut top = Span::At(store.span_at(Cand::Tok(x)).hi);
    let mut best = None;
    for y in 0..store.tokens() {
        if let Some(to) = gain2(ctx, store, x, y, top) {
            top = to;
            best = Some(Step::R2 {
                first: x,
                second: y,
                to,
            });
        }
    }
    best
}

#[tactic(auto, using(crate::proofs::OrderLemmas::is_proposed3))]
fn step3(ctx: &Ctx, store: &Store, x: u32, a: u32, y: u32) -> Option<Step>
    requires lent { CanPropose ctx.now.task.now ctx.now.tables.now store.now }
    requires kind { kind_of store.now.sheet (Tok x) ≡ Kind.Act a }
    requires rival { IsRival ctx.now.task.now store.now.sheet a y }
    ensures { MatchOption result (HasStep3 ctx.now.task.now ctx.now.tables.now store.now.sheet x y → ⊥) (IsProposed (3 ∷ []) ctx.now.task.now ctx.now.tables.now store.now.sheet (Tok x)) }
{
    if x == y || store.before(x, y) || store.can_precede(ctx, Cand::Tok(y), Cand::Tok(x)) {
        return None;
    }
    Some(Step::R3 {
        first: x,
        second: y,
    })
}

fn step3_in(ctx: &Ctx, store: &Store, x: u32, a: u32, list: &[u32]) -> Option<Step>
    requires lent { CanPropose ctx.now.task.now ctx.now.tables.now store.now }
    requires kind { kind_of store.now.sheet (Tok x) ≡ Kind.Act a }
    requires rivals { All (IsRival ctx.now.task.now store.now.sheet a) list.now }
    ensures { MatchOption result (All (λ y. HasStep3 ctx.now.task.now ctx.now.tables.now store.now.sheet x y → ⊥) list.now) (IsProposed (3 ∷ []) ctx.now.task.now ctx.now.tables.now store.now.sheet (Tok x)) }
{
    list.iter().find_map(|y| step3(ctx, store, x, a, *y))
}

#[tactic(auto, using(crate::proofs::OrderLemmas::is_closed3))]
fn propose3_of(ctx: &Ctx, store: &Store, x: u32, a: u32) -> Option<Step>
    requires lent { CanPropose ctx.now.task.now ctx.now.tables.now store.now }
    requires kind { kind_of store.now.sheet (Tok x) ≡ Kind.Act a }
    ensures { MatchOption result (IsClosedAt (3 ∷ []) ctx.now.task.now ctx.now.tables.now store.now.sheet (Tok x)) (IsProposed (3 ∷ []) ctx.now.task.now ctx.now.tables.now store.now.sheet (Tok x)) }
{
    if let Some(step) = step3_in(ctx, store, x, a, store.rivals(a)) {
        return Some(step);
    }
    None
}

#[tactic(auto, using(crate::proofs::OrderLemmas::no_act3))]
fn propose3(ctx: &Ctx, store: &Store, x: u32) -> Option<Step>
    requires { CanPropose ctx.now.task.now ctx.now.tables.now store.now }
    ensures { MatchOption result (IsClosedAt (3 ∷ []) ctx.now.task.now ctx.now.tables.now store.now.sheet (Tok x)) (IsProposed (3 ∷ []) ctx.now.task.now ctx.now.tables.now store.now.sheet (Tok x)) }
{
    match store.kind_at(Cand::Tok(x)) {
        Kind::Act(a) => propose3_of(ctx, store, x, a),
        Kind::Start => None,
        Kind::End => None,
    }
}

fn propose_at(ctx: &Ctx, store: &Store, x: u32) -> Option<Step>
    requires { CanPropose ctx.now.task.now ctx.now.tables.now store.now }
    ensures { MatchOption result (IsClosedAt (1 ∷ 2 ∷ 3 ∷ []) ctx.now.task.now ctx.now.tables.now store.now.sheet (Tok x)) (IsProposed (1 ∷ 2 ∷ 3 ∷ []) ctx.now.task.now ctx.now.tables.now store.now.sheet (Tok x)) }
{
    if let Some(step) = propose1(ctx, store, x) {
        return Some(step);
    }
    if let Some(step) = propose2(ctx, store, x) {
        return Some(step);
    }
    propose3(ctx, store, x)
}

/// Rules 1 to 3.
#[derive(Clone, Copy)]
pub struct OrderRules;

impl Rule for OrderRules {
    ghost use Rattle.cpt_calculus.proofs.Monotone.{step_mono};

    ghost covers = { 1 ∷ 2 ∷ 3 ∷ [] };

    ghost monotone = { λ t b above below step o h live legal. step_mono t b above below h live step legal };

    #[tactic(auto, using(crate::proofs::OrderLemmas::no_out))]
    fn propose(&self, ctx: &Ctx, store: &Store, subject: Subject) -> Option<Step> {
        match subject {
            Cand::Tok(x) => propose_at(ctx, store, x),
            Cand::Out(_) => None,
        }
    }

    fn wakes(&self, ctx: &Ctx, store: &Store, step: &Step, subject: Subject) -> bool {
        can_wake(ctx, store, step, subject)
    }
}
