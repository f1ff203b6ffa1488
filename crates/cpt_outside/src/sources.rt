//! Rule 10: an outside action begins after who adds what it needs.

ghost use Rattle.std.specs.Prelude.{◌≡◌, ◌≢◌, ◌∷◌, ◌<◌, [], ℕ, true, false, MatchBool, MatchOption, All, Contains, length};
ghost use Rattle.cpt_tables.specs.Admissible.{nth_action};
ghost use Rattle.cpt_tables.specs.Spans.{◌≤ˢ◌, IsBelow};
ghost use Rattle.cpt_sheet.specs.declared.data.Cand.TheVariants.{Tok, Out};
ghost use Rattle.cpt_sheet.specs.View.{kind_of, cands, has, lo};
ghost use Rattle.cpt_sheet.specs.Gaps.{CanPrecede, IsImpossibleBeside};
ghost use Rattle.cpt_sheet.specs.Roles.{needs_of, deletes_of, Deletes};
ghost use Rattle.cpt_calculus.specs.Rules.{IsToken, IsStep13};
ghost use Rattle.cpt_proposal.specs.Gains.{HasStep12After, HasStep12Ahead, IsApart, HasStep11After, HasStep11Ahead, HasStep10};
ghost use Rattle.cpt_steps.specs.Landing.{IsClosedAt, IsThere};
ghost use Rattle.cpt_proposal.specs.Least.{IsLeast};
ghost use Rattle.cpt_index.specs.Lists.{Lists, IsOffer, IsConsumer, IsNeed, IsRival};
ghost use Rattle.cpt_proposal.specs.Lent.{CanPropose};
ghost use Rattle.cpt_store.specs.Proposals.{IsProposed};
ghost use Rattle.cpt_outside.specs.NoStep.{outside_rules, IsPeaceful, IsPeacefulFor, is_source, source_arrival, ReachesOut, IsReached, HasPartner, IsNoPartner, IsMatched, IsMatchedEach, AreMatched, IsErased, IsNeeded};

use cpt_proposal::is_sooner;
use cpt_sheet::{Cand, Kind, Step, is_open, needs_of};
use cpt_store::{Ctx, Store};
use cpt_tables::lesser_span;
use cpt_task::Span;

fn is_source(store: &Store, c: Cand) -> bool
    ensures { result ≡ is_source store.now.sheet c }
{
    match c {
        Cand::Tok(_) => true,
        Cand::Out(_) => is_open(store.span_at(c)),
    }
}

fn reaches(ctx: &Ctx, store: &Store, a: u32, c: Cand) -> bool
    requires { CanPropose ctx.now.task.now ctx.now.tables.now store.now }
    ensures { MatchBool result (ReachesOut ctx.now.task.now ctx.now.tables.now store.now.sheet a c) (ReachesOut ctx.now.task.now ctx.now.tables.now store.now.sheet a c → ⊥) }
{
    if !is_source(store, c) {
        return false;
    }
    !is_sooner(
        store.span_at(Cand::Out(a)).lo,
        store.arrives(ctx, c, Cand::Out(a)),
    )
}

fn reach_in(ctx: &Ctx, store: &Store, a: u32, list: &[Cand]) -> bool
    requires { CanPropose ctx.now.task.now ctx.now.tables.now store.now }
    ensures { MatchBool result ((c : Cand) × Contains list.now c × ReachesOut ctx.now.task.now ctx.now.tables.now store.now.sheet a c) (All (λ c. ReachesOut ctx.now.task.now ctx.now.tables.now store.now.sheet a c → ⊥) list.now) }
{
    list.iter().any(|c| reaches(ctx, store, a, *c))
}

fn arrival_of(ctx: &Ctx, store: &Store, a: u32, c: Cand) -> Span
    requires lent { CanPropose ctx.now.task.now ctx.now.tables.now store.now }
    requires there { IsThere ctx.now.task.now store.now.sheet c }
    ensures value { result ≡ source_arrival ctx.now.task.now ctx.now.tables.now store.now.sheet a c }
    ensures small { IsBelow 2000000000000000 result }
{
    if is_source(store, c) {
        store.arrives(ctx, c, Cand::Out(a))
    } else {
        Span::Never
    }
}

fn least_in(ctx: &Ctx, store: &Store, a: u32, list: &[Cand]) -> Span
    requires lent { CanPropose ctx.now.task.now ctx.now.tables.now store.now }
    requires there { All (IsThere ctx.now.task.now store.now.sheet) list.now }
    ensures { IsLeast 2000000000000000 (source_arrival ctx.now.task.now ctx.now.tables.now store.now.sheet a) list.now (length list.now) result }
{
    let mut least = Span::Never;
    for c in list {
        least = lesser_span(least, arrival_of(ctx, store, a, *c));
    }
    least
}

fn raise(ctx: &Ctx, store: &Store, a: u32, p: u32) -> Option<Step>
    requires lent { CanPropose ctx.now.task.now ctx.now.tables.now store.now }
    requires need { IsNeeded ctx.now.task.now a p }
    ensures { MatchOption result (IsReached ctx.now.task.now ctx.now.tables.now store.now.sheet a p) (IsProposed outside_rules ctx.now.task.now ctx.now.tables.now store.now.sheet (Out a)) }
{
    let list = store.offers(p);
    if reach_in(ctx, store, a, list) {
        return None;
    }
    let to = least_in(ctx, store, a, list);
    if is_sooner(store.span_at(Cand::Out(a)).lo, to) {
        Some(Step::R10 { act: a, pre: p, to })
    } else {
        None
    }
}

fn raise_in(ctx: &Ctx, store: &Store, a: u32, list: &[u32]) -> Option<Step>
    requires lent { CanPropose ctx.now.task.now ctx.now.tables.now store.now }
    requires needs { All (IsNeeded ctx.now.task.now a) list.now }
    ensures { MatchOption result (All (IsReached ctx.now.task.now ctx.now.tables.now store.now.sheet a) list.now) (IsProposed outside_rules ctx.now.task.now ctx.now.tables.now store.now.sheet (Out a)) }
{
    list.iter().find_map(|p| raise(ctx, store, a, *p))
}

/// Raises `Out a` to who adds what it needs.
pub fn propose10(ctx: &Ctx, store: &Store, a: u32) -> Option<Step>
    requires { CanPropose ctx.now.task.now ctx.now.tables.now store.now }
    ensures { MatchOption result (All (IsReached ctx.now.task.now ctx.now.tables.now store.now.sheet a) (needs_of ctx.now.task.now (Kind.Act a))) (IsProposed outside_rules ctx.now.task.now ctx.now.tables.now store.now.sheet (Out a)) }
{
    let list = needs_of(ctx.task, Kind::Act(a));
    raise_in(ctx, store, a, list)
}
