//! Whom a step can give a legal step: those to whom its change is related.

ghost use Rattle.std.specs.Prelude.{◌≡◌, ◌≢◌, ◌<◌, ℕ, List, false, length, All, MatchBool};
ghost use Rattle.cpt_task.specs.declared.span.Span.{Span};
ghost use Rattle.cpt_sheet.specs.Live.{IsShut};
ghost use Rattle.cpt_sheet.specs.Roles.{Adds, Deletes};
ghost use Rattle.cpt_sheet.specs.View.{kind_of, span_of, cands};
ghost use Rattle.cpt_sheet.specs.declared.data.Cand.TheVariants.{Tok, Out};
ghost use Rattle.cpt_sheet.specs.declared.data.Kind.TheVariants.{Act};
ghost use Rattle.cpt_sheet.specs.declared.data.Change.TheVariants.{Raise, Lower, Take, Post};
ghost use Rattle.cpt_calculus.specs.Rules.{change_of, only};
ghost use Rattle.cpt_steps.specs.Landing.{IsThere, subject_of};
ghost use Rattle.cpt_waking.specs.Waking.{CanWake, Feeds, Harms, Helps, Loses, LoweredWakes, LoweredWakesOut, PostedWakes, RaisedWakes, RaisedWakesOut, StaysClosed, TakenWakes};
ghost use Rattle.cpt_store.specs.Related.{IsNotAdded, IsNotDeleted, IsNotHeld};
ghost use Rattle.cpt_store.specs.Stores.{IsLent};

use crate::store::{Ctx, Store, Subject};
use cpt_sheet::{
    Cand, Change, Kind, Step, adds, adds_of, clash, deletes, is_same, is_shut, needs_of,
};
use cpt_task::{Span, Task};

/// Where a change lands.
fn subject_of(change: Change) -> Subject
    ensures { result ≡ subject_of change }
{
    match change {
        Change::Raise { at, .. } => at,
        Change::Lower { at, .. } => at,
        Change::Take { tok, .. } => Cand::Tok(tok),
        Change::Post { first, .. } => Cand::Tok(first),
    }
}

/// Whether the change lands there.
#[tactic(auto, using(cpt_waking::proofs::GainLemmas::same_match))]
fn lands_at(change: Change, subject: Subject) -> bool
    ensures { MatchBool result (subject_of change ≡ subject) (subject_of change ≢ subject) }
{
    is_same(subject_of(change), subject)
}

fn raising(at: Cand, to: Span) -> Change
    ensures { result ≡ Change.Raise at to }
{
    Change::Raise { at, to }
}

fn lowering(at: Cand, to: Span) -> Change
    ensures { result ≡ Change.Lower at to }
{
    Change::Lower { at, to }
}

/// The number of the first token of a list that begins with one, and else 0.
fn first_token(store: &Store, tok: u32, pre: u32) -> u32
    ensures { result ≡ only (cands store.now.sheet tok pre) }
{
    match store.first(tok, pre) {
        Some(Cand::Tok(y)) => y,
        _ => 0,
    }
}

/// What a step changes.
fn change(store: &Store, step: Step) -> Change
    ensures { result ≡ change_of store.now.sheet step }
{
    match step {
        Step::R1 { second, to, .. } => raising(Cand::Tok(second), to),
        Step::R2 { first, to, .. } => lowering(Cand::Tok(first), to),
        Step::R3 { first, second } => Change::Post { first, second },
        Step::R4 { tok, to, .. } => raising(Cand::Tok(tok), to),
        Step::R5 { tok, pre, cand } => Change::Take { tok, pre, cand },
        Step::R6 { tok, pre } => Change::Post {
            first: first_token(store, tok, pre),
            second: tok,
        },
        Step::R7 { tok, pre, act } => Change::Take {
            tok,
            pre,
            cand: Cand::Out(act),
        },
        Step::R8 { tok, pre, cand, .. } => Change::Take { tok, pre, cand },
        Step::R9After { tok, foe, .. } => Change::Post {
            first: tok,
            second: foe,
        },
        Step::R9Ahead { tok, pre, foe } => Change::Post {
            first: foe,
            second: first_token(store, tok, pre),
        },
        Step::R10 { act, to, .. } => raising(Cand::Out(act), to),
        Step::R11After { act, to, .. } => raising(Cand::Out(act), to),
        Step::R11Ahead { act, to, .. } => lowering(Cand::Out(act), to),
        Step::R12After { act, to, .. } => raising(Cand::Out(act), to),
        Step::R12Ahead { act, to, .. } => lowering(Cand::Out(act), to),
        Step::R13 { tok, pre, cand, .. } => Change::Take { tok, pre, cand },
    }
}

fn is_held(store: &Store, c: Cand, x: u32, p: u32) -> bool
    ensures { result ≡ false → IsNotHeld store.now.sheet c x p }
{
    store.holds(x, p, c)
}

fn is_held_in(store: &Store, c: Cand, x: u32, atoms: &[u32]) -> bool
    ensures { result ≡ false → All (IsNotHeld store.now.sheet c x) atoms.now }
{
    atoms.iter().any(|p| is_held(store, c, x, *p))
}

/// Whether `c` is a candidate of the token.
fn feeds(ctx: &Ctx, store: &Store, c: Cand, x: u32) -> bool
    requires lent { IsLent ctx.now.task.now ctx.now.tables.now store.now }
    requires there { x < length store.now.sheet.tokens }
    ensures { result ≡ false → Feeds store.now.sheet c x → ⊥ }
{
    is_held_in(store, c, x, store.needs(ctx, x))
}

fn is_deleted(task: &Task, k: Kind, p: u32) -> bool
    ensures { result ≡ false → IsNotDeleted task.now k p }
{
    deletes(task, k, p)
}

fn is_deleted_in(task: &Task, k: Kind, atoms: &[u32]) -> bool
    ensures { result ≡ false → All (IsNotDeleted task.now k) atoms.now }
{
    atoms.iter().any(|p| is_deleted(task, k, *p))
}

fn harms_there(ctx: &Ctx, store: &Store, d: Cand, x: u32) -> bool
    requires lent { IsLent ctx.now.task.now ctx.now.tables.now store.now }
    requires there { x < length store.now.sheet.tokens }
    ensures { result ≡ false → Harms ctx.now.task.now store.now.sheet d x → ⊥ }
{
    is_deleted_in(ctx.task, store.kind_at(d), store.needs(ctx, x))
}

/// Whether `d` deletes what the token needs.
#[tactic(auto, using(crate::proofs::RelatedLemmas::harms_past))]
fn harms(ctx: &Ctx, store: &Store, d: Cand, x: u32) -> bool
    requires { IsLent ctx.now.task.now ctx.now.tables.now store.now }
    ensures { result ≡ false → Harms ctx.now.task.now store.now.sheet d x → ⊥ }
{
    if x >= store.tokens() {
        return false;
    }
    harms_there(ctx, store, d, x)
}

fn is_added(task: &Task, k: Kind, p: u32) -> bool
    ensures { result ≡ false → IsNotAdded task.now k p }
{
    adds(task, k, p)
}

fn is_added_in(task: &Task, k: Kind, atoms: &[u32]) -> bool
    ensures { result ≡ false → All (IsNotAdded task.now k) atoms.now }
{
    atoms.iter().any(|p| is_added(task, k, *p))
}

/// Whether it adds what the action needs.
#[tactic(auto, using(crate::proofs::RelatedLemmas::no_helps))]
fn helps(task: &Task, k: Kind, a: u32) -> bool
    ensures { result ≡ false → Helps task.now k a → ⊥ }
{
    is_added_in(task, k, needs_of(task, Kind::Act(a)))
}

/// Whether the action deletes what it adds.
#[tactic(auto, using(crate::proofs::RelatedLemmas::no_loses))]
fn loses(task: &Task, k: Kind, a: u32) -> bool
    ensures { result ≡ false → Loses task.now k a → ⊥ }
{
    is_deleted_in(task, Kind::Act(a), adds_of(task, k))
}

fn raised_wakes(ctx: &Ctx, store: &Store, z: u32, y: u32) -> bool
    requires lent { IsLent ctx.now.task.now ctx.now.tables.now store.now }
    requires there { y < length store.now.sheet.tokens }
    ensures { result ≡ false → RaisedWakes ctx.now.task.now store.now.sheet z y → ⊥ }
{
    store.before(z, y)
        || store.clash(ctx, Cand::Tok(z), Cand::Tok(y))
        || feeds(ctx, store, Cand::Tok(z), y)
        || harms(ctx, store, Cand::Tok(z), y)
        || harms(ctx, store, Cand::Tok(y), z)
}

fn raised_wakes_out(ctx: &Ctx, store: &Store, z: u32, a: u32) -> bool
    requires { IsLent ctx.now.task.now ctx.now.tables.now store.now }
    ensures { result ≡ false → RaisedWakesOut ctx.now.task.now store.now.sheet z a → ⊥ }
{
    let kind = store.kind_at(Cand::Tok(z));
    helps(ctx.task, kind, a)
        || clash(ctx.task, kind, Kind::Act(a))
        || harms(ctx, store, Cand::Out(a), z)
}

fn lowered_wakes(ctx: &Ctx, store: &Store, z: u32, y: u32) -> bool
    requires lent { IsLent ctx.now.task.now ctx.now.tables.now store.now }
    requires there { y < length store.now.sheet.tokens }
    ensures { result ≡ false → LoweredWakes ctx.now.task.now store.now.sheet z y → ⊥ }
{
    store.before(y, z) || feeds(ctx, store, Cand::Tok(z), y) || harms(ctx, store, Cand::Tok(z), y)
}

fn lowered_wakes_out(ctx: &Ctx, store: &Store, z: u32, a: u32) -> bool
    ensures { result ≡ false → LoweredWakesOut ctx.now.task.now store.now.sheet z a → ⊥ }
{
    let kind = store.kind_at(Cand::Tok(z));
    clash(ctx.task, kind, Kind::Act(a)) || loses(ctx.task, kind, a)
}

fn out_lowered_wakes_out(ctx: &Ctx, store: &Store, o: u32, a: u32) -> bool
    ensures { result ≡ false → IsShut (span_of store.now.sheet (Out o)) → Helps ctx.now.task.now (Act o) a → ⊥ }
{
    is_shut(store.span_at(Cand::Out(o))) && helps(ctx.task, Kind::Act(o), a)
}

fn is_or_deletes(ctx: &Ctx, store: &Store, y: u32, p: u32, c: Cand) -> bool
    ensures { result ≡ false → (Tok y ≡ c → ⊥) × (Deletes ctx.now.task.now (kind_of store.now.sheet c) p → ⊥) }
{
    match c {
        Cand::Tok(z) => y == z || deletes(ctx.task, store.kind_at(c), p),
        Cand::Out(_) => deletes(ctx.task, store.kind_at(c), p),
    }
}

#[tactic(auto, using(crate::proofs::RelatedLemmas::no_taken))]
fn taken_wakes(ctx: &Ctx, store: &Store, x: u32, p: u32, c: Cand) -> bool
    ensures { result ≡ false → TakenWakes ctx.now.task.now store.now.sheet x p c → ⊥ }
{
    match store.supplier(x, p) {
        Some(y) => is_or_deletes(ctx, store, y, p, c),
        None => false,
    }
}

fn posted_wakes(ctx: &Ctx, store: &Store, first: u32, second: u32, z: u32) -> bool
    requires lent { IsLent ctx.now.task.now ctx.now.tables.now store.now }
    requires there { z < length store.now.sheet.tokens }
    ensures { result ≡ false → PostedWakes store.now.sheet first second z → ⊥ }
{
    second == z || feeds(ctx, store, Cand::Tok(first), z)
}

fn raise_wakes(ctx: &Ctx, store: &Store, at: Cand, subject: Subject) -> bool
    requires lent { IsLent ctx.now.task.now ctx.now.tables.now store.now }
    requires there { IsThere ctx.now.task.now store.now.sheet subject }
    ensures { result ≡ false → (v : Span) → CanWake ctx.now.task.now store.now.sheet (Raise at v) subject → ⊥ }
{
    match (at, subject) {
        (Cand::Tok(z), Cand::Tok(y)) => raised_wakes(ctx, store, z, y),
        (Cand::Tok(z), Cand::Out(a)) => raised_wakes_out(ctx, store, z, a),
        (Cand::Out(_), Cand::Tok(y)) => feeds(ctx, store, at, y),
        (Cand::Out(o), Cand::Out(a)) => helps(ctx.task, Kind::Act(o), a),
    }
}

fn lower_wakes(ctx: &Ctx, store: &Store, at: Cand, subject: Subject) -> bool
    requires lent { IsLent ctx.now.task.now ctx.now.tables.now store.now }
    requires there { IsThere ctx.now.task.now store.now.sheet subject }
    ensures { result ≡ false → (v : Span) → CanWake ctx.now.task.now store.now.sheet (Lower at v) subject → ⊥ }
{
    match (at, subject) {
        (Cand::Tok(z), Cand::Tok(y)) => lowered_wakes(ctx, store, z, y),
        (Cand::Tok(z), Cand::Out(a)) => lowered_wakes_out(ctx, store, z, a),
        (Cand::Out(_), Cand::Tok(y)) => feeds(ctx, store, at, y),
        (Cand::Out(o), Cand::Out(a)) => out_lowered_wakes_out(ctx, store, o, a),
    }
}

fn post_wakes(ctx: &Ctx, store: &Store, first: u32, second: u32, subject: Subject) -> bool
    requires lent { IsLent ctx.now.task.now ctx.now.tables.now store.now }
    requires there { IsThere ctx.now.task.now store.now.sheet subject }
    ensures { result ≡ false → CanWake ctx.now.task.now store.now.sheet (Post first second) subject → ⊥ }
{
    match subject {
        Cand::Tok(z) => posted_wakes(ctx, store, first, second, z),
        Cand::Out(_) => false,
    }
}

/// Whether the change is related to the subject, so that it can wake it.
fn is_related(ctx: &Ctx, store: &Store, change: Change, subject: Subject) -> bool
    requires lent { IsLent ctx.now.task.now ctx.now.tables.now store.now }
    requires there { IsThere ctx.now.task.now store.now.sheet subject }
    ensures { result ≡ false → CanWake ctx.now.task.now store.now.sheet change subject → ⊥ }
{
    match change {
        Change::Raise { at, .. } => raise_wakes(ctx, store, at, subject),
        Change::Lower { at, .. } => lower_wakes(ctx, store, at, subject),
        Change::Take { tok, pre, .. } => taken_wakes(ctx, store, tok, pre, subject),
        Change::Post { first, second } => post_wakes(ctx, store, first, second, subject),
    }
}

/// Whether the step lands at the subject or changes what is related to it. Where it does not, a subject that had no
/// legal step of some rules before the step has none after it. It reads no moment but to see who has none left.
pub fn can_wake(ctx: &Ctx, store: &Store, step: &Step, subject: Subject) -> bool
    requires lent { IsLent ctx.now.task.now ctx.now.tables.now store.now }
    requires there { IsThere ctx.now.task.now store.now.sheet subject }
    ensures { result ≡ false → (rules : List ℕ) → StaysClosed rules ctx.now.task.now ctx.now.tables.now store.now.sheet step.now subject }
{
    let change = change(store, *step);
    if lands_at(change, subject) {
        return true;
    }
    is_related(ctx, store, change, subject)
}
