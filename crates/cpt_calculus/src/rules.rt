//! The thirteen rules: which steps are legal at a sheet.

ghost use Rattle.std.specs.Prelude.{◌≡◌, ◌≢◌, ◌↔◌, ◌<◌, ◌^◌, [], ◌∷◌, ℕ, IsTrue, MatchBool, MatchOption, All, Contains, length};
ghost use Rattle.cpt_tables.specs.Admissible.{nth_action};
ghost use Rattle.cpt_tables.specs.Spans.{◌≤ˢ◌, ◌<ˢ◌, ◌+ˢ◌, IsBelow};
ghost use Rattle.cpt_sheet.specs.Formed.{IsFormed};
ghost use Rattle.cpt_sheet.specs.Gaps.{FitsTask, gap, arrival, deadline, CanPrecede, IsImpossibleBeside};
ghost use Rattle.cpt_sheet.specs.Live.{IsLive, IsOpen, IsShut};
ghost use Rattle.cpt_sheet.specs.Roles.{Adds, Deletes, Clash};
ghost use Rattle.cpt_sheet.specs.View.{kind_of, lo, hi, same, span_of, cands, has, has_need, before};
ghost use Rattle.cpt_calculus.specs.Rules.{IsToken, only, IsTokenMoment, IsOutsideMoment, IsStep1, IsStep2, IsStep3, IsStep4, IsStep5, IsStep6, IsStep7, IsStep8, IsThreatOf, IsStep9After, IsStep9Ahead, IsListed, IsNoneBeside, IsOtherNeed, IsBeforeToken, IsBeforeTokens, IsBeforeOut, IsBeforeOuts, ComesAfter, ComesAhead, IsStep10, IsOutsideThreat, IsStep11After, IsStep11Ahead, IsStep12After, IsStep12Ahead, IsStep13, Allowed, change_of, Moves, IsLegal};

use cpt_sheet::{
    Cand, Change, Kind, Sheet, Step, Token, adds, arrives, can_precede, clash, deletes, gap,
    is_dead, is_impossible_beside, is_listed, is_same, is_shut, is_sooner, kind, list,
    must_begin_by, needs, needs_of, span, stands,
};
use cpt_tables::{Tables, add_spans, exceeds};
use cpt_task::{Span, Task};

/// Whether a new first moment of a token keeps within its bound.
fn is_token_moment(v: Span) -> bool
    ensures { MatchBool result (IsTokenMoment v) (IsTokenMoment v → ⊥) }
{
    match v {
        Span::At(n) => n < 4_000_000_000_000_000,
        Span::Never => true,
    }
}

/// Whether a new first moment of an outside action keeps within its bound.
fn is_outside_moment(v: Span) -> bool
    ensures { MatchBool result (IsOutsideMoment v) (IsOutsideMoment v → ⊥) }
{
    match v {
        Span::At(n) => n < 2_000_000_000_000_000,
        Span::Never => true,
    }
}

/// Whether the first span is no later than the second.
fn is_no_later(a: Span, b: Span) -> bool
    ensures { MatchBool result (a ≤ˢ b) (a ≤ˢ b → ⊥) }
{
    !exceeds(a, b)
}

/// The one token of a list that is one token.
pub fn one_token(list: &[Cand]) -> Option<u32>
    ensures { MatchOption result ((y : ℕ) → IsToken list.now y → ⊥) (λ y. IsToken list.now y) }
{
    match list {
        [Cand::Tok(y)] => Some(*y),
        _ => None,
    }
}

/// Whether the order `x` before `y` stands and `v` is no later than the arrival from `x` at `y`: rule 1.
pub fn is_step1(task: &Task, tables: &Tables, sheet: &Sheet, x: u32, y: u32, v: Span) -> bool
    requires tables { FitsTask task.now tables.now }
    requires formed { IsFormed task.now sheet.now }
    ensures { MatchBool result (IsStep1 task.now tables.now sheet.now x y v) (IsStep1 task.now tables.now sheet.now x y v → ⊥) }
{
    stands(sheet, x, y)
        && is_token_moment(v)
        && is_no_later(v, arrives(task, tables, sheet, Cand::Tok(x), Cand::Tok(y)))
}

/// Whether the order `x` before `y` stands and `v` is no earlier than the deadline of `x` before `y`: rule 2.
pub fn is_step2(task: &Task, tables: &Tables, sheet: &Sheet, x: u32, y: u32, v: Span) -> bool
    requires tables { FitsTask task.now tables.now }
    ensures { MatchBool result (IsStep2 task.now tables.now sheet.now x y v) (IsStep2 task.now tables.now sheet.now x y v → ⊥) }
{
    stands(sheet, x, y)
        && is_no_later(
            must_begin_by(task, tables, sheet, Cand::Tok(x), Cand::Tok(y)),
            v,
        )
}

/// Whether `x` and `y` are different action tokens that interfere, and `y` cannot precede `x`: rule 3.
pub fn is_step3(task: &Task, tables: &Tables, sheet: &Sheet, x: u32, y: u32) -> bool
    requires tables { FitsTask task.now tables.now }
    requires formed { IsFormed task.now sheet.now }
    ensures { MatchBool result (IsStep3 task.now tables.now sheet.now x y) (IsStep3 task.now tables.now sheet.now x y → ⊥) }
{
    x != y
        && clash(task, kind(sheet, Cand::Tok(x)), kind(sheet, Cand::Tok(y)))
        && !can_precede(task, tables, sheet, Cand::Tok(y), Cand::Tok(x))
}

fn is_before_each(
    task: &Task,
    tables: &Tables,
    sheet: &Sheet,
    v: Span,
    list: &[Cand],
    d: Cand,
) -> bool
    requires tables { FitsTask task.now tables.now }
    requires formed { IsFormed task.now sheet.now }
    ensures { MatchBool result (All (λ c. v ≤ˢ arrival task.now tables.now sheet.now c d) list.now) (All (λ c. v ≤ˢ arrival task.now tables.now sheet.now c d) list.now → ⊥) }
{
    for c in list {
        if !is_no_later(v, arrives(task, tables, sheet, *c, d)) {
            return false;
        }
    }
    true
}

/// Whether `v` is no later than the arrival at `x` from each candidate for `p`: rule 4.
pub fn is_step4(task: &Task, tables: &Tables, sheet: &Sheet, x: u32, p: u32, v: Span) -> bool
    requires tables { FitsTask task.now tables.now }
    requires formed { IsFormed task.now sheet.now }
    ensures { MatchBool result (IsStep4 task.now tables.now sheet.now x p v) (IsStep4 task.now tables.now sheet.now x p v → ⊥) }
{
    needs(sheet, x, p)
        && is_token_moment(v)
        && is_before_each(task, tables, sheet, v, list(sheet, x, p), Cand::Tok(x))
}

/// Whether `c` is a candidate of `x` for the precondition `p`.
pub fn is_candidate(sheet: &Sheet, x: u32, p: u32, c: Cand) -> bool
    ensures { MatchBool result (IsListed sheet.now x p c) (IsListed sheet.now x p c → ⊥) }
{
    needs(sheet, x, p) && is_listed(list(sheet, x, p), c)
}

fn is_other_need(sheet: &Sheet, x: u32, p: u32, q: u32) -> bool
    ensures { MatchBool result (IsOtherNeed sheet.now x p q) (IsOtherNeed sheet.now x p q → ⊥) }
{
    needs(sheet, x, q) && q != p
}

/// Whether `c` is a candidate for `p` that cannot precede `x`: rule 5.
pub fn is_step5(task: &Task, tables: &Tables, sheet: &Sheet, x: u32, p: u32, c: Cand) -> bool
    requires tables { FitsTask task.now tables.now }
    requires formed { IsFormed task.now sheet.now }
    ensures { MatchBool result (IsStep5 task.now tables.now sheet.now x p c) (IsStep5 task.now tables.now sheet.now x p c → ⊥) }
{
    is_candidate(sheet, x, p, c) && !can_precede(task, tables, sheet, c, Cand::Tok(x))
}

/// Whether the list of `x` for the precondition `p` is one token: rule 6.
pub fn is_step6(sheet: &Sheet, x: u32, p: u32) -> bool
    ensures { MatchBool result (IsStep6 sheet.now x p) (IsStep6 sheet.now x p → ⊥) }
{
    needs(sheet, x, p) && one_token(list(sheet, x, p)).is_some()
}

/// Whether the outside action `a` is a candidate for `p` without a moment: rule 7.
pub fn is_step7(sheet: &Sheet, x: u32, p: u32, a: u32) -> bool
    ensures { MatchBool result (IsStep7 sheet.now x p a) (IsStep7 sheet.now x p a → ⊥) }
{
    is_candidate(sheet, x, p, Cand::Out(a)) && is_shut(span(sheet, Cand::Out(a)))
}

/// Whether `c` is a candidate for `p`, and `d`, which deletes `p`, can come neither before it nor after `x`: rule 8.
pub fn is_step8(
    task: &Task,
    tables: &Tables,
    sheet: &Sheet,
    x: u32,
    p: u32,
    c: Cand,
    d: u32,
) -> bool
    requires tables { FitsTask task.now tables.now }
    requires formed { IsFormed task.now sheet.now }
    ensures { MatchBool result (IsStep8 task.now tables.now sheet.now x p c d) (IsStep8 task.now tables.now sheet.now x p c d → ⊥) }
{
    is_candidate(sheet, x, p, c)
        && deletes(task, kind(sheet, Cand::Tok(d)), p)
        && d != x
        && !is_same(Cand::Tok(d), c)
        && !can_precede(task, tables, sheet, Cand::Tok(d), c)
        && !can_precede(task, tables, sheet, Cand::Tok(x), Cand::Tok(d))
}

/// The token whose place `d` threatens, where it does.
pub fn threatened(task: &Task, sheet: &Sheet, x: u32, p: u32, d: u32) -> Option<u32>
    ensures { MatchOption result ((y : ℕ) → IsThreatOf task.now sheet.now x p d y → ⊥) (IsThreatOf task.now sheet.now x p d) }
{
    let y = one_token(list(sheet, x, p))?;
    let deleted = deletes(task, kind(sheet, Cand::Tok(d)), p);
    if needs(sheet, x, p) && deleted && d != x && d != y {
        Some(y)
    } else {
        None
    }
}

/// Whether `d` threatens what one token supplies and cannot precede that token: rule 9, after.
pub fn is_step9_after(task: &Task, tables: &Tables, sheet: &Sheet, x: u32, p: u32, d: u32) -> bool
    requires tables { FitsTask task.now tables.now }
    requires formed { IsFormed task.now sheet.now }
    ensures { MatchBool result (IsStep9After task.now tables.now sheet.now x p d) (IsStep9After task.now tables.now sheet.now x p d → ⊥) }
{
    match threatened(task, sheet, x, p, d) {
        Some(y) => !can_precede(task, tables, sheet, Cand::Tok(d), Cand::Tok(y)),
        None => false,
    }
}

/// Whether `d` threatens what one token supplies and `x` cannot precede `d`: rule 9, ahead.
pub fn is_step9_ahead(task: &Task, tables: &Tables, sheet: &Sheet, x: u32, p: u32, d: u32) -> bool
    requires tables { FitsTask task.now tables.now }
    requires formed { IsFormed task.now sheet.now }
    ensures { MatchBool result (IsStep9Ahead task.now tables.now sheet.now x p d) (IsStep9Ahead task.now tables.now sheet.now x p d → ⊥) }
{
    match threatened(task, sheet, x, p, d) {
        Some(_) => !can_precede(task, tables, sheet, Cand::Tok(x), Cand::Tok(d)),
        None => false,
    }
}

fn is_before_token(task: &Task, tables: &Tables, token: &Token, a: u32, p: u32, v: Span) -> bool
    requires tables { FitsTask task.now tables.now }
    requires small { IsBelow (2 ^ 63) token.now.span.lo }
    ensures { MatchBool result (IsBeforeToken task.now tables.now a p v token.now) (IsBeforeToken task.now tables.now a p v token.now → ⊥) }
{
    !adds(task, token.kind, p)
        || {
            let apart = gap(task, tables, token.kind, Kind::Act(a));
            is_no_later(v, add_spans(token.span.lo, apart))
        }
}

fn is_before_each_token(
    task: &Task,
    tables: &Tables,
    tokens: &[Token],
    a: u32,
    p: u32,
    v: Span,
) -> bool
    requires tables { FitsTask task.now tables.now }
    requires small { All (λ z. IsBelow (2 ^ 63) z.span.lo) tokens.now }
    ensures { MatchBool result (All (IsBeforeToken task.now tables.now a p v) tokens.now) (All (IsBeforeToken task.now tables.now a p v) tokens.now → ⊥) }
{
    for token in tokens {
        if !is_before_token(task, tables, token, a, p, v) {
            return false;
        }
    }
    true
}

#[tactic(auto, using(cpt_sheet::proofs::FormedLemmas::tokens_small))]
fn is_before_tokens(task: &Task, tables: &Tables, sheet: &Sheet, a: u32, p: u32, v: Span) -> bool
    requires tables { FitsTask task.now tables.now }
    requires formed { IsFormed task.now sheet.now }
    ensures { MatchBool result (IsBeforeTokens task.now tables.now sheet.now a p v) (IsBeforeTokens task.now tables.now sheet.now a p v → ⊥) }
{
    is_before_each_token(task, tables, sheet.tokens.as_slice(), a, p, v)
}

fn is_before_out(
    task: &Task,
    tables: &Tables,
    sheet: &Sheet,
    o: u32,
    a: u32,
    p: u32,
    v: Span,
) -> bool
    requires tables { FitsTask task.now tables.now }
    requires formed { IsFormed task.now sheet.now }
    ensures { MatchBool result (IsBeforeOut task.now tables.now sheet.now a p v o) (IsBeforeOut task.now tables.now sheet.now a p v o → ⊥) }
{
    if !adds(task, Kind::Act(o), p) {
        return true;
    }
    if is_shut(span(sheet, Cand::Out(o))) {
        return true;
    }
    is_no_later(v, arrives(task, tables, sheet, Cand::Out(o), Cand::Out(a)))
}

fn is_before_outs(task: &Task, tables: &Tables, sheet: &Sheet, a: u32, p: u32, v: Span) -> bool
    requires tables { FitsTask task.now tables.now }
    requires formed { IsFormed task.now sheet.now }
    ensures { MatchBool result (IsBeforeOuts task.now tables.now sheet.now a p v) (IsBeforeOuts task.now tables.now sheet.now a p v → ⊥) }
{
    for o in 0..task.actions().len() {
        if !is_before_out(task, tables, sheet, o as u32, a, p, v) {
            return false;
        }
    }
    true
}

/// Whether `v` is no later than the arrival at the outside action `a` from each that adds its precondition `p`: rule 10.
pub fn is_step10(task: &Task, tables: &Tables, sheet: &Sheet, a: u32, p: u32, v: Span) -> bool
    requires tables { FitsTask task.now tables.now }
    requires formed { IsFormed task.now sheet.now }
    ensures { MatchBool result (IsStep10 task.now tables.now sheet.now a p v) (IsStep10 task.now tables.now sheet.now a p v → ⊥) }
{
    needs_of(task, Kind::Act(a)).contains(&p)
        && is_outside_moment(v)
        && is_before_tokens(task, tables, sheet, a, p, v)
        && is_before_outs(task, tables, sheet, a, p, v)
}

/// The token whose place the outside action `a` threatens, where it does.
pub fn threatened_outside(task: &Task, sheet: &Sheet, x: u32, p: u32, a: u32) -> Option<u32>
    ensures { MatchOption result ((y : ℕ) → IsOutsideThreat task.now sheet.now x p a y → ⊥) (IsOutsideThreat task.now sheet.now x p a) }
{
    let y = one_token(list(sheet, x, p))?;
    let deleted = deletes(task, Kind::Act(a), p);
    if needs(sheet, x, p) && deleted {
        Some(y)
    } else {
        None
    }
}

fn comes_after(task: &Task, tables: &Tables, sheet: &Sheet, x: u32, a: u32, v: Span) -> bool
    requires tables { FitsTask task.now tables.now }
    requires formed { IsFormed task.now sheet.now }
    ensures { MatchBool result (ComesAfter task.now tables.now sheet.now x a v) (ComesAfter task.now tables.now sheet.now x a v → ⊥) }
{
    is_outside_moment(v) && is_no_later(v, arrives(task, tables, sheet, Cand::Tok(x), Cand::Out(a)))
}

fn comes_ahead(task: &Task, tables: &Tables, sheet: &Sheet, a: u32, y: u32, v: Span) -> bool
    requires tables { FitsTask task.now tables.now }
    ensures { MatchBool result (ComesAhead task.now tables.now sheet.now a y v) (ComesAhead task.now tables.now sheet.now a y v → ⊥) }
{
    is_no_later(
        must_begin_by(task, tables, sheet, Cand::Out(a), Cand::Tok(y)),
        v,
    )
}

/// Whether the outside action `a` deletes what one token supplies, cannot precede it, and comes after `x` from `v` on:
/// rule 11, after.
pub fn is_step11_after(
    task: &Task,
    tables: &Tables,
    sheet: &Sheet,
    x: u32,
    p: u32,
    a: u32,
    v: Span,
) -> bool
    requires tables { FitsTask task.now tables.now }
    requires formed { IsFormed task.now sheet.now }
    ensures { MatchBool result (IsStep11After task.now tables.now sheet.now x p a v) (IsStep11After task.now tables.now sheet.now x p a v → ⊥) }
{
    match threatened_outside(task, sheet, x, p, a) {
        Some(y) => {
            !can_precede(task, tables, sheet, Cand::Out(a), Cand::Tok(y))
                && comes_after(task, tables, sheet, x, a, v)
        }
        None => false,
    }
}

/// Whether the outside action `a` deletes what one token supplies, `x` cannot precede it, and it comes by `v` before that
/// token: rule 11, ahead.
pub fn is_step11_ahead(
    task: &Task,
    tables: &Tables,
    sheet: &Sheet,
    x: u32,
    p: u32,
    a: u32,
    v: Span,
) -> bool
    requires tables { FitsTask task.now tables.now }
    requires formed { IsFormed task.now sheet.now }
    ensures { MatchBool result (IsStep11Ahead task.now tables.now sheet.now x p a v) (IsStep11Ahead task.now tables.now sheet.now x p a v → ⊥) }
{
    match threatened_outside(task, sheet, x, p, a) {
        Some(y) => {
            !can_precede(task, tables, sheet, Cand::Tok(x), Cand::Out(a))
                && comes_ahead(task, tables, sheet, a, y, v)
        }
        None => false,
    }
}

/// Whether `x` interferes with the outside action `a`, which cannot precede it and comes after it from `v` on: rule 12,
/// after.
pub fn is_step12_after(task: &Task, tables: &Tables, sheet: &Sheet, x: u32, a: u32, v: Span) -> bool
    requires tables { FitsTask task.now tables.now }
    requires formed { IsFormed task.now sheet.now }
    ensures { MatchBool result (IsStep12After task.now tables.now sheet.now x a v) (IsStep12After task.now tables.now sheet.now x a v → ⊥) }
{
    clash(task, kind(sheet, Cand::Tok(x)), Kind::Act(a))
        && !can_precede(task, tables, sheet, Cand::Out(a), Cand::Tok(x))
        && comes_after(task, tables, sheet, x, a, v)
}

/// Whether `x` interferes with the outside action `a`, which `x` cannot precede and which comes by `v` before it: rule 12,
/// ahead.
pub fn is_step12_ahead(task: &Task, tables: &Tables, sheet: &Sheet, x: u32, a: u32, v: Span) -> bool
    requires tables { FitsTask task.now tables.now }
    requires formed { IsFormed task.now sheet.now }
    ensures { MatchBool result (IsStep12Ahead task.now tables.now sheet.now x a v) (IsStep12Ahead task.now tables.now sheet.now x a v → ⊥) }
{
    clash(task, kind(sheet, Cand::Tok(x)), Kind::Act(a))
        && !can_precede(task, tables, sheet, Cand::Tok(x), Cand::Out(a))
        && comes_ahead(task, tables, sheet, a, x, v)
}

fn are_impossible(
    task: &Task,
    tables: &Tables,
    sheet: &Sheet,
    p: u32,
    q: u32,
    c: Cand,
    list: &[Cand],
) -> bool
    requires tables { FitsTask task.now tables.now }
    requires formed { IsFormed task.now sheet.now }
    ensures { MatchBool result (All (IsImpossibleBeside task.now tables.now sheet.now p q c) list.now) (All (IsImpossibleBeside task.now tables.now sheet.now p q c) list.now → ⊥) }
{
    for d in list {
        if !is_impossible_beside(task, tables, sheet, p, q, c, *d) {
            return false;
        }
    }
    true
}

fn is_none_beside(
    task: &Task,
    tables: &Tables,
    sheet: &Sheet,
    x: u32,
    p: u32,
    c: Cand,
    q: u32,
) -> bool
    requires tables { FitsTask task.now tables.now }
    requires formed { IsFormed task.now sheet.now }
    ensures { MatchBool result (IsNoneBeside task.now tables.now sheet.now x p c q) (IsNoneBeside task.now tables.now sheet.now x p c q → ⊥) }
{
    are_impossible(task, tables, sheet, p, q, c, list(sheet, x, q))
}

/// Whether `c` is a candidate for `p` beside which each candidate for `q` is impossible: rule 13.
pub fn is_step13(
    task: &Task,
    tables: &Tables,
    sheet: &Sheet,
    x: u32,
    p: u32,
    c: Cand,
    q: u32,
) -> bool
    requires tables { FitsTask task.now tables.now }
    requires formed { IsFormed task.now sheet.now }
    ensures { MatchBool result (IsStep13 task.now tables.now sheet.now x p c q) (IsStep13 task.now tables.now sheet.now x p c q → ⊥) }
{
    is_candidate(sheet, x, p, c)
        && is_other_need(sheet, x, p, q)
        && is_none_beside(task, tables, sheet, x, p, c, q)
}

/// Whether the condition of the step holds, with the limit of its value.
pub fn is_allowed(task: &Task, tables: &Tables, sheet: &Sheet, step: Step) -> bool
    requires tables { FitsTask task.now tables.now }
    requires formed { IsFormed task.now sheet.now }
    ensures { MatchBool result (Allowed task.now tables.now sheet.now step) (Allowed task.now tables.now sheet.now step → ⊥) }
{
    match step {
        Step::R1 { first, second, to } => is_step1(task, tables, sheet, first, second, to),
        Step::R2 { first, second, to } => is_step2(task, tables, sheet, first, second, to),
        Step::R3 { first, second } => is_step3(task, tables, sheet, first, second),
        Step::R4 { tok, pre, to } => is_step4(task, tables, sheet, tok, pre, to),
        Step::R5 { tok, pre, cand } => is_step5(task, tables, sheet, tok, pre, cand),
        Step::R6 { tok, pre } => is_step6(sheet, tok, pre),
        Step::R7 { tok, pre, act } => is_step7(sheet, tok, pre, act),
        Step::R8 {
            tok,
            pre,
            cand,
            foe,
        } => is_step8(task, tables, sheet, tok, pre, cand, foe),
        Step::R9After { tok, pre, foe } => is_step9_after(task, tables, sheet, tok, pre, foe),
        Step::R9Ahead { tok, pre, foe } => is_step9_ahead(task, tables, sheet, tok, pre, foe),
        Step::R10 { act, pre, to } => is_step10(task, tables, sheet, act, pre, to),
        Step::R11After { tok, pre, act, to } => {
            is_step11_after(task, tables, sheet, tok, pre, act, to)
        }
        Step::R11Ahead { tok, pre, act, to } => {
            is_step11_ahead(task, tables, sheet, tok, pre, act, to)
        }
        Step::R12After { tok, act, to } => is_step12_after(task, tables, sheet, tok, act, to),
        Step::R12Ahead { tok, act, to } => is_step12_ahead(task, tables, sheet, tok, act, to),
        Step::R13 {
            tok,
            pre,
            cand,
            other,
        } => is_step13(task, tables, sheet, tok, pre, cand, other),
    }
}

/// The number of the first token of a list that begins with one.
pub fn first_token(list: &[Cand]) -> u32
    ensures { result ≡ only list.now }
{
    match list {
        [Cand::Tok(y), ..] => *y,
        _ => 0,
    }
}

fn raise(at: Cand, to: Span) -> Change
    ensures { result ≡ Change.Raise at to }
{
    Change::Raise { at, to }
}

fn lower(at: Cand, to: Span) -> Change
    ensures { result ≡ Change.Lower at to }
{
    Change::Lower { at, to }
}

/// What a step changes.
pub fn change_of(sheet: &Sheet, step: Step) -> Change
    ensures { result ≡ change_of sheet.now step }
{
    match step {
        Step::R1 { second, to, .. } => raise(Cand::Tok(second), to),
        Step::R2 { first, to, .. } => lower(Cand::Tok(first), to),
        Step::R3 { first, second } => Change::Post { first, second },
        Step::R4 { tok, to, .. } => raise(Cand::Tok(tok), to),
        Step::R5 { tok, pre, cand } => Change::Take { tok, pre, cand },
        Step::R6 { tok, pre } => Change::Post {
            first: first_token(list(sheet, tok, pre)),
            second: tok,
        },
        Step::R7 { tok, pre, act } => Change::Take {
            tok,
            pre,
            cand: Cand::Out(act),
        },
        Step::R8 { tok, pre, cand, .. } => Change::Take { tok, pre, cand },
        Step::R9After { tok, foe, .. } => Change::Post {
            first: tok,
            second: foe,
        },
        Step::R9Ahead { tok, pre, foe } => Change::Post {
            first: foe,
            second: first_token(list(sheet, tok, pre)),
        },
        Step::R10 { act, to, .. } => raise(Cand::Out(act), to),
        Step::R11After { act, to, .. } => raise(Cand::Out(act), to),
        Step::R11Ahead { act, to, .. } => lower(Cand::Out(act), to),
        Step::R12After { act, to, .. } => raise(Cand::Out(act), to),
        Step::R12Ahead { act, to, .. } => lower(Cand::Out(act), to),
        Step::R13 { tok, pre, cand, .. } => Change::Take { tok, pre, cand },
    }
}

/// Whether the change narrows the sheet.
pub fn moves(sheet: &Sheet, change: Change) -> bool
    ensures { MatchBool result (Moves sheet.now change) (Moves sheet.now change → ⊥) }
{
    match change {
        Change::Raise { at, to } => is_sooner(span(sheet, at).lo, to),
        Change::Lower { at, to } => is_sooner(to, Span::At(span(sheet, at).hi)),
        Change::Take { tok, pre, cand } => is_listed(list(sheet, tok, pre), cand),
        Change::Post { first, second } => !stands(sheet, first, second),
    }
}

/// Whether the sheet is not dead, and the step is allowed by its rule and narrows the sheet.
pub fn legal(task: &Task, tables: &Tables, sheet: &Sheet, step: &Step) -> bool
    requires tables { FitsTask task.now tables.now }
    requires formed { IsFormed task.now sheet.now }
    ensures { IsTrue result ↔ IsLegal task.now tables.now sheet.now step.now }
{
    let step = *step;
    !is_dead(sheet) && is_allowed(task, tables, sheet, step) && moves(sheet, change_of(sheet, step))
}
