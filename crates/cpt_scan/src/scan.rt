//! The legal steps of a sheet, found by trying all: of a moment the next one and, of outside actions, none at all.

ghost use Rattle.std.specs.Prelude.{◌≡◌, OnOk};
ghost use Rattle.cpt_sheet.specs.Formed.{IsFormed};
ghost use Rattle.cpt_sheet.specs.Gaps.{FitsTask};

use cpt_calculus::{change_of, legal};
use cpt_sheet::{Cand, Change, Kind, Sheet, Step, kind, list, needs_of, span};
use cpt_store::Ctx;
use cpt_task::{Memory, Span};
use std::alloc::Global;

/// The moment behind the first one of the subject.
fn later(sheet: &Sheet, c: Cand) -> Span {
    up(span(sheet, c).lo)
}

/// The moment ahead of the last one of the subject.
fn sooner(sheet: &Sheet, c: Cand) -> Span {
    Span::At(span(sheet, c).hi.saturating_sub(1))
}

fn up(moment: Span) -> Span {
    match moment {
        Span::At(v) => Span::At(v.saturating_add(1)),
        Span::Never => Span::Never,
    }
}

fn down(moment: Span) -> Span {
    match moment {
        Span::At(v) => Span::At(v.saturating_sub(1)),
        Span::Never => Span::Never,
    }
}

/// The same step with the next moment, where it has one.
pub fn further(step: Step) -> Step {
    match step {
        Step::R1 { first, second, to } => Step::R1 {
            first,
            second,
            to: up(to),
        },
        Step::R2 { first, second, to } => Step::R2 {
            first,
            second,
            to: down(to),
        },
        Step::R4 { tok, pre, to } => Step::R4 {
            tok,
            pre,
            to: up(to),
        },
        Step::R10 { act, pre, to } => Step::R10 {
            act,
            pre,
            to: up(to),
        },
        Step::R11After { tok, pre, act, to } => Step::R11After {
            tok,
            pre,
            act,
            to: up(to),
        },
        Step::R11Ahead { tok, pre, act, to } => Step::R11Ahead {
            tok,
            pre,
            act,
            to: down(to),
        },
        Step::R12After { tok, act, to } => Step::R12After {
            tok,
            act,
            to: up(to),
        },
        Step::R12Ahead { tok, act, to } => Step::R12Ahead {
            tok,
            act,
            to: down(to),
        },
        _ => step,
    }
}

/// How many tokens there are; 0 where no u32 says it.
pub fn token_count(sheet: &Sheet) -> u32 {
    u32::try_from(sheet.tokens.as_slice().len()).unwrap_or(0)
}

/// Rules 1 to 3.
fn between_tokens(sheet: &Sheet, steps: &mut Vec<Step>, first: u32) -> Result<(), Memory> {
    for second in 0..token_count(sheet) {
        let to = later(sheet, Cand::Tok(second));
        steps.push(Step::R1 { first, second, to })?;
        let to = sooner(sheet, Cand::Tok(first));
        steps.push(Step::R2 { first, second, to })?;
        steps.push(Step::R3 { first, second })?;
    }
    Ok(())
}

/// Rules 4, 6, 9 and 11 for a need.
fn for_need(
    ctx: &Ctx,
    sheet: &Sheet,
    steps: &mut Vec<Step>,
    tok: u32,
    pre: u32,
) -> Result<(), Memory> {
    let to = later(sheet, Cand::Tok(tok));
    steps.push(Step::R4 { tok, pre, to })?;
    steps.push(Step::R6 { tok, pre })?;
    for foe in 0..token_count(sheet) {
        steps.push(Step::R9After { tok, pre, foe })?;
        steps.push(Step::R9Ahead { tok, pre, foe })?;
    }
    for act in 0..ctx.task.actions().len() as u32 {
        let to = Span::Never;
        steps.push(Step::R11After { tok, pre, act, to })?;
        let to = later(sheet, Cand::Out(act));
        steps.push(Step::R11After { tok, pre, act, to })?;
        let to = sooner(sheet, Cand::Out(act));
        steps.push(Step::R11Ahead { tok, pre, act, to })?;
    }
    Ok(())
}

/// Rules 5, 7, 8 and 13 for a candidate.
fn for_candidate(
    ctx: &Ctx,
    sheet: &Sheet,
    steps: &mut Vec<Step>,
    tok: u32,
    pre: u32,
    cand: Cand,
) -> Result<(), Memory> {
    steps.push(Step::R5 { tok, pre, cand })?;
    if let Cand::Out(act) = cand {
        steps.push(Step::R7 { tok, pre, act })?;
    }
    for foe in 0..token_count(sheet) {
        steps.push(Step::R8 {
            tok,
            pre,
            cand,
            foe,
        })?;
    }
    for other in needs_of(ctx.task, kind(sheet, Cand::Tok(tok))) {
        let other = *other;
        steps.push(Step::R13 {
            tok,
            pre,
            cand,
            other,
        })?;
    }
    Ok(())
}

/// Rules 10 and 12 for an outside action.
fn for_action(ctx: &Ctx, sheet: &Sheet, steps: &mut Vec<Step>, act: u32) -> Result<(), Memory> {
    let later = later(sheet, Cand::Out(act));
    for pre in needs_of(ctx.task, Kind::Act(act)) {
        let pre = *pre;
        let to = Span::Never;
        steps.push(Step::R10 { act, pre, to })?;
        let to = later;
        steps.push(Step::R10 { act, pre, to })?;
    }
    for tok in 0..token_count(sheet) {
        let to = Span::Never;
        steps.push(Step::R12After { tok, act, to })?;
        let to = later;
        steps.push(Step::R12After { tok, act, to })?;
        let to = sooner(sheet, Cand::Out(act));
        steps.push(Step::R12Ahead { tok, act, to })?;
    }
    Ok(())
}

/// All for the needs of a token.
fn for_token(ctx: &Ctx, sheet: &Sheet, steps: &mut Vec<Step>, tok: u32) -> Result<(), Memory> {
    for pre in needs_of(ctx.task, kind(sheet, Cand::Tok(tok))) {
        for_need(ctx, sheet, steps, tok, *pre)?;
        for cand in list(sheet, tok, *pre) {
            for_candidate(ctx, sheet, steps, tok, *pre, *cand)?;
        }
    }
    between_tokens(sheet, steps, tok)
}

/// All steps that may be legal.
pub fn all_steps(alloc: Global, ctx: &Ctx, sheet: &Sheet) -> Result<Vec<Step>, Memory> {
    let mut steps = Vec::new(alloc);
    for tok in 0..token_count(sheet) {
        for_token(ctx, sheet, &mut steps, tok)?;
    }
    for act in 0..ctx.task.actions().len() as u32 {
        for_action(ctx, sheet, &mut steps, act)?;
    }
    Ok(steps)
}

/// Where the step lands.
pub fn landing(sheet: &Sheet, step: Step) -> Cand {
    match change_of(sheet, step) {
        Change::Raise { at, .. } => at,
        Change::Lower { at, .. } => at,
        Change::Take { tok, .. } => Cand::Tok(tok),
        Change::Post { first, .. } => Cand::Tok(first),
    }
}

/// Where the legal steps of the sheet land.
pub fn landings(alloc: Global, ctx: &Ctx, sheet: &Sheet) -> Result<Vec<Cand>, Memory>
    requires tables { FitsTask ctx.now.task.now ctx.now.tables.now }
    requires formed { IsFormed ctx.now.task.now sheet.now }
{
    let mut found = Vec::new(alloc);
    for step in &all_steps(alloc, ctx, sheet)? {
        if legal(ctx.task, ctx.tables, sheet, step) {
            found.push(landing(sheet, *step))?;
        }
    }
    Ok(found)
}
