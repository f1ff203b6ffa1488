//! Sheets narrowed by whatever steps are legal, until none is.

ghost use Rattle.std.specs.Prelude.{IfSome};
ghost use Rattle.cpt_sheet.specs.Formed.{IsFormed};
ghost use Rattle.cpt_sheet.specs.Gaps.{FitsTask};

use cpt_calculus::{legal, narrow};
use cpt_sheet::{Cand, Interval, Need, Sheet, Step, is_dead, span};
use cpt_tables::Tables;
use cpt_task::{Span, Task};
use std::alloc::Global;

/// How many tokens, atoms and actions there are.
#[derive(Clone, Copy)]
struct Sizes {
    tokens: u32,
    atoms: u32,
    acts: u32,
}

/// The steps between two tokens, and between a token and an outside action.
fn push_orders(steps: &mut Vec<Step>, sizes: Sizes, tok: u32) -> Option<()> {
    let first = tok;
    let to = Span::Never;
    for second in 0..sizes.tokens {
        steps.push(Step::R1 { first, second, to }).ok()?;
        steps.push(Step::R2 { first, second, to }).ok()?;
        steps.push(Step::R3 { first, second }).ok()?;
    }
    for act in 0..sizes.acts {
        steps.push(Step::R12After { tok, act, to }).ok()?;
        steps.push(Step::R12Ahead { tok, act, to }).ok()?;
    }
    Some(())
}

/// The steps at a list of a token, but for those about one candidate.
fn push_list(steps: &mut Vec<Step>, sizes: Sizes, tok: u32, pre: u32) -> Option<()> {
    let to = Span::Never;
    steps.push(Step::R4 { tok, pre, to }).ok()?;
    steps.push(Step::R6 { tok, pre }).ok()?;
    for foe in 0..sizes.tokens {
        steps.push(Step::R9After { tok, pre, foe }).ok()?;
        steps.push(Step::R9Ahead { tok, pre, foe }).ok()?;
    }
    for act in 0..sizes.acts {
        steps.push(Step::R7 { tok, pre, act }).ok()?;
        steps.push(Step::R11After { tok, pre, act, to }).ok()?;
        steps.push(Step::R11Ahead { tok, pre, act, to }).ok()?;
    }
    Some(())
}

/// The steps about one candidate of a list.
fn push_cand(steps: &mut Vec<Step>, sizes: Sizes, tok: u32, pre: u32, cand: Cand) -> Option<()> {
    steps.push(Step::R5 { tok, pre, cand }).ok()?;
    for foe in 0..sizes.tokens {
        let step = Step::R8 {
            tok,
            pre,
            cand,
            foe,
        };
        steps.push(step).ok()?;
    }
    for other in 0..sizes.atoms {
        let step = Step::R13 {
            tok,
            pre,
            cand,
            other,
        };
        steps.push(step).ok()?;
    }
    Some(())
}

/// All steps of a token.
fn push_token(steps: &mut Vec<Step>, sizes: Sizes, tok: u32, needs: &[Need]) -> Option<()> {
    push_orders(steps, sizes, tok)?;
    for need in needs {
        push_list(steps, sizes, tok, need.atom)?;
        for cand in need.cands.as_slice() {
            push_cand(steps, sizes, tok, need.atom, *cand)?;
        }
    }
    Some(())
}

fn sizes_of(task: &Task, sheet: &Sheet) -> Option<Sizes> {
    Some(Sizes {
        tokens: u32::try_from(sheet.tokens.as_slice().len()).ok()?,
        atoms: u32::try_from(task.atoms().len()).ok()?,
        acts: u32::try_from(task.actions().len()).ok()?,
    })
}

/// The steps of the tokens.
fn push_tokens(steps: &mut Vec<Step>, sizes: Sizes, sheet: &Sheet) -> Option<()> {
    let mut tok = 0;
    for token in sheet.tokens.as_slice() {
        push_token(steps, sizes, tok, token.lists.as_slice())?;
        tok = tok.wrapping_add(1);
    }
    Some(())
}

/// The steps of an outside action.
fn push_outside(steps: &mut Vec<Step>, sizes: Sizes, act: u32) -> Option<()> {
    let to = Span::Never;
    for pre in 0..sizes.atoms {
        steps.push(Step::R10 { act, pre, to }).ok()?;
    }
    Some(())
}

/// All steps about tokens, lists and outside actions of the sheet, with the value Never.
fn steps_of(alloc: Global, task: &Task, sheet: &Sheet) -> Option<Vec<Step>> {
    let mut steps = Vec::new(alloc);
    let sizes = sizes_of(task, sheet)?;
    push_tokens(&mut steps, sizes, sheet)?;
    for act in 0..sizes.acts {
        push_outside(&mut steps, sizes, act)?;
    }
    Some(steps)
}

fn later(span: Interval) -> Span {
    match span.lo {
        Span::At(moment) => Span::At(moment.saturating_add(1)),
        Span::Never => Span::Never,
    }
}

fn earlier(span: Interval) -> Span {
    Span::At(span.hi.saturating_sub(1))
}

/// The step with the weakest value that changes the sheet.
fn nudge(sheet: &Sheet, step: Step) -> Step {
    match step {
        Step::R1 { first, second, .. } => Step::R1 {
            first,
            second,
            to: later(span(sheet, Cand::Tok(second))),
        },
        Step::R2 { first, second, .. } => Step::R2 {
            first,
            second,
            to: earlier(span(sheet, Cand::Tok(first))),
        },
        Step::R4 { tok, pre, .. } => Step::R4 {
            tok,
            pre,
            to: later(span(sheet, Cand::Tok(tok))),
        },
        Step::R10 { act, pre, .. } => Step::R10 {
            act,
            pre,
            to: later(span(sheet, Cand::Out(act))),
        },
        Step::R11After { tok, pre, act, .. } => Step::R11After {
            tok,
            pre,
            act,
            to: later(span(sheet, Cand::Out(act))),
        },
        Step::R11Ahead { tok, pre, act, .. } => Step::R11Ahead {
            tok,
            pre,
            act,
            to: earlier(span(sheet, Cand::Out(act))),
        },
        Step::R12After { tok, act, .. } => Step::R12After {
            tok,
            act,
            to: later(span(sheet, Cand::Out(act))),
        },
        Step::R12Ahead { tok, act, .. } => Step::R12Ahead {
            tok,
            act,
            to: earlier(span(sheet, Cand::Out(act))),
        },
        _ => step,
    }
}

/// Takes the step where it is legal, and says whether it is.
fn take_step(task: &Task, tables: &Tables, sheet: &mut Sheet, step: &Step) -> Option<bool>
    requires tables { FitsTask task.now tables.now }
    requires formed { IsFormed task.now sheet.old }
    ensures { IfSome result (λ taken. IsFormed task.now sheet.new) }
{
    if !legal(task, tables, sheet, step) {
        return Some(false);
    }
    match narrow(sheet, step) {
        Ok(()) => Some(true),
        Err(_) => None,
    }
}

/// Takes the step with the value Never, and then with the weakest one, where that is legal; and says whether one was.
fn take_either(task: &Task, tables: &Tables, sheet: &mut Sheet, step: &Step) -> Option<bool>
    requires tables { FitsTask task.now tables.now }
    requires formed { IsFormed task.now sheet.old }
    ensures { IfSome result (λ taken. IsFormed task.now sheet.new) }
{
    let whole = take_step(task, tables, sheet, step)?;
    let nudged = nudge(sheet, *step);
    let part = take_step(task, tables, sheet, &nudged)?;
    Some(whole || part)
}

/// Takes each of the steps in turn, and says whether one was legal.
fn take_steps(task: &Task, tables: &Tables, sheet: &mut Sheet, steps: &[Step]) -> Option<bool>
    requires tables { FitsTask task.now tables.now }
    requires formed { IsFormed task.now sheet.old }
    ensures { IfSome result (λ taken. IsFormed task.now sheet.new) }
{
    let mut taken = false;
    for step in steps {
        if take_either(task, tables, sheet, step)? {
            taken = true;
        }
    }
    Some(taken)
}

/// Narrows the sheet until no step is legal; None where it takes too long.
pub fn close(alloc: Global, task: &Task, tables: &Tables, sheet: &mut Sheet) -> Option<()>
    requires tables { FitsTask task.now tables.now }
    requires formed { IsFormed task.now sheet.old }
    ensures { IfSome result (λ u. IsFormed task.now sheet.new) }
{
    'rounds: for _ in 0..1000 {
        let steps = steps_of(alloc, task, sheet)?;
        if is_dead(sheet) {
            return Some(());
        }
        if !take_steps(task, tables, sheet, steps.as_slice())? {
            return Some(());
        }
    }
    None
}
