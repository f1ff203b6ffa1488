//! The text of a plan at its earliest.

ghost use Rattle.std.specs.Prelude.{◌≡◌, ◌<◌, ◌≤◌, ◌^◌, ◌++◌, length, IfOk, OnOk};
ghost use Rattle.std.specs.List.Sorted.{IsPermutation};
ghost use Rattle.cpt_task.specs.Judgeable.{IsJudgeable};
ghost use Rattle.cpt_task.specs.Timeline.{action_of, occurrence_at, IsOccurrence, IsPlan, IsValid};
ghost use Rattle.cpt_plan_text.specs.Spelling.{IsInPrintOrder, IsTextOf, plan_spelling, spelled_line};
ghost use Rattle.cpt_plan_files.specs.Texts.{critical_line, critical_lines, makespan_line, IsTightText};

use cpt_line::push_decimal;
use cpt_plan_text::text_of;
use cpt_task::{Memory, Occ, Task};
use cpt_tighten::tighten;
use std::alloc::{AllocError, Global};

fn makespan_text(alloc: Global, makespan: u64) -> Result<Vec<u8>, AllocError>
    ensures { IfOk result (λ text. text.items ≡ makespan_line makespan) }
{
    Ok(format!(in alloc; "; makespan {makespan}\n")?.into_bytes())
}

/// The occurrence at the place.
fn occurrence_at(plan: &[Occ], place: u32) -> Occ
    ensures { result ≡ occurrence_at plan.now place }
{
    match plan.get(place as usize) {
        Some(o) => *o,
        None => Occ { act: 0, start: 0 },
    }
}

/// The name of the action of an occurrence.
fn name_of<'a>(task: &'a Task, o: &Occ) -> &'a [u8]
    ensures { result.now ≡ (action_of task.now o.now).name }
{
    match task.actions().get(o.act as usize) {
        Some(action) => action.name.as_slice(),
        None => &[],
    }
}

fn push_critical(text: &mut Vec<u8>, task: &Task, o: &Occ) -> Result<(), AllocError>
    ensures { OnOk result (text.new.items ≡ text.old.items ++ critical_line task.now o.now) }
{
    text.extend_from_slice(b"; critical ")?;
    push_decimal(text, o.start)?;
    text.extend_from_slice(b": ")?;
    text.extend_from_slice(name_of(task, o))?;
    text.extend_from_slice(b"\n")
}

/// The lines of the chain.
fn critical_text(
    alloc: Global,
    task: &Task,
    plan: &[Occ],
    chain: &[u32],
) -> Result<Vec<u8>, AllocError>
    ensures { IfOk result (λ text. text.items ≡ critical_lines task.now plan.now chain.now) }
{
    let mut text = Vec::new(alloc);
    for place in chain {
        let o = occurrence_at(plan, *place);
        push_critical(&mut text, task, &o)?;
    }
    Ok(text)
}

/// The lines of the valid plan at its earliest, its makespan and its chain.
pub fn tight_text(alloc: Global, task: &Task, plan: &[Occ]) -> Result<Vec<u8>, Memory>
    requires plan { IsJudgeable task.now plan.now }
    requires short { length plan.now < 2 ^ 32 }
    requires valid { IsValid task.now plan.now }
    ensures { IfOk result (λ text. IsTightText task.now plan.now text.items) }
{
    let tight = tighten(alloc, task, plan)?;
    let mut text = text_of(alloc, task, tight.plan.as_slice())?;
    let makespan = makespan_text(alloc, tight.makespan)?;
    text.extend_from_slice(&makespan)?;
    let critical = critical_text(alloc, task, tight.plan.as_slice(), tight.chain.as_slice())?;
    text.extend_from_slice(&critical)?;
    Ok(text)
}
