//! Plans in their JSON form.

ghost use Rattle.std.specs.Prelude.{◌≡◌, ◌<◌, ◌≤◌, ◌^◌, All, IfOk, MatchBool, MatchOption, length, map};
ghost use Rattle.cpt_task.specs.Judgeable.{IsJudgeable};
ghost use Rattle.cpt_json_form.specs.Reading.{AnswersItems, GivesPlan, IsTimed, NamesAction, ReadsPlan, act_of, lasts, occ_of};
ghost use Rattle.cpt_json_form.specs.Steps.{IsFirstNot};

use crate::values::{list_of, value_in};
use cpt_json_form::{JsonPlanError, PlanItem};
use cpt_plan_text::{Found, Roster};
use cpt_task::{Limit, List, Memory, Occ, Task};
use std::alloc::Global;

fn names_action(task: &Task, item: &PlanItem) -> bool
    ensures { MatchBool result (NamesAction task.now item.now) (NamesAction task.now item.now → ⊥) }
{
    matches!(task.find(item.name.as_slice()), Found::Known(_))
}

/// The number of the action that the item names.
fn act_of(task: &Task, item: &PlanItem) -> u32
    ensures { result ≡ act_of task.now item.now }
{
    match task.find(item.name.as_slice()) {
        Found::Known(act) => act,
        _ => 0,
    }
}

/// How long the action lasts that the item names.
fn lasts(task: &Task, item: &PlanItem) -> u32
    ensures { result ≡ lasts task.now item.now }
{
    match task.actions().get(act_of(task, item) as usize) {
        Some(action) => action.dur,
        None => 0,
    }
}

fn is_timed(task: &Task, item: &PlanItem) -> bool
    ensures { MatchBool result (IsTimed task.now item.now) (IsTimed task.now item.now → ⊥) }
{
    match item.dur {
        Some(dur) => dur == u64::from(lasts(task, item)),
        None => true,
    }
}

fn first_unknown(task: &Task, items: &[PlanItem]) -> Option<usize>
    ensures { MatchOption result (All (NamesAction task.now) items.now) (IsFirstNot (NamesAction task.now) items.now) }
{
    for (k, item) in items.iter().enumerate() {
        if !names_action(task, item) {
            return Some(k);
        }
    }
    None
}

fn start_early(items: &[PlanItem]) -> bool
    ensures { MatchBool result (All (λ i. i.start ≤ 1000000000) items.now) (All (λ i. i.start ≤ 1000000000) items.now → ⊥) }
{
    items.iter().all(|item| item.start <= 1_000_000_000)
}

fn first_mistimed(task: &Task, items: &[PlanItem]) -> Option<usize>
    ensures { MatchOption result (All (IsTimed task.now) items.now) (IsFirstNot (IsTimed task.now) items.now) }
{
    items.iter().position(|item| !is_timed(task, item))
}

/// The occurrences of the items.
fn occs_of(alloc: Global, task: &Task, items: &[PlanItem]) -> Result<List<Occ>, Memory>
    ensures { IfOk result (λ occs. occs ≡ map (occ_of task.now) items.now) }
{
    let mut occs = Vec::new(alloc);
    for item in items {
        occs.push(Occ {
            act: act_of(task, item),
            start: item.start,
        })?;
    }
    Ok(List::from_vec(occs))
}

/// The occurrences of the items, or the first cause for which they are no plan.
fn plan_of(alloc: Global, task: &Task, items: &[PlanItem]) -> Result<List<Occ>, JsonPlanError>
    requires { length items.now < 2 ^ 32 }
    ensures { GivesPlan (λ plan. plan) result (AnswersItems task.now items.now) }
{
    if let Some(place) = first_unknown(task, items) {
        return Err(JsonPlanError::Unknown(place as u32));
    }
    if !start_early(items) {
        return Err(JsonPlanError::Limit(Limit::Start));
    }
    if let Some(place) = first_mistimed(task, items) {
        return Err(JsonPlanError::Duration(place as u32, lasts(task, &items[place])));
    }
    Ok(occs_of(alloc, task, items)?)
}

/// The plan over the task that the text is, or the first cause for which it is none.
pub fn read_plan_json(alloc: Global, task: &Task, text: &[u8]) -> Result<List<Occ>, JsonPlanError>
    requires { length text.now ≤ 16777216 }
    ensures exact { GivesPlan (λ plan. plan) result (ReadsPlan task.now text.now) }
    ensures short { IfOk result (λ plan. length plan < 2 ^ 32) }
    ensures plan { IfOk result (λ plan. IsJudgeable task.now plan) }
{
    let Some(value) = value_in(alloc, text)? else {
        return Err(JsonPlanError::Syntax);
    };
    let items: List<PlanItem> = list_of(alloc, &value)?;
    plan_of(alloc, task, items.as_slice())
}
