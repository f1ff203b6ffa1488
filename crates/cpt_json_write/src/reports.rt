//! Reports as JSON texts.

ghost use Rattle.std.specs.Prelude.{◌≡◌, ℕ, ◌<◌, length, IfOk};
ghost use Rattle.cpt_json_form.specs.Values.{atom_name, duration_value, report_value, HasAtomsOf};
ghost use Rattle.cpt_task.specs.Shape.{TaskShape};
ghost use Rattle.cpt_task_text.specs.Plain.{IsPlain};
ghost use Rattle.serde_json.specs.Data.{string};
ghost use Rattle.serde_json.specs.View.{view};
ghost use Rattle.serde_json.specs.Written.{compact_text};

use crate::values::name_value;
use cpt_task::{Memory, Task, Verdict};
use serde_json::{Value, json};
use std::alloc::{AllocError, Global};

/// The name of the atom.
fn atom_name<'a>(task: &'a Task, atom: u32) -> &'a [u8]
    ensures { result.now ≡ atom_name task.now atom }
{
    match task.atoms().get(atom as usize) {
        Some(name) => name.as_slice(),
        None => &[],
    }
}

/// The name of the atom as a string.
fn atom_value(alloc: Global, task: &Task, atom: u32) -> Result<Value, AllocError>
    requires plain { IsPlain task.now }
    requires atom { atom < length task.now.atoms }
    ensures { IfOk result (λ v. view v ≡ string (atom_name task.now atom)) }
{
    name_value(alloc, atom_name(task, atom))
}

fn valid_value(alloc: Global, makespan: u64) -> Result<Value, AllocError>
    ensures { IfOk result (λ v. (t : TaskShape) → view v ≡ report_value t (Verdict.Valid makespan)) }
{
    json!(in alloc; {"makespan": makespan, "valid": true})
}

fn overlap_value(alloc: Global, first: u32, second: u32) -> Result<Value, AllocError>
    ensures { IfOk result (λ v. (t : TaskShape) → view v ≡ report_value t (Verdict.Overlap first second)) }
{
    json!(in alloc; {"fault": "overlap", "first": first, "second": second, "valid": false})
}

fn unmet_value(alloc: Global, name: Value, place: u32, time: u64) -> Result<Value, AllocError>
    ensures { IfOk result (λ v. (t : TaskShape) (atom : ℕ) → view name ≡ string (atom_name t atom) → view v ≡ report_value t (Verdict.Unmet place atom time)) }
{
    json!(in alloc; {"atom": name, "fault": "unmet", "item": place, "time": time, "valid": false})
}

fn missing_value(alloc: Global, name: Value) -> Result<Value, AllocError>
    ensures { IfOk result (λ v. (t : TaskShape) (atom : ℕ) → view name ≡ string (atom_name t atom) → view v ≡ report_value t (Verdict.GoalMissing atom)) }
{
    json!(in alloc; {"atom": name, "fault": "goal", "valid": false})
}

/// What is said of a verdict.
fn value_of(alloc: Global, task: &Task, verdict: Verdict) -> Result<Value, AllocError>
    requires plain { IsPlain task.now }
    requires atoms { HasAtomsOf task.now verdict }
    ensures { IfOk result (λ v. view v ≡ report_value task.now verdict) }
{
    match verdict {
        Verdict::Valid(makespan) => valid_value(alloc, makespan),
        Verdict::Overlap(first, second) => overlap_value(alloc, first, second),
        Verdict::Unmet(place, atom, time) => {
            let name = atom_value(alloc, task, atom)?;
            unmet_value(alloc, name, place, time)
        }
        Verdict::GoalMissing(atom) => {
            let name = atom_value(alloc, task, atom)?;
            missing_value(alloc, name)
        }
    }
}

/// The compact text of what is said of a verdict on a plan over the task.
pub fn report_json(alloc: Global, task: &Task, verdict: &Verdict) -> Result<Vec<u8>, Memory>
    requires plain { IsPlain task.now }
    requires atoms { HasAtomsOf task.now verdict.now }
    ensures { IfOk result (λ text. text.items ≡ compact_text (report_value task.now verdict.now)) }
{
    let value = value_of(alloc, task, *verdict)?;
    Ok(value.to_vec(alloc)?)
}

/// What is said where the item at a place has another duration than its action, which lasts so long.
fn duration_value(alloc: Global, place: u32, dur: u32) -> Result<Value, AllocError>
    ensures { IfOk result (λ v. view v ≡ duration_value place dur) }
{
    json!(in alloc; {"dur": dur, "fault": "duration", "item": place, "valid": false})
}

/// The compact text of what is said where the item at a place has another duration than its action, which lasts so long.
pub fn duration_json(alloc: Global, place: u32, dur: u32) -> Result<Vec<u8>, Memory>
    ensures { IfOk result (λ text. text.items ≡ compact_text (duration_value place dur)) }
{
    let value = duration_value(alloc, place, dur)?;
    Ok(value.to_vec(alloc)?)
}
