//! Tasks as JSON texts.

ghost use Rattle.std.specs.Prelude.{◌≡◌, true, Ok, IfOk};
ghost use Rattle.cpt_json_form.specs.Reading.{ReadsTask};
ghost use Rattle.cpt_json_form.specs.Values.{action_object, action_value, number_value, task_object, task_value};
ghost use Rattle.cpt_line.specs.Names.{is_name};
ghost use Rattle.cpt_task_text.specs.Plain.{IsPlain};
ghost use Rattle.serde_json.specs.View.{view};
ghost use Rattle.serde_json.specs.Written.{compact_text};

use crate::values::{ToJson, array_of, name_value};
use cpt_task::{Action, Memory, Task};
use serde_json::{Value, json};
use std::alloc::{AllocError, Global};

/// The members of an action as an object.
fn action_object(
    alloc: Global,
    add: Value,
    del: Value,
    dur: u32,
    name: Value,
    pre: Value,
) -> Result<Value, AllocError>
    ensures { IfOk result (λ v. view v ≡ action_object (view add) (view del) (number_value dur) (view name) (view pre)) }
{
    json!(in alloc; {"add": add, "del": del, "dur": dur, "name": name, "pre": pre})
}

impl ToJson for Action {
    ghost form = { action_value };

    ghost has_form = { λ a. is_name a.name ≡ true };

    fn to_json(&self, alloc: Global) -> Result<Value, AllocError> {
        let add = array_of(alloc, self.add.as_slice())?;
        let del = array_of(alloc, self.dele.as_slice())?;
        let name = name_value(alloc, self.name.as_slice())?;
        let pre = array_of(alloc, self.pre.as_slice())?;
        action_object(alloc, add, del, self.dur, name, pre)
    }
}

/// The members of a task as an object.
fn task_object(
    alloc: Global,
    actions: Value,
    atoms: Value,
    goal: Value,
    init: Value,
) -> Result<Value, AllocError>
    ensures { IfOk result (λ v. view v ≡ task_object (view actions) (view atoms) (view goal) (view init)) }
{
    json!(in alloc; {"actions": actions, "atoms": atoms, "goal": goal, "init": init})
}

/// The task as a value.
fn value_of(alloc: Global, task: &Task) -> Result<Value, AllocError>
    ensures { IfOk result (λ v. IsPlain task.now → view v ≡ task_value task.now) }
{
    let actions = array_of(alloc, task.actions())?;
    let atoms = array_of(alloc, task.atoms())?;
    let goal = array_of(alloc, task.goal())?;
    let init = array_of(alloc, task.init())?;
    task_object(alloc, actions, atoms, goal, init)
}

/// The compact text of any task: of one that is plain it is that of its JSON form.
pub fn any_task_json(alloc: Global, task: &Task) -> Result<Vec<u8>, Memory>
    ensures text { IfOk result (λ text. IsPlain task.now → text.items ≡ compact_text (task_value task.now)) }
    ensures again { IfOk result (λ text. IsPlain task.now → ReadsTask text.items (Ok task.now)) }
{
    let value = value_of(alloc, task)?;
    Ok(value.to_vec(alloc)?)
}

/// The compact text of the task, which is read as the same task.
pub fn task_json(alloc: Global, task: &Task) -> Result<Vec<u8>, Memory>
    requires { IsPlain task.now }
    ensures text { IfOk result (λ text. text.items ≡ compact_text (task_value task.now)) }
    ensures again { IfOk result (λ text. ReadsTask text.items (Ok task.now)) }
{
    any_task_json(alloc, task)
}
