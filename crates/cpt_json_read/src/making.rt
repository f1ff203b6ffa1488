//! Tasks made of what a JSON text gives.

ghost use Rattle.std.specs.Prelude.{◌≡◌, ◌≤◌, ◌<◌, ◌^◌, length, vec_len, All, IfOk};
ghost use Rattle.cpt_task.specs.Shape.{IsDuration};
ghost use Rattle.cpt_json_form.specs.Reading.{HasAtoms, NamesAtoms};

use crate::forms::{ActionForm, TaskForm};
use crate::numbers::ids_of;
use cpt_task::{Action, List, Memory, Task};
use std::alloc::Global;

fn action_of(alloc: Global, count: usize, a: &ActionForm) -> Result<Action, Memory>
    requires few { count ≤ 2048 }
    requires atoms { HasAtoms count a.now }
    requires duration { IsDuration a.now.dur }
    ensures { IfOk result (λ action. action ≡ a.now) }
{
    let pre = ids_of(alloc, count, a.pre.as_slice())?;
    let add = ids_of(alloc, count, a.add.as_slice())?;
    let dele = ids_of(alloc, count, a.dele.as_slice())?;
    let name = List::from_vec(Vec::from_slice(alloc, a.name.as_slice())?);
    Ok(Action {
        name,
        dur: a.dur as u32,
        pre,
        add,
        dele,
    })
}

fn actions_of(alloc: Global, count: usize, forms: &[ActionForm]) -> Result<Vec<Action>, Memory>
    requires few { count ≤ 2048 }
    requires atoms { All (HasAtoms count) forms.now }
    requires durations { All (λ a. IsDuration a.dur) forms.now }
    ensures items { IfOk result (λ actions. actions.items ≡ forms.now) }
    ensures len { IfOk result (λ actions. vec_len actions ≡ length forms.now) }
{
    let mut actions = Vec::new(alloc);
    for form in forms {
        actions.push(action_of(alloc, count, form)?)?;
    }
    Ok(actions)
}

/// The task of this form.
pub fn task_of(alloc: Global, form: TaskForm) -> Result<Task, Memory>
    requires few_atoms { length form.atoms ≤ 2048 }
    requires few_actions { length form.actions ≤ 4096 }
    requires atoms { NamesAtoms form }
    requires durations { All (λ a. IsDuration a.dur) form.actions }
    ensures { IfOk result (λ task. task ≡ form) }
{
    let count = form.atoms().len();
    let actions = actions_of(alloc, count, form.actions())?;
    let init = ids_of(alloc, count, form.init())?;
    let goal = ids_of(alloc, count, form.goal())?;
    match Task::build(form.into_atoms(), actions, init, goal) {
        Ok(task) => Ok(task),
        Err(_) => unreachable!(),
    }
}
