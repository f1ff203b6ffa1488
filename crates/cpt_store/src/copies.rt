//! Copies of tasks.

ghost use Rattle.std.specs.Prelude.{◌≡◌, IfOk};
ghost use Rattle.std.specs.List.Sorted.{IsStrictlyIncreasing};

use cpt_task::{Action, Ids, List, Memory, Name, Task};
use std::alloc::Global;

fn copy_ids(alloc: Global, ids: &[u32]) -> Result<Ids, Memory>
    requires { IsStrictlyIncreasing ids.now }
    ensures { IfOk result (λ i. i ≡ ids.now) }
{
    let items = Vec::from_slice(alloc, ids)?;
    match Ids::from_vec(items) {
        Some(ids) => Ok(ids),
        None => unreachable!(),
    }
}

fn copy_name(alloc: Global, name: &[u8]) -> Result<Name, Memory>
    ensures { IfOk result (λ n. n ≡ name.now) }
{
    Ok(List::from_vec(Vec::from_slice(alloc, name)?))
}

fn copy_names(alloc: Global, names: &[Name]) -> Result<Vec<Name>, Memory>
    ensures { IfOk result (λ v. v.items ≡ names.now) }
{
    let mut copies = Vec::new(alloc);
    for name in names {
        copies.push(copy_name(alloc, name.as_slice())?)?;
    }
    Ok(copies)
}

fn copy_action(alloc: Global, action: &Action) -> Result<Action, Memory>
    ensures { IfOk result (λ a. a ≡ action.now) }
{
    let name = copy_name(alloc, action.name.as_slice())?;
    let pre = copy_ids(alloc, action.pre.as_slice())?;
    let add = copy_ids(alloc, action.add.as_slice())?;
    let dele = copy_ids(alloc, action.dele.as_slice())?;
    Ok(Action {
        name,
        dur: action.dur,
        pre,
        add,
        dele,
    })
}

fn copy_actions(alloc: Global, actions: &[Action]) -> Result<Vec<Action>, Memory>
    ensures { IfOk result (λ v. v.items ≡ actions.now) }
{
    let mut copies = Vec::new(alloc);
    for action in actions {
        copies.push(copy_action(alloc, action)?)?;
    }
    Ok(copies)
}

/// The same task.
pub(crate) fn copy_task(alloc: Global, task: &Task) -> Result<Task, Memory>
    ensures { IfOk result (λ t. t ≡ task.now) }
{
    let atoms = copy_names(alloc, task.atoms())?;
    let actions = copy_actions(alloc, task.actions())?;
    let init = copy_ids(alloc, task.init())?;
    let goal = copy_ids(alloc, task.goal())?;
    match Task::build(atoms, actions, init, goal) {
        Ok(task) => Ok(task),
        Err(_) => unreachable!(),
    }
}
