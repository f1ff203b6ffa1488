//! The kept part of a task.

ghost use Rattle.std.specs.Prelude.{◌≡◌, ◌<◌, ◌≤◌, ◌^◌, ◌↔◌, IfOk, length, map, All};
ghost use Rattle.std.specs.List.Sorted.{IsStrictlyIncreasing};
ghost use Rattle.cpt_task.specs.Shape.{InBounds};
ghost use Rattle.cpt_reach.specs.Reached.{action_at, IsKeptAtom, IsKeptAction};
ghost use Rattle.cpt_reach.specs.Kept.{IsListOf, IsKeptPart, name_at, renumbered_action};
ghost use Rattle.cpt_reach.specs.Marking.{AllBelow};

use crate::numbers::new_numbers;
use cpt_task::{Action, List, Memory, Name, Task};
use std::alloc::Global;

fn copy_of(alloc: Global, name: &Name) -> Result<Name, Memory>
    ensures { IfOk result (λ copy. copy ≡ name.now) }
{
    Ok(List::from_vec(Vec::from_slice(alloc, name.as_slice())?))
}

fn new_action(alloc: Global, kept: &[u32], action: &Action) -> Result<Action, Memory>
    requires increasing { IsStrictlyIncreasing kept.now }
    requires short { length kept.now ≤ 2 ^ 31 }
    ensures { IfOk result (λ new. new ≡ renumbered_action kept.now action.now) }
{
    Ok(Action {
        name: copy_of(alloc, &action.name)?,
        dur: action.dur,
        pre: new_numbers(alloc, kept, action.pre.as_slice())?,
        add: new_numbers(alloc, kept, action.add.as_slice())?,
        dele: new_numbers(alloc, kept, action.dele.as_slice())?,
    })
}

fn new_names(alloc: Global, task: &Task, atoms: &[u32]) -> Result<Vec<Name>, Memory>
    requires { AllBelow (length task.now.atoms) atoms.now }
    ensures { IfOk result (λ names. names.items ≡ map (name_at task.now) atoms.now) }
{
    let mut names = Vec::new(alloc);
    for p in atoms {
        names.push(copy_of(alloc, &task.atoms()[*p as usize])?)?;
    }
    Ok(names)
}

fn new_actions(
    alloc: Global,
    task: &Task,
    atoms: &[u32],
    actions: &[u32],
) -> Result<Vec<Action>, Memory>
    requires increasing { IsStrictlyIncreasing atoms.now }
    requires short { length atoms.now ≤ 2 ^ 31 }
    requires below { AllBelow (length task.now.actions) actions.now }
    ensures { IfOk result (λ new. new.items ≡ map (λ a. renumbered_action atoms.now (action_at task.now a)) actions.now) }
{
    let mut new = Vec::new(alloc);
    for a in actions {
        new.push(new_action(alloc, atoms, &task.actions()[*a as usize])?)?;
    }
    Ok(new)
}

/// The task with these atoms and actions, which are the kept ones.
pub fn kept_task(alloc: Global, task: &Task, atoms: &[u32], actions: &[u32]) -> Result<Task, Memory>
    requires bounds { InBounds task.now }
    requires kept_atoms { IsListOf (IsKeptAtom task.now) atoms.now }
    requires kept_actions { IsListOf (IsKeptAction task.now) actions.now }
    requires few_atoms { length atoms.now < 2 ^ 31 }
    requires few_actions { length actions.now < 2 ^ 31 }
    ensures { IfOk result (IsKeptPart task.now atoms.now actions.now) }
{
    let names = new_names(alloc, task, atoms)?;
    let new = new_actions(alloc, task, atoms, actions)?;
    let init = new_numbers(alloc, atoms, task.init())?;
    let goal = new_numbers(alloc, atoms, task.goal())?;
    Ok(Task::build(names, new, init, goal).unwrap())
}
