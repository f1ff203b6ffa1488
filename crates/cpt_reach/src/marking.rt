//! Which atoms are reached: each new atom goes on an agenda, and then the actions that need it are looked at.

ghost use Rattle.std.specs.Prelude.{◌≡◌, ◌<◌, ◌^◌, ℕ, false, [], ◌∷◌, OnOk, IfOk, MatchBool, length, All, Contains};
ghost use Rattle.cpt_task.specs.Shape.{InBounds};
ghost use Rattle.cpt_reach.specs.Reached.{action_at};
ghost use Rattle.cpt_reach.specs.Marking.{is_marked, AreMarked, HasUnmarked, AllBelow, MarksAll, Settles, IsSettled, IsSound, IsUsers, Spreads, MarksReached};

use crate::users::users_of;
use cpt_task::{Action, List, Memory, Task};
use std::alloc::Global;

/// Whether each number is marked.
pub fn are_marked(marks: &[bool], xs: &[u32]) -> bool
    requires { AllBelow (length marks.now) xs.now }
    ensures { MatchBool result (AreMarked marks.now xs.now) (HasUnmarked marks.now xs.now) }
{
    for x in xs {
        if !marks[*x as usize] {
            return false;
        }
    }
    true
}

fn mark(marks: &mut [bool], agenda: &mut Vec<u32>, p: u32) -> Result<(), Memory>
    requires { p < length marks.old }
    ensures { OnOk result (MarksAll (p ∷ []) marks.old agenda.old.items marks.new agenda.new.items) }
{
    if !marks[p as usize] {
        agenda.push(p)?;
        marks[p as usize] = true;
    }
    Ok(())
}

fn mark_all(marks: &mut [bool], agenda: &mut Vec<u32>, xs: &[u32]) -> Result<(), Memory>
    requires { AllBelow (length marks.old) xs.now }
    ensures { OnOk result (MarksAll xs.now marks.old agenda.old.items marks.new agenda.new.items) }
{
    for x in xs {
        mark(marks, agenda, *x)?;
    }
    Ok(())
}

/// Looks at one action: where its preconditions are marked, what it adds is marked too.
fn visit(task: &Task, a: usize, marks: &mut [bool], agenda: &mut Vec<u32>) -> Result<(), Memory>
    requires action { a < length task.now.actions }
    requires size { length marks.old ≡ length task.now.atoms }
    ensures { OnOk result (Settles task.now (λ b. b ≡ a) marks.old agenda.old.items marks.new agenda.new.items) }
{
    let action = &task.actions()[a];
    if are_marked(marks, action.pre.as_slice()) {
        mark_all(marks, agenda, action.add.as_slice())?;
    }
    Ok(())
}

fn visit_users(
    task: &Task,
    users: &[u32],
    marks: &mut [bool],
    agenda: &mut Vec<u32>,
) -> Result<(), Memory>
    requires actions { AllBelow (length task.now.actions) users.now }
    requires size { length marks.old ≡ length task.now.atoms }
    ensures { OnOk result (Settles task.now (Contains users.now) marks.old agenda.old.items marks.new agenda.new.items) }
{
    for a in users {
        visit(task, *a as usize, marks, agenda)?;
    }
    Ok(())
}

fn visit_every(task: &Task, marks: &mut [bool], agenda: &mut Vec<u32>) -> Result<(), Memory>
    requires size { length marks.old ≡ length task.now.atoms }
    ensures { OnOk result (Settles task.now (λ a. a < length task.now.actions) marks.old agenda.old.items marks.new agenda.new.items) }
{
    for a in 0..task.actions().len() {
        visit(task, a, marks, agenda)?;
    }
    Ok(())
}

/// Looks at the users of each atom on the agenda, until none is left.
fn spread(
    task: &Task,
    users: &[List<u32>],
    marks: &mut [bool],
    agenda: &mut Vec<u32>,
) -> Result<(), Memory>
    requires users { IsUsers task.now users.now }
    requires size { length marks.old ≡ length task.now.atoms }
    requires below { AllBelow (length marks.old) agenda.old.items }
    requires sound { IsSound task.now marks.old }
    requires settled { (a : ℕ) → a < length task.now.actions → IsSettled marks.old agenda.old.items (action_at task.now a) }
    ensures { OnOk result (Spreads task.now marks.old marks.new) }
{
    while let Some(p) = agenda.pop() {
        visit_users(task, users[p as usize].as_slice(), marks, agenda)?;
    }
    Ok(())
}

fn mark_reached(alloc: Global, task: &Task, marks: &mut [bool]) -> Result<(), Memory>
    requires bounds { InBounds task.now }
    requires size { length marks.old ≡ length task.now.atoms }
    requires clear { All (λ mark. mark ≡ false) marks.old }
    ensures { OnOk result (MarksReached task.now marks.new) }
{
    let users = users_of(alloc, task)?;
    let mut agenda = Vec::new(alloc);
    mark_all(marks, &mut agenda, task.init())?;
    visit_every(task, marks, &mut agenda)?;
    spread(task, &users, marks, &mut agenda)?;
    Ok(())
}

/// Marks exactly the reached atoms.
pub fn reached_marks(alloc: Global, task: &Task) -> Result<Vec<bool>, Memory>
    ensures reached { IfOk result (λ marks. MarksReached task.now marks.items) }
    ensures bounds { InBounds task.now }
{
    let mut marks = vec![in alloc; false; task.atoms().len()]?;
    mark_reached(alloc, task, &mut marks)?;
    Ok(marks)
}
