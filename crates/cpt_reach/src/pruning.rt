//! Pruning a task.

ghost use Rattle.std.specs.Prelude.{◌≡◌, ◌<◌, ◌≤◌, ◌^◌, ℕ, true, IfOk, length};
ghost use Rattle.cpt_task.specs.Shape.{InBounds};
ghost use Rattle.cpt_reach.specs.Reached.{IsKeptAtom, IsKeptAction};
ghost use Rattle.cpt_reach.specs.Kept.{IsListOf};
ghost use Rattle.cpt_reach.specs.Marking.{MarksReached};
ghost use Rattle.cpt_reach.specs.Plans.{KeepsPlans};
ghost use Rattle.cpt_reach.specs.Pruning.{Prunes, KeptNumbers};

use crate::kept::kept_task;
use crate::marking::reached_marks;
use crate::numbers::{mark_too, marked_numbers, ready_actions};
use cpt_task::{ACTION_LIMIT, ATOM_LIMIT, Limit, List, Memory, Task};
use std::alloc::Global;

/// The kept part of a task, and the old numbers of its atoms and of its actions, increasing.
#[derive(Debug, Drop)]
pub struct Pruned {
    pub task: Task,
    pub atoms: List<u32>,
    pub actions: List<u32>,
}

/// Why a task is not pruned.
#[derive(Clone, Copy, Debug, PartialEq, Eq)]
pub enum PruneError {
    /// More than 2,048 atoms are kept, or else more than 4,096 actions.
    Limit(Limit),
    /// Memory is wanting.
    Memory,
}

impl From<Memory> for PruneError {
    ghost use Rattle.std.specs.Prelude.{◌≡◌};
    ghost use Rattle.cpt_reach.specs.declared.pruning.PruneError.{PruneError};

    ghost from_gives = { λ _ e. e ≡ PruneError.Memory };

    fn from(_: Memory) -> Self {
        PruneError::Memory
    }
}

fn kept_atoms(alloc: Global, task: &Task, marks: &mut [bool]) -> Result<Vec<u32>, Memory>
    requires bounds { InBounds task.now }
    requires reached { MarksReached task.now marks.old }
    ensures { IfOk result (λ atoms. IsListOf (IsKeptAtom task.now) atoms.items) }
{
    mark_too(marks, task.goal());
    marked_numbers(alloc, marks)
}

fn kept_actions(alloc: Global, task: &Task, marks: &[bool]) -> Result<Vec<u32>, Memory>
    requires reached { MarksReached task.now marks.now }
    ensures { IfOk result (λ actions. IsListOf (IsKeptAction task.now) actions.items) }
{
    ready_actions(alloc, task, marks)
}

/// The numbers of the kept atoms, and those of the kept actions.
fn kept_numbers(alloc: Global, task: &Task) -> Result<(Vec<u32>, Vec<u32>), Memory>
    ensures kept { IfOk result (λ numbers. KeptNumbers task.now numbers.0.items numbers.1.items) }
    ensures bounds { InBounds task.now }
{
    let mut marks = reached_marks(alloc, task)?;
    let actions = kept_actions(alloc, task, &marks)?;
    let atoms = kept_atoms(alloc, task, &mut marks)?;
    Ok((atoms, actions))
}

/// Keeps the atoms that the initial atoms and the actions can bring about where nothing is deleted, the goal, and the
/// actions whose preconditions are among those atoms, and renumbers them in the old order. Deleted atoms that are
/// not kept are left out.
pub fn prune(alloc: Global, task: &Task) -> Result<Pruned, PruneError>
    // The kept part, or the first limit that it passes.
    ensures answer { Prunes task.now result }
    // A plan is valid for the task exactly where it is one of kept actions and valid for the kept part.
    ensures plans { IfOk result (λ pruned. KeepsPlans task.now pruned.task pruned.actions) }
{
    let (atoms, actions) = kept_numbers(alloc, task)?;
    if atoms.len() > ATOM_LIMIT {
        return Err(PruneError::Limit(Limit::Atoms));
    }
    if actions.len() > ACTION_LIMIT {
        return Err(PruneError::Limit(Limit::Actions));
    }
    let kept = kept_task(alloc, task, &atoms, &actions)?;
    Ok(Pruned {
        task: kept,
        atoms: List::from_vec(atoms),
        actions: List::from_vec(actions),
    })
}
