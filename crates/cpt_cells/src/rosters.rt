//! What a task says to a layout.

ghost use Rattle.std.specs.Prelude.{◌≡◌, IfOk, length};
ghost use Rattle.cpt_task.specs.Timeline.{is_in};
ghost use Rattle.cpt_tables.specs.Admissible.{nth_action};
ghost use Rattle.cpt_layout.specs.Places.{NoTwice};
ghost use Rattle.cpt_block.specs.Blocks.{action_adders};
ghost use Rattle.cpt_cells.specs.Roots.{adder_lists, frame_for, pre_lists};

use crate::rows::is_adder;
use cpt_layout::Layout;
use cpt_sheet::{Kind, needs_of};
use cpt_task::{List, Memory, Task};
use std::alloc::Global;

fn copied(alloc: Global, list: &[u32]) -> Result<List<u32>, Memory>
    ensures { IfOk result (λ l. l ≡ list.now) }
{
    let mut copy = Vec::new(alloc);
    copy.extend_from_slice(list)?;
    Ok(List::from_vec(copy))
}

/// What an action needs.
fn pre_of(alloc: Global, task: &Task, a: u32) -> Result<List<u32>, Memory>
    ensures { IfOk result (λ l. l ≡ (nth_action task.now a).pre) }
{
    copied(alloc, needs_of(task, Kind::Act(a)))
}

/// What each action needs.
fn all_pre(alloc: Global, task: &Task) -> Result<List<List<u32>>, Memory>
    ensures { IfOk result (λ l. l ≡ pre_lists task.now) }
{
    let mut lists = Vec::new(alloc);
    for a in 0..task.actions().len() {
        lists.push(pre_of(alloc, task, a as u32)?)?;
    }
    Ok(List::from_vec(lists))
}

/// The actions that add an atom, ascending.
fn adders_of(alloc: Global, task: &Task, p: u32) -> Result<List<u32>, Memory>
    ensures { IfOk result (λ l. l ≡ action_adders task.now p (length task.now.actions)) }
{
    let mut list = Vec::new(alloc);
    for a in 0..task.actions().len() {
        if is_adder(task, Kind::Act(a as u32), p) {
            list.push(a as u32)?;
        }
    }
    Ok(List::from_vec(list))
}

/// Who adds each atom.
fn all_adders(alloc: Global, task: &Task) -> Result<List<List<u32>>, Memory>
    ensures { IfOk result (λ l. l ≡ adder_lists task.now) }
{
    let mut lists = Vec::new(alloc);
    for p in 0..task.atoms().len() {
        lists.push(adders_of(alloc, task, p as u32)?)?;
    }
    Ok(List::from_vec(lists))
}

/// The layout of a task and a bound, with no token.
pub(crate) fn layout_of(alloc: Global, task: &Task, bound: u64) -> Result<Layout, Memory>
    ensures { IfOk result (λ l. l.frame ≡ frame_for task.now bound) }
{
    let _ = task.atoms();
    let pre = all_pre(alloc, task)?;
    let goal = copied(alloc, task.goal())?;
    let adders = all_adders(alloc, task)?;
    Ok(Layout::new(alloc, bound, pre, goal, adders))
}
