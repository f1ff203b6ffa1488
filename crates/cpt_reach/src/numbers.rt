//! Lists of the kept numbers, and the new numbers.

ghost use Rattle.std.specs.Prelude.{◌≡◌, ◌<◌, ◌≤◌, ◌^◌, ◌↔◌, ◌⊎◌, ℕ, true, IfOk, length, All, Contains};
ghost use Rattle.std.specs.List.Sorted.{IsStrictlyIncreasing};
ghost use Rattle.cpt_task.specs.Shape.{InBounds};
ghost use Rattle.cpt_reach.specs.Reached.{action_at};
ghost use Rattle.cpt_reach.specs.Kept.{IsListOf, new_number, renumbered};
ghost use Rattle.cpt_reach.specs.Marking.{is_marked, AreMarked, AllBelow, MarksToo, IsReady};

use crate::marking::are_marked;
use cpt_task::{Ids, Memory, Task};
use std::alloc::Global;

/// Marks these numbers too.
pub fn mark_too(marks: &mut [bool], xs: &[u32])
    requires { AllBelow (length marks.old) xs.now }
    ensures { MarksToo xs.now marks.old marks.new }
{
    for x in xs {
        marks[*x as usize] = true;
    }
}

/// The marked numbers.
pub fn marked_numbers(alloc: Global, marks: &[bool]) -> Result<Vec<u32>, Memory>
    requires { length marks.now < 2 ^ 31 }
    ensures { IfOk result (λ xs. IsListOf (λ p. is_marked marks.now p ≡ true) xs.items) }
{
    let mut xs = Vec::new(alloc);
    for p in 0..marks.len() {
        if marks[p] {
            xs.push(p as u32)?;
        }
    }
    Ok(xs)
}

/// The numbers of the actions whose preconditions are marked.
pub fn ready_actions(alloc: Global, task: &Task, marks: &[bool]) -> Result<Vec<u32>, Memory>
    requires { length marks.now ≡ length task.now.atoms }
    ensures { IfOk result (λ xs. IsListOf (IsReady task.now marks.now) xs.items) }
{
    let mut xs = Vec::new(alloc);
    for (a, action) in task.actions().iter().enumerate() {
        if are_marked(marks, action.pre.as_slice()) {
            xs.push(a as u32)?;
        }
    }
    Ok(xs)
}

/// The place of the number among the kept ones.
fn place_of(kept: &[u32], p: u32) -> Option<u32>
    requires increasing { IsStrictlyIncreasing kept.now }
    requires short { length kept.now ≤ 2 ^ 31 }
    ensures { result ≡ new_number kept.now p }
{
    match kept.binary_search(&p) {
        Ok(place) => Some(place as u32),
        Err(_) => None,
    }
}

/// The new numbers of those that are kept.
pub fn new_numbers(alloc: Global, kept: &[u32], xs: &[u32]) -> Result<Ids, Memory>
    requires kept { IsStrictlyIncreasing kept.now }
    requires short { length kept.now ≤ 2 ^ 31 }
    requires increasing { IsStrictlyIncreasing xs.now }
    ensures { IfOk result (λ new. new ≡ renumbered kept.now xs.now) }
{
    let places = places_of(alloc, kept, xs)?;
    Ok(Ids::from_vec(places).unwrap())
}

fn places_of(alloc: Global, kept: &[u32], xs: &[u32]) -> Result<Vec<u32>, Memory>
    requires kept { IsStrictlyIncreasing kept.now }
    requires short { length kept.now ≤ 2 ^ 31 }
    ensures { IfOk result (λ new. new.items ≡ renumbered kept.now xs.now) }
{
    Ok(xs.iter().filter_map(|x| place_of(kept, *x)).collect(alloc)?)
}
