//! Lists of atom numbers.

ghost use Rattle.std.specs.Prelude.{◌≡◌, ◌↔◌, ◌<◌, ◌≤◌, ◌^◌, All, IfOk, IsTrue, MatchBool};
ghost use Rattle.std.specs.List.Sorted.{IsStrictlyIncreasing};
ghost use Rattle.cpt_json_form.specs.Reading.{AreAtoms};

use cpt_task::{Ids, Memory};
use std::alloc::Global;

fn is_increasing(numbers: &[u64]) -> bool
    ensures { IsTrue result ↔ IsStrictlyIncreasing numbers.now }
{
    for (i, x) in numbers.iter().enumerate() {
        if i + 1 < numbers.len() && numbers[i + 1] <= *x {
            return false;
        }
    }
    true
}

/// Whether the numbers are strictly increasing and below the count of atoms.
pub fn are_atoms(count: usize, numbers: &[u64]) -> bool
    ensures { MatchBool result (AreAtoms count numbers.now) (AreAtoms count numbers.now → ⊥) }
{
    is_increasing(numbers) && numbers.iter().all(|n| *n < count as u64)
}

/// The numbers of atoms as they stand in a task.
pub fn ids_of(alloc: Global, count: usize, numbers: &[u64]) -> Result<Ids, Memory>
    requires few { count ≤ 2048 }
    requires atoms { AreAtoms count numbers.now }
    ensures { IfOk result (λ ids. ids ≡ numbers.now) }
{
    let mut ids = Vec::new(alloc);
    for number in numbers {
        ids.push(*number as u32)?;
    }
    match Ids::from_vec(ids) {
        Some(ids) => Ok(ids),
        None => unreachable!(),
    }
}
