//! Which actions need an atom.

ghost use Rattle.std.specs.Prelude.{◌≡◌, ◌<◌, ◌^◌, ◌++◌, [], ◌∷◌, OnOk, IfOk, length, slice_set};
ghost use Rattle.cpt_reach.specs.Marking.{AllBelow, row_at, AddsUses, IsUsers, IsNoUsers};

use cpt_task::{List, Memory, Task};
use std::alloc::Global;

fn add_use(rows: &mut [List<u32>], p: u32, a: u32) -> Result<(), Memory>
    requires { p < length rows.old }
    ensures { OnOk result (rows.new ≡ slice_set rows.old p (row_at rows.old p ++ a ∷ [])) }
{
    let row = &mut rows[p as usize];
    let end = row.as_slice().len();
    row.insert(end, a)
}

fn add_uses(rows: &mut [List<u32>], xs: &[u32], a: u32) -> Result<(), Memory>
    requires { AllBelow (length rows.old) xs.now }
    ensures { OnOk result (AddsUses a xs.now rows.old rows.new) }
{
    for x in xs {
        add_use(rows, *x, a)?;
    }
    Ok(())
}

fn empty_rows(alloc: Global, count: usize) -> Result<Vec<List<u32>>, Memory>
    ensures { IfOk result (λ rows. IsNoUsers count rows.items) }
{
    let mut rows = Vec::new(alloc);
    for _row in 0..count {
        rows.push(List::from_vec(Vec::new(alloc)))?;
    }
    Ok(rows)
}

/// For each atom the actions that need it.
pub fn users_of(alloc: Global, task: &Task) -> Result<Vec<List<u32>>, Memory>
    ensures { IfOk result (λ rows. IsUsers task.now rows.items) }
{
    let mut rows = empty_rows(alloc, task.atoms().len())?;
    for (a, action) in task.actions().iter().enumerate() {
        add_uses(&mut rows, action.pre.as_slice(), a as u32)?;
    }
    Ok(rows)
}
