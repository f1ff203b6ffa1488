//! The table, row by row.

ghost use Rattle.std.specs.Prelude.{◌≡◌, ℕ, ◌<◌, ◌≤◌, IfOk, length};
ghost use Rattle.cpt_task.specs.Shape.{HasAtomsBelow};
ghost use Rattle.cpt_tables.specs.Shapes.{dist_at, FitsPairs, FitsDists};
ghost use Rattle.cpt_tables.specs.Greatest.{IsGreatestDists};
ghost use Rattle.cpt_dist.specs.Rows.{HasRow, IsRowOf, KeepsOthers};

use crate::row::lower;
use crate::start::start;
use cpt_tables::{DistTable, PairTable};
use cpt_task::{Action, Memory, Span, Task};
use std::alloc::Global;

/// Writes the row of an action into the table.
fn keep(table: &mut DistTable, act: u32, row: &[Span])
    requires act { act < table.old.actions }
    requires few { table.old.atoms ≤ 2048 }
    requires size { length row.now ≡ table.old.atoms }
    ensures keeps { KeepsOthers table.old table.new act }
    ensures row { HasRow table.new act row.now }
{
    for (p, value) in row.iter().enumerate() {
        table.set(act, p as u32, *value);
    }
}

/// Makes the row of an action.
fn find_row(row: &mut [Span], task: &Task, pairs: &PairTable, action: &Action)
    requires few { length task.now.atoms ≤ 2048 }
    requires size { length row.old ≡ length task.now.atoms }
    requires pairs { pairs.now.atoms ≡ length task.now.atoms }
    requires atoms { HasAtomsBelow (length task.now.atoms) action.now }
    ensures { IsRowOf task.now pairs.now action.now row.new }
{
    start(row, pairs, action);
    lower(row, task.actions());
}

/// Writes the row of each action into the table, over one row to work on.
fn fill(dists: &mut DistTable, row: &mut [Span], task: &Task, pairs: &PairTable)
    requires few { length task.now.atoms ≤ 2048 }
    requires few_actions { length task.now.actions ≤ 4096 }
    requires size { length row.old ≡ length task.now.atoms }
    requires pairs { pairs.now.atoms ≡ length task.now.atoms }
    requires actions { dists.old.actions ≡ length task.now.actions }
    requires atoms { dists.old.atoms ≡ length task.now.atoms }
    ensures greatest { IsGreatestDists task.now pairs.now dists.new }
    ensures fits { FitsDists task.now dists.new }
{
    let actions = task.actions();
    for a in 0..actions.len() {
        find_row(row, task, pairs, &actions[a]);
        keep(dists, a as u32, row);
    }
}

/// The greatest distance table that is admissible over the pair table.
pub fn dist_table(alloc: Global, task: &Task, pairs: &PairTable) -> Result<DistTable, Memory>
    requires few_atoms { length task.now.atoms ≤ 2048 }
    requires few_actions { length task.now.actions ≤ 4096 }
    requires pairs { FitsPairs task.now pairs.now }
    ensures greatest { IfOk result (λ dists. IsGreatestDists task.now pairs.now dists) }
    ensures fits { IfOk result (λ dists. FitsDists task.now dists) }
{
    let atoms = pairs.atoms();
    let actions = task.actions().len() as u32;
    let mut dists = DistTable::filled(alloc, actions, atoms, Span::Never)?;
    let mut row = Vec::new(alloc);
    row.resize(atoms as usize, Span::Never)?;
    fill(&mut dists, &mut row, task, pairs);
    Ok(dists)
}
