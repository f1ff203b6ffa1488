//! Small tasks, with tables of zeros, and a formed sheet of each.

ghost use Rattle.std.specs.Prelude.{◌≡◌, IfSome};
ghost use Rattle.cpt_tables.specs.Shapes.{FitsPairs, FitsDists};
ghost use Rattle.cpt_sheet.specs.Formed.{IsFormed};
ghost use Rattle.cpt_sheet.specs.Gaps.{FitsTask};

use crate::edits::Edit;
use cpt_calculus::{Sheet, root};
use cpt_tables::{DistTable, PairTable, Tables};
use cpt_task::{Action, Ids, List, Name, Span, Task};
use std::alloc::Global;

/// How long an action lasts, and what it needs, adds and deletes.
pub type Act = (u32, &'static [u32], &'static [u32], &'static [u32]);

/// A task, the places of its distance table that are Never (all else in its tables is 0), a bound, and what is
/// done to the root sheet.
#[derive(Clone, Copy)]
pub struct Scene {
    pub atoms: u32,
    pub actions: &'static [Act],
    pub init: &'static [u32],
    pub goal: &'static [u32],
    pub never: &'static [(u32, u32)],
    pub bound: u64,
    pub edits: &'static [Edit],
}

fn ids(alloc: Global, xs: &[u32]) -> Option<Ids> {
    Ids::from_vec(Vec::from_slice(alloc, xs).ok()?)
}

fn action_of(alloc: Global, act: &Act) -> Option<Action> {
    Some(Action {
        name: List::from_vec(Vec::new(alloc)),
        dur: act.0,
        pre: ids(alloc, act.1)?,
        add: ids(alloc, act.2)?,
        dele: ids(alloc, act.3)?,
    })
}

fn actions_of(alloc: Global, acts: &[Act]) -> Option<Vec<Action>> {
    let mut actions = Vec::new(alloc);
    for act in acts {
        actions.push(action_of(alloc, act)?).ok()?;
    }
    Some(actions)
}

fn atoms_of(alloc: Global, count: u32) -> Option<Vec<Name>> {
    let mut atoms = Vec::new(alloc);
    for _ in 0..count {
        atoms.push(List::from_vec(Vec::new(alloc))).ok()?;
    }
    Some(atoms)
}

/// The task of a scene.
pub fn task_of(alloc: Global, scene: &Scene) -> Option<Task> {
    let atoms = atoms_of(alloc, scene.atoms)?;
    let actions = actions_of(alloc, scene.actions)?;
    if atoms.len() > 9 || actions.len() > 9 {
        return None;
    }
    let init = ids(alloc, scene.init)?;
    let goal = ids(alloc, scene.goal)?;
    Task::build(atoms, actions, init, goal).ok()
}

fn pairs_for(alloc: Global, task: &Task) -> Option<PairTable>
    ensures { IfSome result (FitsPairs task.now) }
{
    let count = task.atoms().len();
    if count > 2048 {
        return None;
    }
    PairTable::filled(alloc, count as u32, Span::At(0)).ok()
}

fn zero_dists(alloc: Global, task: &Task) -> Option<DistTable>
    ensures { IfSome result (FitsDists task.now) }
{
    let rows = task.actions().len();
    let count = task.atoms().len();
    if rows > 4096 || count > 2048 {
        return None;
    }
    DistTable::filled(alloc, rows as u32, count as u32, Span::At(0)).ok()
}

fn put_never(task: &Task, dists: &mut DistTable, act: u32, atom: u32)
    requires { FitsDists task.now dists.old }
    ensures { FitsDists task.now dists.new }
{
    if act < dists.actions() && atom < dists.atoms() {
        dists.set(act, atom, Span::Never);
    }
}

fn dists_for(alloc: Global, task: &Task, never: &[(u32, u32)]) -> Option<DistTable>
    ensures { IfSome result (FitsDists task.now) }
{
    let mut dists = zero_dists(alloc, task)?;
    for place in never {
        put_never(task, &mut dists, place.0, place.1);
    }
    Some(dists)
}

/// The tables of a scene.
pub fn tables_of(alloc: Global, scene: &Scene, task: &Task) -> Option<Tables>
    ensures { IfSome result (FitsTask task.now) }
{
    let pairs = pairs_for(alloc, task)?;
    let dists = dists_for(alloc, task, scene.never)?;
    Some(Tables { pairs, dists })
}

/// The root sheet of the bound.
pub fn root_of(alloc: Global, task: &Task, tables: &Tables, bound: u64) -> Option<Sheet>
    requires { FitsTask task.now tables.now }
    ensures { IfSome result (IsFormed task.now) }
{
    if bound > 1_000_000 {
        return None;
    }
    root(alloc, task, tables, bound).ok()
}
