//! Which actions need an atom, and which delete it.

ghost use Rattle.std.specs.Prelude.{◌≡◌, ◌<◌, ◌++◌, ◌∷◌, [], ℕ, if◌then◌else◌, Contains, MatchBool, IfOk, OnOk, length};
ghost use Rattle.cpt_sheet.specs.Roles.{needs_of};
ghost use Rattle.cpt_index.specs.Lists.{Lists};
ghost use Rattle.cpt_agenda.specs.Users.{AreUsersOf, IsDropper, IsNeeder, IsUsersOf, nth_users};

use cpt_sheet::{Cand, Kind, deletes, needs_of};
use cpt_task::{List, Memory, Task};
use std::alloc::Global;

/// The outside actions that need an atom, and those that delete it.
#[derive(Drop)]
pub struct AtomUsers {
    pub needing: List<Cand>,
    pub deleting: List<Cand>,
}

/// Of each atom the outside actions that need it, and those that delete it.
#[derive(Drop)]
pub struct Users {
    pub atoms: List<AtomUsers>,
}

/// Puts the action at the end where it belongs there.
fn put_if(found: &mut Vec<Cand>, act: u32, belongs: bool) -> Result<(), Memory>
    ensures { OnOk result (found.new.items ≡ (if belongs then found.old.items ++ Cand.Out act ∷ [] else found.old.items)) }
{
    if belongs {
        found.push(Cand::Out(act))?;
    }
    Ok(())
}

fn needs(task: &Task, act: u32, p: u32) -> bool
    ensures { MatchBool result (Contains (needs_of task.now (Kind.Act act)) p) (Contains (needs_of task.now (Kind.Act act)) p → ⊥) }
{
    needs_of(task, Kind::Act(act)).contains(&p)
}

fn needing(alloc: Global, task: &Task, p: u32) -> Result<List<Cand>, Memory>
    ensures { IfOk result (Lists (IsNeeder task.now p)) }
{
    let mut found = Vec::new(alloc);
    for a in 0..task.actions().len() {
        let belongs = needs(task, a as u32, p);
        put_if(&mut found, a as u32, belongs)?;
    }
    Ok(List::from_vec(found))
}

fn deleting(alloc: Global, task: &Task, p: u32) -> Result<List<Cand>, Memory>
    ensures { IfOk result (Lists (IsDropper task.now p)) }
{
    let mut found = Vec::new(alloc);
    for a in 0..task.actions().len() {
        let belongs = deletes(task, Kind::Act(a as u32), p);
        put_if(&mut found, a as u32, belongs)?;
    }
    Ok(List::from_vec(found))
}

fn users_of(alloc: Global, task: &Task, p: u32) -> Result<AtomUsers, Memory>
    ensures { IfOk result (IsUsersOf task.now p) }
{
    Ok(AtomUsers {
        needing: needing(alloc, task, p)?,
        deleting: deleting(alloc, task, p)?,
    })
}

fn all_users(alloc: Global, task: &Task) -> Result<Vec<AtomUsers>, Memory>
    ensures { IfOk result (λ v. (p : ℕ) → IsUsersOf task.now p (nth_users v.items p)) }
{
    let mut lists = Vec::new(alloc);
    for p in 0..task.atoms().len() {
        lists.push(users_of(alloc, task, p as u32)?)?;
    }
    Ok(lists)
}

/// Of each atom of the task the outside actions that need it, and those that delete it.
pub fn users_of_task(alloc: Global, task: &Task) -> Result<Users, Memory>
    ensures { IfOk result (AreUsersOf task.now) }
{
    let atoms = all_users(alloc, task)?;
    Ok(Users {
        atoms: List::from_vec(atoms),
    })
}

impl Users {
    /// The outside actions that need the atom.
    pub fn needing(&self, p: u32) -> &[Cand]
        ensures { result.now ≡ (nth_users self.now.atoms p).needing }
    {
        match self.atoms.as_slice().get(p as usize) {
            Some(users) => users.needing.as_slice(),
            None => &[],
        }
    }

    /// The outside actions that delete the atom.
    pub fn deleting(&self, p: u32) -> &[Cand]
        ensures { result.now ≡ (nth_users self.now.atoms p).deleting }
    {
        match self.atoms.as_slice().get(p as usize) {
            Some(users) => users.deleting.as_slice(),
            None => &[],
        }
    }
}
