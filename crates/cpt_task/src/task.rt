//! Tasks: atoms, actions, the initial set and the goal.

ghost use Rattle.std.specs.Prelude.{◌≡◌, ◌↔◌, ◌<◌, ◌≤◌, ◌^◌, IsTrue, MatchBool, MatchOption, length, vec_len, All};
ghost use Rattle.std.specs.List.Sorted.{IsStrictlyIncreasing};
ghost use Rattle.cpt_task.specs.Building.{Builds, IsFault, made_of};
ghost use Rattle.cpt_task.specs.Shape.{InBounds, IsOfSets, HasSetLists, HasBadAtom, ActionHasBadAtom, HasAtomsBelow, IsDuration, IsFirstAt};

use crate::ids::Ids;
use crate::limits::DURATION_LIMIT;
use crate::list::{List, Name};
use std::marker::Model;

/// An action: what it needs, adds and deletes, by atom numbers, and how long it lasts.
#[derive(Debug, Drop)]
pub struct Action {
    pub name: Name,
    pub dur: u32,
    pub pre: Ids,
    pub add: Ids,
    pub dele: Ids,
}

/// A temporal STRIPS task whose numbers are in range and whose lists are sets.
#[derive(Debug, Drop)]
pub struct Task {
    atoms: List<Name>,
    actions: List<Action>,
    init: Ids,
    goal: Ids,
}

impl Model for Task {
    ghost use Rattle.cpt_task.specs.Shape.{TaskShape, InBounds, IsOfSets};

    ghost Value = { TaskShape };

    ghost view = { λ t. record { atoms = t.atoms; actions = t.actions; init = t.init; goal = t.goal } };

    ghost invariant = { λ t. InBounds (record { atoms = t.atoms; actions = t.actions; init = t.init; goal = t.goal }) × IsOfSets (record { atoms = t.atoms; actions = t.actions; init = t.init; goal = t.goal }) };
}

/// Why parts make no task.
#[derive(Clone, Copy, Debug, PartialEq, Eq)]
pub enum BuildError {
    /// A list has a number that is no atom: the list is one of the action of this number, or behind the last
    /// action's number the initial list, or behind that the goal.
    BadAtom(u32),
    /// The action of this number does not last from 1 to 100,000.
    BadDuration(u32),
}

impl Task {
    /// The task with these parts, where each number in them is in range. It takes no memory.
    pub fn build(
        atoms: Vec<Name>,
        actions: Vec<Action>,
        init: Ids,
        goal: Ids,
    ) -> Result<Task, BuildError>
        requires few_atoms { vec_len atoms < 2 ^ 31 }
        requires few_actions { vec_len actions < 2 ^ 31 }
        ensures { Builds (made_of atoms.items actions.items init goal) result }
    {
        if let Some(fault) = first_fault(&atoms, &actions, &init, &goal) {
            return Err(fault);
        }
        Ok(Task {
            atoms: List::from_vec(atoms),
            actions: List::from_vec(actions),
            init,
            goal,
        })
    }

    /// The names of the atoms, by number.
    pub fn atoms(&self) -> &[Name]
        ensures value { result.now ≡ self.now.atoms }
        ensures bounds { InBounds self.now }
    {
        self.atoms.as_slice()
    }

    /// The actions, by number.
    pub fn actions(&self) -> &[Action]
        ensures value { result.now ≡ self.now.actions }
        ensures bounds { InBounds self.now }
        ensures sets { IsOfSets self.now }
    {
        self.actions.as_slice()
    }

    /// The atoms that hold at first, increasing.
    pub fn init(&self) -> &[u32]
        ensures value { result.now ≡ self.now.init }
        ensures increasing { IsStrictlyIncreasing self.now.init }
    {
        self.init.as_slice()
    }

    /// The atoms that are to hold at last, increasing.
    pub fn goal(&self) -> &[u32]
        ensures value { result.now ≡ self.now.goal }
        ensures increasing { IsStrictlyIncreasing self.now.goal }
    {
        self.goal.as_slice()
    }
}

fn has_bad_atom(count: usize, xs: &Ids) -> bool
    ensures cases { MatchBool result (HasBadAtom count xs.now) (All (λ p. p < count) xs.now) }
    ensures increasing { IsStrictlyIncreasing xs.now }
{
    xs.as_slice().iter().any(|p| *p as usize >= count)
}

fn action_has_bad_atom(count: usize, a: &Action) -> bool
    ensures { MatchBool result (ActionHasBadAtom count a.now) (HasAtomsBelow count a.now × HasSetLists a.now) }
{
    has_bad_atom(count, &a.pre) || has_bad_atom(count, &a.add) || has_bad_atom(count, &a.dele)
}

fn first_bad_action(count: usize, actions: &[Action]) -> Option<usize>
    ensures { MatchOption result (All (λ a. HasAtomsBelow count a × HasSetLists a) actions.now) (IsFirstAt (ActionHasBadAtom count) actions.now) }
{
    actions.iter().position(|a| action_has_bad_atom(count, a))
}

fn first_bad_duration(actions: &[Action]) -> Option<usize>
    ensures { MatchOption result (All (λ a. IsDuration a.dur) actions.now) (IsFirstAt (λ a. IsDuration a.dur → ⊥) actions.now) }
{
    actions
        .iter()
        .position(|a| a.dur < 1 || a.dur > DURATION_LIMIT)
}

fn first_fault(atoms: &[Name], actions: &[Action], init: &Ids, goal: &Ids) -> Option<BuildError>
    requires few_atoms { length atoms.now < 2 ^ 31 }
    requires few_actions { length actions.now < 2 ^ 31 }
    ensures { MatchOption result (InBounds (made_of atoms.now actions.now init.now goal.now) × IsOfSets (made_of atoms.now actions.now init.now goal.now)) (IsFault (made_of atoms.now actions.now init.now goal.now)) }
{
    let count = atoms.len();
    if let Some(place) = first_bad_action(count, actions) {
        return Some(BuildError::BadAtom(place as u32));
    }
    if has_bad_atom(count, init) {
        return Some(BuildError::BadAtom(actions.len() as u32));
    }
    if has_bad_atom(count, goal) {
        return Some(BuildError::BadAtom(actions.len() as u32 + 1));
    }
    if let Some(place) = first_bad_duration(actions) {
        return Some(BuildError::BadDuration(place as u32));
    }
    None
}
