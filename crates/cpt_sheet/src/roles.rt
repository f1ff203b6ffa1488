//! What tokens and outside actions need, add and delete.

ghost use Rattle.std.specs.Prelude.{◌≡◌, ◌<◌, ◌≤◌, IsTrue, MatchBool, All, length};
ghost use Rattle.cpt_task.specs.Shape.{InBounds};
ghost use Rattle.cpt_tables.specs.Admissible.{nth_action};
ghost use Rattle.cpt_sheet.specs.Roles.{needs_of, adds_of, deletes_of, Adds, Deletes, Clash, Interfere, ActionsClash, IsKindOf};

use crate::data::Kind;
use cpt_task::{Action, Task, interfere};

/// The atoms that it needs, each an atom of the task; none for an action that is not there.
#[tactic(auto, using(crate::proofs::GapLemmas::needs_within))]
pub fn needs_of(task: &Task, kind: Kind) -> &[u32]
    ensures value { result.now ≡ needs_of task.now kind }
    ensures within { All (λ p. p < length task.now.atoms) (needs_of task.now kind) }
{
    let actions = task.actions();
    match kind {
        Kind::Start => &[],
        Kind::End => task.goal(),
        Kind::Act(a) => match actions.get(a as usize) {
            Some(action) => action.pre.as_slice(),
            None => &[],
        },
    }
}

/// The atoms that it adds; none for an action that is not there.
pub fn adds_of(task: &Task, kind: Kind) -> &[u32]
    ensures { result.now ≡ adds_of task.now kind }
{
    match kind {
        Kind::Start => task.init(),
        Kind::End => &[],
        Kind::Act(a) => match task.actions().get(a as usize) {
            Some(action) => action.add.as_slice(),
            None => &[],
        },
    }
}

/// The atoms that it deletes; none for an action that is not there.
pub fn deletes_of(task: &Task, kind: Kind) -> &[u32]
    ensures { result.now ≡ deletes_of task.now kind }
{
    match kind {
        Kind::Start => &[],
        Kind::End => &[],
        Kind::Act(a) => match task.actions().get(a as usize) {
            Some(action) => action.dele.as_slice(),
            None => &[],
        },
    }
}

/// Whether it adds the atom.
pub fn adds(task: &Task, kind: Kind, p: u32) -> bool
    ensures { MatchBool result (Adds task.now kind p) (Adds task.now kind p → ⊥) }
{
    adds_of(task, kind).contains(&p)
}

/// Whether it deletes the atom.
pub fn deletes(task: &Task, kind: Kind, p: u32) -> bool
    ensures { MatchBool result (Deletes task.now kind p) (Deletes task.now kind p → ⊥) }
{
    deletes_of(task, kind).contains(&p)
}

/// The action of a number.
#[tactic(auto, using(crate::proofs::GapLemmas::dur_below))]
pub fn action_at(task: &Task, act: u32) -> &Action
    requires { act < length task.now.actions }
    ensures value { result.now ≡ nth_action task.now act }
    ensures short { (nth_action task.now act).dur ≤ 100000 }
{
    &task.actions()[act as usize]
}

fn actions_clash(task: &Task, a: u32, b: u32) -> bool
    requires first { a < length task.now.actions }
    requires second { b < length task.now.actions }
    ensures { MatchBool result (Interfere task.now a b) (Interfere task.now a b → ⊥) }
{
    interfere(action_at(task, a), action_at(task, b))
}

/// Whether the action is there.
pub fn is_action(task: &Task, act: u32) -> bool
    ensures { MatchBool result (act < length task.now.actions) (act < length task.now.actions → ⊥) }
{
    (act as usize) < task.actions().len()
}

fn action_clashes(task: &Task, a: u32, b: u32) -> bool
    ensures { MatchBool result (ActionsClash task.now a b) (ActionsClash task.now a b → ⊥) }
{
    if !is_action(task, a) {
        return false;
    }
    if !is_action(task, b) {
        return false;
    }
    actions_clash(task, a, b)
}

/// Whether both are actions of the task that interfere.
pub fn clash(task: &Task, first: Kind, second: Kind) -> bool
    ensures { MatchBool result (Clash task.now first second) (Clash task.now first second → ⊥) }
{
    match (first, second) {
        (Kind::Act(a), Kind::Act(b)) => action_clashes(task, a, b),
        _ => false,
    }
}
