//! What is asked of a task that has the form.

ghost use Rattle.std.specs.Prelude.{◌≡◌, length, All, IfOk, MatchBool};
ghost use Rattle.cpt_task.specs.Shape.{IsDuration};
ghost use Rattle.cpt_json_form.specs.Reading.{AnswersForm, GivesTask, HasAtoms, HasNames, HasShortLists, NamesAtoms};

use crate::forms::{ActionForm, TaskForm};
use crate::names::are_named;
use crate::numbers::are_atoms;
use cpt_json_form::JsonTaskError;
use cpt_task::{CONDITION_LIMIT, Limit, Memory};
use std::alloc::Global;

fn has_short_lists(a: &ActionForm) -> bool
    ensures { MatchBool result (HasShortLists a.now) (HasShortLists a.now → ⊥) }
{
    a.pre.as_slice().len() <= CONDITION_LIMIT
        && a.add.as_slice().len() <= 2 * CONDITION_LIMIT
        && a.dele.as_slice().len() <= 2 * CONDITION_LIMIT
}

fn have_short_lists(actions: &[ActionForm]) -> bool
    ensures { MatchBool result (All HasShortLists actions.now) (All HasShortLists actions.now → ⊥) }
{
    actions.iter().all(|a| has_short_lists(a))
}

fn has_names(alloc: Global, form: &TaskForm) -> Result<bool, Memory>
    ensures { IfOk result (λ all. MatchBool all (HasNames form.now) (HasNames form.now → ⊥)) }
{
    if !are_named(alloc, form.atoms())? {
        return Ok(false);
    }
    are_named(alloc, form.actions())
}

fn has_atoms(count: usize, a: &ActionForm) -> bool
    ensures { MatchBool result (HasAtoms count a.now) (HasAtoms count a.now → ⊥) }
{
    are_atoms(count, a.pre.as_slice())
        && are_atoms(count, a.add.as_slice())
        && are_atoms(count, a.dele.as_slice())
}

fn have_atoms(count: usize, actions: &[ActionForm]) -> bool
    ensures { MatchBool result (All (HasAtoms count) actions.now) (All (HasAtoms count) actions.now → ⊥) }
{
    for a in actions {
        if !has_atoms(count, a) {
            return false;
        }
    }
    true
}

fn names_atoms(form: &TaskForm) -> bool
    ensures { MatchBool result (NamesAtoms form.now) (NamesAtoms form.now → ⊥) }
{
    let count = form.atoms().len();
    if !have_atoms(count, form.actions()) {
        return false;
    }
    if !are_atoms(count, form.init()) {
        return false;
    }
    are_atoms(count, form.goal())
}

fn have_durations(actions: &[ActionForm]) -> bool
    ensures { MatchBool result (All (λ a. IsDuration a.dur) actions.now) (All (λ a. IsDuration a.dur) actions.now → ⊥) }
{
    actions.iter().all(|a| a.dur >= 1 && a.dur <= 100_000)
}

/// Tests the form, and answers the first cause against it.
pub fn check_form(alloc: Global, form: &TaskForm) -> Result<(), JsonTaskError>
    ensures { GivesTask (λ x. x) result (AnswersForm form.now tt) }
{
    if form.atoms().len() > 2048 {
        return Err(JsonTaskError::Limit(Limit::Atoms));
    }
    if form.actions().len() > 4096 {
        return Err(JsonTaskError::Limit(Limit::Actions));
    }
    if !have_short_lists(form.actions()) {
        return Err(JsonTaskError::Limit(Limit::LongList));
    }
    if !has_names(alloc, form)? {
        return Err(JsonTaskError::BadName);
    }
    if !names_atoms(form) {
        return Err(JsonTaskError::Atom);
    }
    if !have_durations(form.actions()) {
        return Err(JsonTaskError::Duration);
    }
    Ok(())
}
