//! Tasks in their JSON form.

ghost use Rattle.std.specs.Prelude.{◌≡◌, IfOk};
ghost use Rattle.cpt_task_text.specs.Plain.{IsPlain};
ghost use Rattle.cpt_json_form.specs.Reading.{AnswersForm, GivesTask, ReadsTask};
ghost use Rattle.cpt_json_read.specs.Forms.{HasForm};

use crate::checks::check_form;
use crate::forms::TaskForm;
use crate::making::task_of;
use crate::values::{FromValue, value_in};
use cpt_json_form::JsonTaskError;
use cpt_task::Task;
use std::alloc::Global;

/// The form that the text has.
fn form_in(alloc: Global, text: &[u8]) -> Result<TaskForm, JsonTaskError>
    ensures { GivesTask (λ form. form) result (HasForm text.now) }
{
    let Some(value) = value_in(alloc, text)? else {
        return Err(JsonTaskError::Syntax);
    };
    Ok(TaskForm::from_value(alloc, &value)?)
}

/// The task of the form, or the first cause against it.
fn task_in(alloc: Global, form: TaskForm) -> Result<Task, JsonTaskError>
    ensures exact { GivesTask (λ task. task) result (AnswersForm form form) }
    ensures plain { IfOk result (λ task. IsPlain task) }
{
    match check_form(alloc, &form) {
        Ok(()) => Ok(task_of(alloc, form)?),
        Err(fault) => Err(fault),
    }
}

/// The task that the text is, or the first cause for which it is none.
pub fn read_task_json(alloc: Global, text: &[u8]) -> Result<Task, JsonTaskError>
    ensures exact { GivesTask (λ task. task) result (ReadsTask text.now) }
    ensures plain { IfOk result (λ task. IsPlain task) }
{
    match form_in(alloc, text) {
        Ok(form) => task_in(alloc, form),
        Err(fault) => Err(fault),
    }
}
