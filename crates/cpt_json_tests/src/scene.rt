//! A task of three atoms and two actions, and what the readers say of texts.

use cpt_json::{JsonPlanError, JsonTaskError, read_plan_json, read_task_json};
use cpt_task::Task;
use std::alloc::Global;
use std::process::Abort;
use std::test::Fail;

/// The task in its JSON form.
pub const TASK: &str =
    "{\"actions\":[{\"add\":[1],\"del\":[],\"dur\":5,\"name\":\"(a)\",\"pre\":[0]},{\"add\":[2],\"del\":[0],\"dur\":3,\"name\":\"(b)\",\"pre\":[0]}],\"atoms\":[\"(r)\",\"(p)\",\"(q)\"],\"goal\":[1,2],\"init\":[0]}";

/// Why the text is no task; `None` where it is one.
pub fn task_fault(alloc: Global, text: &[u8]) -> Option<JsonTaskError> {
    match read_task_json(alloc, text) {
        Ok(_) => None,
        Err(fault) => Some(fault),
    }
}

/// Asserts that each of the texts is no task for this cause, or where it is none that each is a task.
pub fn tasks_are(rt: &impl Abort, alloc: Global, fault: Option<JsonTaskError>, texts: &[&str]) {
    for text in texts {
        assert!(rt; task_fault(alloc, text.as_bytes()) == fault, "{text}");
    }
}

/// Why the text is no plan over the task; `None` where it is one.
fn plan_fault(alloc: Global, task: &Task, text: &[u8]) -> Option<JsonPlanError> {
    if text.len() > 16_777_216 {
        return None;
    }
    match read_plan_json(alloc, task, text) {
        Ok(_) => None,
        Err(fault) => Some(fault),
    }
}

/// Asserts that each of the texts is no plan over the task for this cause, or where it is none that each is a plan.
pub fn plans_are(
    rt: &impl Abort,
    alloc: Global,
    fault: Option<JsonPlanError>,
    texts: &[&str],
) -> Result<(), Fail> {
    let task = read_task_json(alloc, TASK.as_bytes())?;
    for text in texts {
        assert!(rt;
            plan_fault(alloc, &task, text.as_bytes()) == fault,
            "{text}"
        );
    }
    Ok(())
}
