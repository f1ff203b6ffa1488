//! What is answered of JSON texts.

ghost use Rattle.std.specs.Prelude.{◌≡◌, ◌≢◌, ◌≤◌, ◌∷◌, ◌++◌, [], Bool, IfOk};
ghost use Rattle.cpt_task_text.specs.Plain.{IsPlain};
ghost use Rattle.cpt_answer.specs.Endings.{reply_answer};
ghost use Rattle.cpt_answer.specs.Giving.{Gives};
ghost use Rattle.cpt_json_form.specs.Values.{HasAtomsOf, duration_value, report_value};
ghost use Rattle.cpt_json_files.specs.Faults.{json_fault, json_line, plan_fault, task_fault};
ghost use Rattle.cpt_json_files.specs.Validating.{report_answer, report_status};

use cpt_answer::{Cause, Ending, Reply};
use cpt_json::{JsonPlanError, JsonTaskError, duration_json, report_json};
use cpt_task::{Memory, Task, Verdict};
use std::alloc::Global;

/// The text with a line feed.
pub fn as_line(text: Vec<u8>) -> Result<Vec<u8>, Memory>
    ensures { IfOk result (λ line. line.items ≡ text.items ++ 10 ∷ []) }
{
    let mut line = text;
    line.push(b'\n')?;
    Ok(line)
}

/// What is answered at a fault of the JSON text of this name.
fn fault_reply(alloc: Global, text: &str, word: &str) -> Result<Reply, Ending>
    ensures answer { (steady : Bool) → Gives steady reply_answer result (λ r. r ≡ json_fault text.now word.now) }
    ensures status { IfOk result (λ reply. reply.status ≡ 4) }
    ensures kept { result ≢ Err Ending.Read }
{
    match format!(in alloc; "fault: {text} json: {word}\n") {
        Ok(line) => Ok(Reply {
            status: 4,
            text: line.into_bytes(),
        }),
        Err(_) => Err(Ending::Memory),
    }
}

/// What is answered where a text is no task.
pub fn task_reply(alloc: Global, fault: JsonTaskError) -> Result<Reply, Ending>
    ensures answer { (steady : Bool) → Gives steady reply_answer result (λ r. r ≡ task_fault fault) }
    ensures status { IfOk result (λ reply. reply.status ≤ 4) }
    ensures kept { result ≢ Err Ending.Read }
{
    match fault {
        JsonTaskError::Syntax => fault_reply(alloc, "task", "syntax"),
        JsonTaskError::Shape => fault_reply(alloc, "task", "shape"),
        JsonTaskError::Limit(which) => Err(Ending::Because(Cause::Passed(which))),
        JsonTaskError::BadName => fault_reply(alloc, "task", "name"),
        JsonTaskError::Atom => fault_reply(alloc, "task", "atom"),
        JsonTaskError::Duration => fault_reply(alloc, "task", "duration"),
        JsonTaskError::Memory => Err(Ending::Memory),
    }
}

fn duration_line(alloc: Global, place: u32, dur: u32) -> Result<Vec<u8>, Memory>
    ensures { IfOk result (λ line. line.items ≡ json_line (duration_value place dur)) }
{
    as_line(duration_json(alloc, place, dur)?)
}

/// What is answered where a text is no plan.
pub fn plan_reply(alloc: Global, fault: JsonPlanError) -> Result<Reply, Ending>
    ensures answer { (steady : Bool) → Gives steady reply_answer result (λ r. r ≡ plan_fault fault) }
    ensures status { IfOk result (λ reply. reply.status ≤ 4) }
    ensures kept { result ≢ Err Ending.Read }
{
    match fault {
        JsonPlanError::Syntax => fault_reply(alloc, "plan", "syntax"),
        JsonPlanError::Shape => fault_reply(alloc, "plan", "shape"),
        JsonPlanError::Unknown(_) => fault_reply(alloc, "plan", "unknown"),
        JsonPlanError::Limit(which) => Err(Ending::Because(Cause::Passed(which))),
        JsonPlanError::Duration(place, right) => match duration_line(alloc, place, right) {
            Ok(text) => Ok(Reply { status: 1, text }),
            Err(_) => Err(Ending::Memory),
        },
        JsonPlanError::Memory => Err(Ending::Memory),
    }
}

fn report_line(alloc: Global, task: &Task, verdict: Verdict) -> Result<Vec<u8>, Memory>
    requires plain { IsPlain task.now }
    requires atoms { HasAtomsOf task.now verdict }
    ensures { IfOk result (λ line. line.items ≡ json_line (report_value task.now verdict)) }
{
    as_line(report_json(alloc, task, &verdict)?)
}

fn report_status(verdict: Verdict) -> u8
    ensures value { result ≡ report_status verdict }
    ensures small { result ≤ 1 }
{
    match verdict {
        Verdict::Valid(_) => 0,
        _ => 1,
    }
}

/// What is answered at a verdict on a plan.
pub fn report_reply(alloc: Global, task: &Task, verdict: Verdict) -> Result<Reply, Memory>
    requires plain { IsPlain task.now }
    requires atoms { HasAtomsOf task.now verdict }
    ensures answer { IfOk result (λ reply. reply_answer reply ≡ report_answer task.now verdict) }
    ensures status { IfOk result (λ reply. reply.status ≤ 1) }
{
    let text = report_line(alloc, task, verdict)?;
    Ok(Reply {
        status: report_status(verdict),
        text,
    })
}
