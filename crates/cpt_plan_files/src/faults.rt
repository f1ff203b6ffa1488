//! The text of the faults of a plan.

ghost use Rattle.std.specs.Prelude.{◌≡◌, ◌<◌, [], length, IfOk};
ghost use Rattle.cpt_task.specs.Timeline.{makespan};
ghost use Rattle.cpt_answer.specs.Endings.{reply_answer};
ghost use Rattle.cpt_plan_files.specs.Explaining.{fault_lines, faults_answer, faults_line, too_many_answer};

use cpt_answer::Reply;
use cpt_task::{Task, Verdict};
use cpt_text::PlanText;
use cpt_validate::verdict_reply;
use std::alloc::{AllocError, Global};

fn faults_text(alloc: Global, faults: usize) -> Result<Vec<u8>, AllocError>
    ensures { IfOk result (λ text. text.items ≡ faults_line faults) }
{
    Ok(format!(in alloc; "faults {faults}\n")?.into_bytes())
}

/// A line for each fault.
fn fault_lines(
    alloc: Global,
    task: &Task,
    plan: &PlanText,
    faults: &[Verdict],
) -> Result<Vec<u8>, AllocError>
    ensures { IfOk result (λ text. text.items ≡ fault_lines task.now plan.now faults.now) }
{
    let mut text = Vec::new(alloc);
    for fault in faults {
        let reply = verdict_reply(alloc, task, plan, *fault)?;
        text.extend_from_slice(&reply.text)?;
    }
    Ok(text)
}

fn valid_text(alloc: Global, task: &Task, plan: &PlanText, end: u64) -> Result<Vec<u8>, AllocError>
    requires { end ≡ makespan task.now plan.now.occs }
    ensures { IfOk result (λ text. text.items ≡ (faults_answer task.now plan.now []).text) }
{
    let reply = verdict_reply(alloc, task, plan, Verdict::Valid(end))?;
    let mut text = reply.text;
    let faults = faults_text(alloc, 0)?;
    text.extend_from_slice(&faults)?;
    Ok(text)
}

/// What is answered at a valid plan that ends at that moment.
pub fn valid_reply(
    alloc: Global,
    task: &Task,
    plan: &PlanText,
    end: u64,
) -> Result<Reply, AllocError>
    requires { end ≡ makespan task.now plan.now.occs }
    ensures { IfOk result (λ reply. reply_answer reply ≡ faults_answer task.now plan.now []) }
{
    let text = valid_text(alloc, task, plan, end)?;
    Ok(Reply { status: 0, text })
}

/// What is answered at the faults of a plan.
pub fn faults_reply(
    alloc: Global,
    task: &Task,
    plan: &PlanText,
    faults: &[Verdict],
) -> Result<Reply, AllocError>
    requires { 0 < length faults.now }
    ensures { IfOk result (λ reply. reply_answer reply ≡ faults_answer task.now plan.now faults.now) }
{
    let mut text = fault_lines(alloc, task, plan, faults)?;
    let count = faults_text(alloc, faults.len())?;
    text.extend_from_slice(&count)?;
    Ok(Reply { status: 1, text })
}

/// What is answered at a plan of too many occurrences.
pub fn too_many_reply(alloc: Global) -> Result<Reply, AllocError>
    ensures { IfOk result (λ reply. reply_answer reply ≡ too_many_answer) }
{
    let text = Vec::from_slice(alloc, b"fault: limit lines\n")?;
    Ok(Reply { status: 6, text })
}
