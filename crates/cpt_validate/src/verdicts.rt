//! What is said of a plan.

ghost use Rattle.std.specs.Prelude.{◌≡◌, ◌≤◌, ◌∷◌, ◌++◌, [], codes, IfOk};
ghost use Rattle.std.specs.Fmt.{decimal};
ghost use Rattle.cpt_answer.specs.Lines.{valid_line, overlap_line, lacks_line, missing_line};
ghost use Rattle.cpt_answer.specs.Endings.{reply_answer};
ghost use Rattle.cpt_validate.specs.Verdicts.{verdict_answer, verdict_status, verdict_text, line_at, atom_name};

use cpt_answer::Reply;
use cpt_task::{Task, Verdict};
use cpt_text::PlanText;
use std::alloc::{AllocError, Global};

fn valid_text(alloc: Global, makespan: u64) -> Result<Vec<u8>, AllocError>
    ensures { IfOk result (λ text. text.items ≡ valid_line makespan) }
{
    Ok(format!(in alloc; "valid {makespan}\n")?.into_bytes())
}

fn overlap_text(alloc: Global, first: u32, second: u32) -> Result<Vec<u8>, AllocError>
    ensures { IfOk result (λ text. text.items ≡ overlap_line first second) }
{
    Ok(format!(in alloc; "invalid: lines {first} and {second} overlap\n")?.into_bytes())
}

fn lacks_front(alloc: Global, line: u32) -> Result<Vec<u8>, AllocError>
    ensures { IfOk result (λ text. text.items ≡ codes "invalid: line " ++ decimal line ++ codes " lacks ") }
{
    Ok(format!(in alloc; "invalid: line {line} lacks ")?.into_bytes())
}

fn lacks_back(alloc: Global, time: u64) -> Result<Vec<u8>, AllocError>
    ensures { IfOk result (λ text. text.items ≡ codes " at " ++ decimal time ++ 10 ∷ []) }
{
    Ok(format!(in alloc; " at {time}\n")?.into_bytes())
}

fn lacks_text(alloc: Global, line: u32, atom: &[u8], time: u64) -> Result<Vec<u8>, AllocError>
    ensures { IfOk result (λ text. text.items ≡ lacks_line line atom.now time) }
{
    let mut text = lacks_front(alloc, line)?;
    text.extend_from_slice(atom)?;
    let back = lacks_back(alloc, time)?;
    text.extend_from_slice(&back)?;
    Ok(text)
}

fn missing_text(alloc: Global, atom: &[u8]) -> Result<Vec<u8>, AllocError>
    ensures { IfOk result (λ text. text.items ≡ missing_line atom.now) }
{
    let mut text = Vec::from_slice(alloc, b"invalid: goal ")?;
    text.extend_from_slice(atom)?;
    text.extend_from_slice(b" is missing\n")?;
    Ok(text)
}

/// The line of the plan text that has the occurrence at the place.
fn line_at(plan: &PlanText, place: u32) -> u32
    ensures { result ≡ line_at plan.now place }
{
    plan.lines
        .as_slice()
        .get(place as usize)
        .copied()
        .unwrap_or(0)
}

/// The name of the atom.
fn atom_name<'a>(task: &'a Task, atom: u32) -> &'a [u8]
    ensures { result.now ≡ atom_name task.now atom }
{
    match task.atoms().get(atom as usize) {
        Some(name) => name.as_slice(),
        None => &[],
    }
}

fn verdict_text(
    alloc: Global,
    task: &Task,
    plan: &PlanText,
    verdict: Verdict,
) -> Result<Vec<u8>, AllocError>
    ensures { IfOk result (λ text. text.items ≡ verdict_text task.now plan.now verdict) }
{
    match verdict {
        Verdict::Valid(makespan) => valid_text(alloc, makespan),
        Verdict::Overlap(first, second) => {
            overlap_text(alloc, line_at(plan, first), line_at(plan, second))
        }
        Verdict::Unmet(place, atom, time) => {
            lacks_text(alloc, line_at(plan, place), atom_name(task, atom), time)
        }
        Verdict::GoalMissing(atom) => missing_text(alloc, atom_name(task, atom)),
    }
}

fn verdict_status(verdict: Verdict) -> u8
    ensures value { result ≡ verdict_status verdict }
    ensures small { result ≤ 1 }
{
    match verdict {
        Verdict::Valid(_) => 0,
        _ => 1,
    }
}

/// What is answered at a verdict on the plan.
pub fn verdict_reply(
    alloc: Global,
    task: &Task,
    plan: &PlanText,
    verdict: Verdict,
) -> Result<Reply, AllocError>
    ensures answer { IfOk result (λ reply. reply_answer reply ≡ verdict_answer task.now plan.now verdict) }
    ensures status { IfOk result (λ reply. reply.status ≤ 1) }
{
    let text = verdict_text(alloc, task, plan, verdict)?;
    Ok(Reply {
        status: verdict_status(verdict),
        text,
    })
}
