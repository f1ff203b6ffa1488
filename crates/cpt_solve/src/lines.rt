//! What is written of an outcome.

ghost use Rattle.std.specs.Prelude.{◌≡◌, ◌≤◌, ◌++◌, IfOk, OnOk, string_bytes};
ghost use Rattle.cpt_task.specs.Timeline.{IsOccurrence, IsPlan};
ghost use Rattle.cpt_plan_text.specs.Spelling.{plan_spelling, spelled_line};
ghost use Rattle.cpt_answer.specs.Endings.{reply_answer};
ghost use Rattle.cpt_search.specs.Answers.{outcome_of};
ghost use Rattle.cpt_solve.specs.Lines.{makespan_line, no_plan_up_to_line, nodes_line, outcome_answer, outcome_status, outcome_text, plan_lines, refuted_line, refuted_lines};
ghost use Rattle.cpt_solve.specs.Searches.{HasPlan};

use cpt_answer::Reply;
use cpt_options::Budget;
use cpt_plan_text::spelling_of;
use cpt_search::Outcome;
use cpt_task::{Occ, Task};
use std::alloc::{AllocError, Global};

fn makespan_line(alloc: Global, makespan: u64) -> Result<String, AllocError>
    ensures { IfOk result (λ text. string_bytes text ≡ makespan_line makespan) }
{
    format!(in alloc; "; makespan {makespan}\n")
}

/// The lines of the plan and that of its makespan.
fn plan_text(alloc: Global, task: &Task, plan: &[Occ], makespan: u64) -> Result<Vec<u8>, AllocError>
    requires { IsPlan task.now plan.now }
    ensures { IfOk result (λ text. text.items ≡ plan_lines task.now plan.now makespan) }
{
    let mut text = spelling_of(alloc, task, plan)?;
    let line = makespan_line(alloc, makespan)?;
    text.extend_from_slice(line.as_bytes())?;
    Ok(text)
}

fn none_up_to_text(alloc: Global, max: u64) -> Result<Vec<u8>, AllocError>
    ensures { IfOk result (λ text. text.items ≡ no_plan_up_to_line max) }
{
    Ok(format!(in alloc; "; no plan up to {max}\n")?.into_bytes())
}

fn refuted_line(alloc: Global, refuted: u64) -> Result<String, AllocError>
    ensures { IfOk result (λ text. string_bytes text ≡ refuted_line refuted) }
{
    format!(in alloc; "; refuted {refuted}\n")
}

fn nodes_line(alloc: Global, nodes: u64) -> Result<String, AllocError>
    ensures { IfOk result (λ text. string_bytes text ≡ nodes_line nodes) }
{
    format!(in alloc; "; nodes {nodes}\n")
}

fn spent_text(alloc: Global, refuted: u64, nodes: u64) -> Result<Vec<u8>, AllocError>
    ensures { IfOk result (λ text. text.items ≡ refuted_lines refuted nodes) }
{
    let mut text = refuted_line(alloc, refuted)?.into_bytes();
    let line = nodes_line(alloc, nodes)?;
    text.extend_from_slice(line.as_bytes())?;
    Ok(text)
}

fn outcome_text(
    alloc: Global,
    task: &Task,
    budget: Budget,
    found: &Outcome,
) -> Result<Vec<u8>, AllocError>
    requires { HasPlan task.now (outcome_of found.now) }
    ensures { IfOk result (λ text. text.items ≡ outcome_text task.now budget (outcome_of found.now)) }
{
    match found {
        Outcome::Optimal { plan, makespan, .. } => {
            plan_text(alloc, task, plan.as_slice(), *makespan)
        }
        Outcome::NoneUpTo { .. } => none_up_to_text(alloc, budget.max),
        Outcome::Never => Vec::from_slice(alloc, b"; no plan\n"),
        Outcome::Spent { refuted, .. } => spent_text(alloc, *refuted, budget.nodes),
    }
}

/// The exit status at what the search found.
pub fn outcome_status(found: &Outcome) -> u8
    ensures value { result ≡ outcome_status (outcome_of found.now) }
    ensures small { result ≤ 3 }
{
    match found {
        Outcome::Optimal { .. } => 0,
        Outcome::NoneUpTo { .. } => 2,
        Outcome::Never => 2,
        Outcome::Spent { .. } => 3,
    }
}

/// What is answered at the outcome of the search.
pub fn outcome_reply(
    alloc: Global,
    task: &Task,
    budget: Budget,
    found: &Outcome,
) -> Result<Reply, AllocError>
    requires { HasPlan task.now (outcome_of found.now) }
    ensures answer { IfOk result (λ reply. reply_answer reply ≡ outcome_answer task.now budget (outcome_of found.now)) }
    ensures status { IfOk result (λ reply. reply.status ≤ 3) }
{
    let text = outcome_text(alloc, task, budget, found)?;
    Ok(Reply {
        status: outcome_status(found),
        text,
    })
}
