//! What is written of a made problem.

ghost use Rattle.std.specs.Prelude.{◌≡◌, ◌≢◌, ◌≤◌, ◌++◌, ℕ, Bool, IfOk, OnOk, string_bytes};
ghost use Rattle.std.specs.Fmt.{decimal};
ghost use Rattle.cpt_answer.specs.Endings.{answer, reply_answer};
ghost use Rattle.cpt_answer.specs.Giving.{Gives};
ghost use Rattle.cpt_answer.specs.Lines.{line_of};
ghost use Rattle.cpt_certify.specs.Proving.{IsFound};
ghost use Rattle.cpt_files.specs.Accepted.{IsSmall};
ghost use Rattle.cpt_search.specs.Answers.{outcome_of};
ghost use Rattle.cpt_solve.specs.Lines.{outcome_status};
ghost use Rattle.cpt_solve.specs.Searches.{AreBestTables};
ghost use Rattle.cpt_bench.specs.Commands.{AnswersBench};
ghost use Rattle.cpt_bench.specs.Lines.{counted_lines, summary_lines};

use crate::judging::judged_proof;
use cpt_answer::{Ending, Reply};
use cpt_cert_form::Claim;
use cpt_check::Ruling;
use cpt_options::Budget;
use cpt_search::Outcome;
use cpt_tables::Tables;
use cpt_task::Task;
use std::alloc::{AllocError, Global};

/// Writes a line of these words and a number.
fn push_line(text: &mut String, words: &str, number: u64) -> Result<(), AllocError>
    ensures { OnOk result (string_bytes text.new ≡ string_bytes text.old ++ line_of (words.now ++ decimal number)) }
{
    write!(text, "{words}{number}\n")
}

fn summary_text(
    alloc: Global,
    n: u32,
    atoms: usize,
    actions: usize,
    makespan: u64,
) -> Result<Vec<u8>, AllocError>
    ensures { IfOk result (λ text. text.items ≡ counted_lines n atoms actions makespan) }
{
    let mut text = String::new(alloc);
    push_line(&mut text, "bench ", u64::from(n))?;
    push_line(&mut text, "atoms ", atoms as u64)?;
    push_line(&mut text, "actions ", actions as u64)?;
    push_line(&mut text, "makespan ", makespan)?;
    push_line(&mut text, "accepted: optimal ", makespan)?;
    Ok(text.into_bytes())
}

/// The summary of the made problem with `n` packages, whose kept task this is.
fn summary_reply(alloc: Global, n: u32, task: &Task, makespan: u64) -> Result<Reply, AllocError>
    ensures answer { IfOk result (λ reply. reply_answer reply ≡ answer 0 (summary_lines n task.now makespan)) }
    ensures status { IfOk result (λ reply. reply.status ≤ 3) }
{
    let text = summary_text(alloc, n, task.atoms().len(), task.actions().len(), makespan)?;
    Ok(Reply { status: 0, text })
}

/// The makespan of the plan that the checker accepted as optimal.
fn accepted_makespan(ruling: Ruling) -> u64
    requires { (m : ℕ) × (ruling ≡ Ruling.Accepted (Claim.Optimal m)) }
    ensures { ruling ≡ Ruling.Accepted (Claim.Optimal result) }
{
    match ruling {
        Ruling::Accepted(Claim::Optimal(makespan)) => makespan,
        _ => unreachable!(),
    }
}

/// The summary of the made problem with `n` packages, for which a search found a plan. The makespan is that of the certificate, once
/// the checker has accepted it.
pub(crate) fn checked_summary(
    alloc: Global,
    n: u32,
    task: &Task,
    tables: &Tables,
    budget: Budget,
    found: &Outcome,
) -> Result<Reply, Ending>
    requires small { IsSmall task.now }
    requires tables { AreBestTables task.now tables.now }
    requires found { IsFound task.now tables.now budget.max budget.nodes found.now }
    requires plan { outcome_status (outcome_of found.now) ≡ 0 }
    ensures answer { (steady : Bool) → Gives steady reply_answer result (AnswersBench n task.now budget (outcome_of found.now)) }
    ensures status { IfOk result (λ reply. reply.status ≤ 3) }
    ensures kept { result ≢ Err Ending.Read }
{
    let judged = match judged_proof(alloc, task, tables, budget, found) {
        Ok(judged) => judged,
        Err(ending) => return Err(ending),
    };
    match summary_reply(alloc, n, task, accepted_makespan(judged.ruling)) {
        Ok(reply) => Ok(reply),
        Err(_) => Err(Ending::Memory),
    }
}
