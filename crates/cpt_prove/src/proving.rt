//! The command `prove`.

ghost use Rattle.std.specs.Prelude.{◌≡◌, ◌≢◌, ◌-◌, ◌^◌, ◌<◌, ◌≤◌, [], Some, IfSome, IsSome};
ghost use Rattle.cpt_answer.specs.Promise.{AnswersOver, Performs, call};
ghost use Rattle.cpt_answer.specs.Writing.{output};
ghost use Rattle.cpt_files.specs.Accepted.{IsSmall};
ghost use Rattle.cpt_outcome.specs.Outcomes.{HasOutcome};
ghost use Rattle.cpt_search.specs.Answers.{HasTrees, outcome_of};
ghost use Rattle.cpt_options.specs.Options.{IsBudget};
ghost use Rattle.cpt_solve.specs.Searches.{AreBestTables, full_search};
ghost use Rattle.cpt_prove.specs.Commands.{ProvesFiles, ProvesProblem, TellsFailure, TellsProof};

use cpt_answer::{Cause, Ending, tell};
use cpt_cert_form::Version;
use cpt_certify::{ProofError, put_proof};
use cpt_files::accepted_in;
use cpt_io::{Library, Sink};
use cpt_options::Budget;
use cpt_search::Outcome;
use cpt_solve::{best_tables, outcome_of_task, outcome_status};
use cpt_tables::Tables;
use cpt_task::{Limit, Task};
use std::alloc::Global;

/// Puts that the certificate is too long, or nothing where a write failed, and answers the exit status.
fn tell_failure<K: Sink>(alloc: Global, e: ProofError, out: &mut K) -> u8
    requires { e ≡ ProofError.TooLong → K.faults out.old < 2 ^ 64 - 1 }
    ensures { TellsFailure e (output (K.faults out.old) (K.written out.old)) (output (K.faults out.new) (K.written out.new)) result }
{
    match e {
        ProofError::Failed => 8,
        ProofError::TooLong => {
            let ending = Ending::Because(Cause::Passed(Limit::Certificate));
            tell(alloc, out, Err(ending))
        }
    }
}

/// Puts the certificate of what the search found line by line, or that it is too long, and answers the exit status.
fn tell_proof<K: Sink>(
    alloc: Global,
    task: &Task,
    tables: &Tables,
    budget: Budget,
    version: Version,
    found: &Outcome,
    out: &mut K,
) -> u8
    requires faults { K.faults out.old < 2 ^ 64 - 1 }
    requires small { IsSmall task.now }
    requires budget { IsBudget budget }
    requires tables { AreBestTables task.now tables.now }
    requires outcome { HasOutcome (full_search task.now tables.now) budget.max budget.nodes (outcome_of found.now) }
    requires trees { HasTrees (full_search task.now tables.now) budget.max budget.nodes found.now }
    ensures { TellsProof task.now budget version (output (K.faults out.old) (K.written out.old)) (output (K.faults out.new) (K.written out.new)) result }
{
    let _actions = task.actions();
    match put_proof(
        alloc,
        task,
        tables,
        found,
        budget.max,
        budget.nodes,
        version,
        out,
    ) {
        Ok(()) => outcome_status(found),
        Err(e) => tell_failure(alloc, e, out),
    }
}

/// Searches the task and puts the certificate, and answers the exit status.
fn prove_task<K: Sink>(
    alloc: Global,
    task: &Task,
    budget: Budget,
    version: Version,
    out: &mut K,
) -> u8
    requires faults { K.faults out.old < 2 ^ 64 - 1 }
    requires small { IsSmall task.now }
    requires budget { IsBudget budget }
    ensures { TellsProof task.now budget version (output (K.faults out.old) (K.written out.old)) (output (K.faults out.new) (K.written out.new)) result }
{
    let tables = match best_tables(alloc, task) {
        Ok(tables) => tables,
        Err(_) => return tell(alloc, out, Err(Ending::Memory)),
    };
    let found = match outcome_of_task(alloc, task, &tables, budget) {
        Ok(found) => found,
        Err(_) => return tell(alloc, out, Err(Ending::Memory)),
    };
    tell_proof(alloc, task, &tables, budget, version, &found, out)
}

/// Writes the certificate of what a search for a plan of the domain and the problem in two files finds, in this version, and
/// answers the exit status. A search goes no further than its budget.
pub fn prove<L: Library, K: Sink>(
    alloc: Global,
    domain_name: &str,
    problem_name: &str,
    budget: Budget,
    version: Version,
    lib: &mut L,
    out: &mut K,
) -> u8
    requires lib { L.faults lib.old < 2 ^ 64 - 1 }
    requires out { K.faults out.old < 2 ^ 64 - 1 }
    requires budget { IsBudget budget }
    ensures performs { Performs (AnswersOver (L.holds lib.old) (λ files. ProvesFiles files domain_name.now problem_name.now budget version)) (call (L.steady lib.old) (L.faults lib.old) (L.faults lib.new) (output (K.faults out.old) (K.written out.old)) (output (K.faults out.new) (K.written out.new)) result) }
    ensures keeps { IfSome (L.holds lib.old) (λ files. ProvesProblem files domain_name.now problem_name.now budget version (call (L.steady lib.old) (L.faults lib.old) (L.faults lib.new) (output (K.faults out.old) (K.written out.old)) (output (K.faults out.new) (K.written out.new)) result)) }
    ensures end { result ≡ 0 → IsSome (L.holds lib.old) → L.left lib.new ≡ Some [] }
{
    match accepted_in(alloc, lib, domain_name, problem_name) {
        Ok(accepted) => prove_task(alloc, &accepted.kept.task, budget, version, out),
        Err(ending) => tell(alloc, out, Err(ending)),
    }
}
