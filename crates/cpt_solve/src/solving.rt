//! The command `solve`.

ghost use Rattle.std.specs.Prelude.{◌≡◌, ◌≢◌, ◌-◌, ◌^◌, ◌<◌, ◌≤◌, [], Bool, Some, IfOk, IfSome, IsSome, OnOk};
ghost use Rattle.cpt_answer.specs.Endings.{reply_answer};
ghost use Rattle.cpt_answer.specs.Giving.{Gives};
ghost use Rattle.cpt_answer.specs.Promise.{AnswersOver, Performs, call};
ghost use Rattle.cpt_answer.specs.Writing.{output};
ghost use Rattle.cpt_files.specs.Accepted.{IsSmall};
ghost use Rattle.cpt_options.specs.Options.{IsBudget};
ghost use Rattle.cpt_outcome.specs.Outcomes.{HasOutcome};
ghost use Rattle.cpt_search.specs.Answers.{outcome_of};
ghost use Rattle.cpt_solve.specs.Commands.{AnswersOutcome, SolvesFiles, SolvesProblem};
ghost use Rattle.cpt_solve.specs.Searches.{AreBestTables, full_search};

use crate::lines::outcome_reply;
use crate::searching::{best_tables, outcome_of_task};
use cpt_answer::{Ending, Reply, tell};
use cpt_files::accepted_in;
use cpt_io::{Library, Sink};
use cpt_options::Budget;
use cpt_search::Outcome;
use cpt_tables::Tables;
use cpt_task::Task;
use std::alloc::Global;

/// What is answered at what the search found.
fn reply_of(
    alloc: Global,
    task: &Task,
    tables: &Tables,
    budget: Budget,
    found: &Outcome,
) -> Result<Reply, Ending>
    requires tables { AreBestTables task.now tables.now }
    requires outcome { HasOutcome (full_search task.now tables.now) budget.max budget.nodes (outcome_of found.now) }
    ensures answer { (steady : Bool) → Gives steady reply_answer result (AnswersOutcome task.now budget) }
    ensures status { IfOk result (λ reply. reply.status ≤ 3) }
    ensures kept { result ≢ Err Ending.Read }
{
    let _actions = task.actions();
    match outcome_reply(alloc, task, budget, found) {
        Ok(reply) => Ok(reply),
        Err(_) => Err(Ending::Memory),
    }
}

/// What solving the task comes to.
fn solve_task(alloc: Global, task: &Task, budget: Budget) -> Result<Reply, Ending>
    requires small { IsSmall task.now }
    requires budget { IsBudget budget }
    ensures answer { (steady : Bool) → Gives steady reply_answer result (AnswersOutcome task.now budget) }
    ensures status { IfOk result (λ reply. reply.status ≤ 3) }
    ensures kept { result ≢ Err Ending.Read }
{
    let tables = match best_tables(alloc, task) {
        Ok(tables) => tables,
        Err(_) => return Err(Ending::Memory),
    };
    let found = match outcome_of_task(alloc, task, &tables, budget) {
        Ok(found) => found,
        Err(_) => return Err(Ending::Memory),
    };
    reply_of(alloc, task, &tables, budget, &found)
}

/// What solving the domain and the problem in two files comes to.
fn solve_files<L: Library>(
    alloc: Global,
    domain_name: &str,
    problem_name: &str,
    budget: Budget,
    lib: &mut L,
) -> Result<Reply, Ending>
    requires faults { L.faults lib.old < 2 ^ 64 - 1 }
    requires budget { IsBudget budget }
    ensures answer { IfSome (L.holds lib.old) (λ files. Gives (L.steady lib.old) reply_answer result (SolvesFiles files domain_name.now problem_name.now budget)) }
    ensures status { IfOk result (λ reply. reply.status ≤ 3) }
    ensures failed { result ≡ Err Ending.Read → L.faults lib.old < L.faults lib.new }
    ensures kept { result ≢ Err Ending.Read → L.faults lib.new ≡ L.faults lib.old }
    ensures end { OnOk result (IsSome (L.holds lib.old) → L.left lib.new ≡ Some []) }
{
    let accepted = match accepted_in(alloc, lib, domain_name, problem_name) {
        Ok(accepted) => accepted,
        Err(ending) => return Err(ending),
    };
    solve_task(alloc, &accepted.kept.task, budget)
}

/// Writes a plan of least makespan for the domain and the problem in two files, or that there is none, and answers the exit
/// status. A search goes no further than its budget.
pub fn solve<L: Library, K: Sink>(
    alloc: Global,
    domain_name: &str,
    problem_name: &str,
    budget: Budget,
    lib: &mut L,
    out: &mut K,
) -> u8
    requires lib { L.faults lib.old < 2 ^ 64 - 1 }
    requires out { K.faults out.old < 2 ^ 64 - 1 }
    requires budget { IsBudget budget }
    ensures performs { Performs (AnswersOver (L.holds lib.old) (λ files. SolvesFiles files domain_name.now problem_name.now budget)) (call (L.steady lib.old) (L.faults lib.old) (L.faults lib.new) (output (K.faults out.old) (K.written out.old)) (output (K.faults out.new) (K.written out.new)) result) }
    ensures keeps { IfSome (L.holds lib.old) (λ files. SolvesProblem files domain_name.now problem_name.now budget (call (L.steady lib.old) (L.faults lib.old) (L.faults lib.new) (output (K.faults out.old) (K.written out.old)) (output (K.faults out.new) (K.written out.new)) result)) }
    ensures end { result ≡ 0 → IsSome (L.holds lib.old) → L.left lib.new ≡ Some [] }
{
    let reply = solve_files(alloc, domain_name, problem_name, budget, lib);
    tell(alloc, out, reply)
}
