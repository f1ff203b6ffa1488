//! The command `bench`.

ghost use Rattle.std.specs.Prelude.{◌≡◌, ◌≢◌, ◌≤◌, ◌<◌, ◌-◌, ◌^◌, ℕ, Bool, Option, IfOk};
ghost use Rattle.cpt_io.specs.Meaning.{Files};
ghost use Rattle.cpt_answer.specs.Endings.{reply_answer};
ghost use Rattle.cpt_answer.specs.Giving.{Gives};
ghost use Rattle.cpt_answer.specs.Promise.{AnswersOver, Performs, call};
ghost use Rattle.cpt_answer.specs.Writing.{output};
ghost use Rattle.cpt_files.specs.Accepted.{IsSmall};
ghost use Rattle.cpt_options.specs.Options.{IsBudget};
ghost use Rattle.cpt_outcome.specs.Outcomes.{HasOutcome};
ghost use Rattle.cpt_search.specs.Answers.{HasTrees, outcome_of};
ghost use Rattle.cpt_solve.specs.Searches.{AreBestTables, full_search};
ghost use Rattle.cpt_bench.specs.Commands.{AnswersBench, BenchesMade, BenchesProblem, BenchesTask};
ghost use Rattle.cpt_bench.specs.Made.{default_budget};

use crate::made::accepted_made;
use crate::summary::checked_summary;
use cpt_answer::{Ending, Reply, tell};
use cpt_io::Sink;
use cpt_options::{Budget, Options, budget_of};
use cpt_search::Outcome;
use cpt_solve::{best_tables, outcome_of_task, outcome_reply, outcome_status};
use cpt_tables::Tables;
use cpt_task::Task;
use std::alloc::Global;

/// How far a search goes where no option is given.
fn default_budget() -> Budget
    ensures value { result ≡ default_budget }
    ensures limits { IsBudget result }
{
    budget_of(Options {
        max: None,
        nodes: None,
        version: None,
    })
}

/// What is answered at what the search for a plan of the made problem found.
fn reply_of(
    alloc: Global,
    n: u32,
    task: &Task,
    tables: &Tables,
    budget: Budget,
    found: &Outcome,
) -> Result<Reply, Ending>
    requires small { IsSmall task.now }
    requires budget { IsBudget budget }
    requires tables { AreBestTables task.now tables.now }
    requires outcome { HasOutcome (full_search task.now tables.now) budget.max budget.nodes (outcome_of found.now) }
    requires trees { HasTrees (full_search task.now tables.now) budget.max budget.nodes found.now }
    ensures answer { (steady : Bool) → Gives steady reply_answer result (AnswersBench n task.now budget (outcome_of found.now)) }
    ensures status { IfOk result (λ reply. reply.status ≤ 3) }
    ensures kept { result ≢ Err Ending.Read }
{
    let _actions = task.actions();
    if outcome_status(found) == 0 {
        return checked_summary(alloc, n, task, tables, budget, found);
    }
    match outcome_reply(alloc, task, budget, found) {
        Ok(reply) => Ok(reply),
        Err(_) => Err(Ending::Memory),
    }
}

/// What the made problem with `n` packages comes to, whose kept task this is.
fn bench_task(alloc: Global, n: u32, task: &Task) -> Result<Reply, Ending>
    requires { IsSmall task.now }
    ensures answer { (steady : Bool) → Gives steady reply_answer result (BenchesTask n task.now) }
    ensures status { IfOk result (λ reply. reply.status ≤ 3) }
    ensures kept { result ≢ Err Ending.Read }
{
    let budget = default_budget();
    let tables = match best_tables(alloc, task) {
        Ok(tables) => tables,
        Err(_) => return Err(Ending::Memory),
    };
    let found = match outcome_of_task(alloc, task, &tables, budget) {
        Ok(found) => found,
        Err(_) => return Err(Ending::Memory),
    };
    reply_of(alloc, n, task, &tables, budget, &found)
}

/// What the made problem with `n` packages comes to.
fn bench_made(alloc: Global, n: u32) -> Result<Reply, Ending>
    requires least { 1 ≤ n }
    requires most { n ≤ 40 }
    ensures answer { (steady : Bool) → Gives steady reply_answer result (BenchesMade n) }
    ensures status { IfOk result (λ reply. reply.status ≤ 3) }
    ensures kept { result ≢ Err Ending.Read }
{
    let accepted = match accepted_made(alloc, n) {
        Ok(accepted) => accepted,
        Err(ending) => return Err(ending),
    };
    bench_task(alloc, n, &accepted.kept.task)
}

/// Makes the problem with `n` packages, solves it, checks its certificate, and writes a summary: how many atoms and actions its kept
/// task has, the least makespan, and what the checker says. It answers the exit status. Where a search finds no plan it writes what
/// `solve` writes. It reads no file: it does the same beside any library.
pub fn bench<K: Sink>(alloc: Global, n: u32, out: &mut K) -> u8
    requires least { 1 ≤ n }
    requires most { n ≤ 40 }
    requires out { K.faults out.old < 2 ^ 64 - 1 }
    ensures performs { (o : Option Files) (steady : Bool) (before : ℕ) → Performs (AnswersOver o (λ files. BenchesMade n)) (call steady before before (output (K.faults out.old) (K.written out.old)) (output (K.faults out.new) (K.written out.new)) result) }
    ensures keeps { (steady : Bool) (before : ℕ) → BenchesProblem n (call steady before before (output (K.faults out.old) (K.written out.old)) (output (K.faults out.new) (K.written out.new)) result) }
{
    let reply = bench_made(alloc, n);
    tell(alloc, out, reply)
}
