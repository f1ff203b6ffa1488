//! The commands `validate-task` and `validate`.

ghost use Rattle.std.specs.Prelude.{◌≡◌, ◌≢◌, ◌-◌, ◌^◌, ◌<◌, ◌≤◌, [], Bool, length, Some, IfOk, IfSome, IsSome, OnOk};
ghost use Rattle.cpt_task.specs.Judgeable.{IsJudgeable};
ghost use Rattle.cpt_answer.specs.Giving.{Gives};
ghost use Rattle.cpt_answer.specs.Endings.{reply_answer};
ghost use Rattle.cpt_answer.specs.Promise.{AnswersOver, Performs, call};
ghost use Rattle.cpt_answer.specs.Writing.{output};
ghost use Rattle.cpt_validate.specs.Commands.{ValidatesProblem, ValidatesTask};
ghost use Rattle.cpt_validate.specs.Verdicts.{JudgesFiles, JudgesPlan, AnswersVerdict};

use crate::verdicts::verdict_reply;
use cpt_answer::{Ending, Reply, tell};
use cpt_files::{KeptNames, accepted_in, plan_in, task_in};
use cpt_io::{Library, Sink};
use cpt_task::{Task, judge};
use cpt_text::PlanText;
use std::alloc::Global;

/// The verdict on the plan.
fn judge_plan(alloc: Global, task: &Task, plan: &PlanText) -> Result<Reply, Ending>
    requires plan { IsJudgeable task.now plan.now.occs }
    requires short { length plan.now.occs < 2 ^ 32 }
    ensures answer { (steady : Bool) → Gives steady reply_answer result (AnswersVerdict task.now plan.now) }
    ensures status { IfOk result (λ reply. reply.status ≤ 1) }
    ensures kept { result ≢ Err Ending.Read }
{
    let verdict = match judge(alloc, task, plan.occs.as_slice()) {
        Ok(verdict) => verdict,
        Err(_) => return Err(Ending::Memory),
    };
    match verdict_reply(alloc, task, plan, verdict) {
        Ok(reply) => Ok(reply),
        Err(_) => Err(Ending::Memory),
    }
}

/// What judging the plan in one file over the task in another comes to.
fn judge_files<L: Library>(
    alloc: Global,
    task_name: &str,
    plan_name: &str,
    lib: &mut L,
) -> Result<Reply, Ending>
    requires { L.faults lib.old < 2 ^ 64 - 1 }
    ensures answer { IfSome (L.holds lib.old) (λ files. Gives (L.steady lib.old) reply_answer result (JudgesFiles files task_name.now plan_name.now)) }
    ensures status { IfOk result (λ reply. reply.status ≤ 1) }
    ensures failed { result ≡ Err Ending.Read → L.faults lib.old < L.faults lib.new }
    ensures kept { result ≢ Err Ending.Read → L.faults lib.new ≡ L.faults lib.old }
    ensures end { OnOk result (IsSome (L.holds lib.old) → L.left lib.new ≡ Some []) }
{
    let task = match task_in(alloc, lib, task_name) {
        Ok(task) => task,
        Err(ending) => return Err(ending),
    };
    let plan = match plan_in(alloc, lib, &task, &task, plan_name) {
        Ok(plan) => plan,
        Err(ending) => return Err(ending),
    };
    judge_plan(alloc, &task, &plan)
}

/// What judging the plan in one file over the domain and the problem in two others comes to.
fn judge_problem<L: Library>(
    alloc: Global,
    domain_name: &str,
    problem_name: &str,
    plan_name: &str,
    lib: &mut L,
) -> Result<Reply, Ending>
    requires { L.faults lib.old < 2 ^ 64 - 1 }
    ensures answer { IfSome (L.holds lib.old) (λ files. Gives (L.steady lib.old) reply_answer result (JudgesPlan files domain_name.now problem_name.now plan_name.now)) }
    ensures status { IfOk result (λ reply. reply.status ≤ 1) }
    ensures failed { result ≡ Err Ending.Read → L.faults lib.old < L.faults lib.new }
    ensures kept { result ≢ Err Ending.Read → L.faults lib.new ≡ L.faults lib.old }
    ensures end { OnOk result (IsSome (L.holds lib.old) → L.left lib.new ≡ Some []) }
{
    let accepted = match accepted_in(alloc, lib, domain_name, problem_name) {
        Ok(accepted) => accepted,
        Err(ending) => return Err(ending),
    };
    let names = KeptNames::new(&accepted.domain, &accepted.problem, &accepted.kept);
    let plan = match plan_in(alloc, lib, &accepted.kept.task, &names, plan_name) {
        Ok(plan) => plan,
        Err(ending) => return Err(ending),
    };
    judge_plan(alloc, &accepted.kept.task, &plan)
}

/// Judges the plan in one file over the task in another, writes the verdict, and answers the exit status.
pub fn validate_task<L: Library, K: Sink>(
    alloc: Global,
    task_name: &str,
    plan_name: &str,
    lib: &mut L,
    out: &mut K,
) -> u8
    requires lib { L.faults lib.old < 2 ^ 64 - 1 }
    requires out { K.faults out.old < 2 ^ 64 - 1 }
    ensures performs { Performs (AnswersOver (L.holds lib.old) (λ files. JudgesFiles files task_name.now plan_name.now)) (call (L.steady lib.old) (L.faults lib.old) (L.faults lib.new) (output (K.faults out.old) (K.written out.old)) (output (K.faults out.new) (K.written out.new)) result) }
    ensures keeps { IfSome (L.holds lib.old) (λ files. ValidatesTask files task_name.now plan_name.now (call (L.steady lib.old) (L.faults lib.old) (L.faults lib.new) (output (K.faults out.old) (K.written out.old)) (output (K.faults out.new) (K.written out.new)) result)) }
    ensures end { result ≡ 0 → IsSome (L.holds lib.old) → L.left lib.new ≡ Some [] }
{
    let reply = judge_files(alloc, task_name, plan_name, lib);
    tell(alloc, out, reply)
}

/// Judges the plan in one file over the domain and the problem in two others, writes the verdict, and answers the exit
/// status.
pub fn validate<L: Library, K: Sink>(
    alloc: Global,
    domain_name: &str,
    problem_name: &str,
    plan_name: &str,
    lib: &mut L,
    out: &mut K,
) -> u8
    requires lib { L.faults lib.old < 2 ^ 64 - 1 }
    requires out { K.faults out.old < 2 ^ 64 - 1 }
    ensures performs { Performs (AnswersOver (L.holds lib.old) (λ files. JudgesPlan files domain_name.now problem_name.now plan_name.now)) (call (L.steady lib.old) (L.faults lib.old) (L.faults lib.new) (output (K.faults out.old) (K.written out.old)) (output (K.faults out.new) (K.written out.new)) result) }
    ensures keeps { IfSome (L.holds lib.old) (λ files. ValidatesProblem files domain_name.now problem_name.now plan_name.now (call (L.steady lib.old) (L.faults lib.old) (L.faults lib.new) (output (K.faults out.old) (K.written out.old)) (output (K.faults out.new) (K.written out.new)) result)) }
    ensures end { result ≡ 0 → IsSome (L.holds lib.old) → L.left lib.new ≡ Some [] }
{
    let reply = judge_problem(alloc, domain_name, problem_name, plan_name, lib);
    tell(alloc, out, reply)
}
