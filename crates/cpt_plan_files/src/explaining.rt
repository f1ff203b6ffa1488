//! The command `explain`.

ghost use Rattle.std.specs.Prelude.{◌≡◌, ◌≢◌, ◌⊎◌, ◌-◌, ◌^◌, ◌<◌, ◌≤◌, [], Bool, length, Some, IfOk, IfSome, IsSome, OnOk};
ghost use Rattle.cpt_task.specs.Judgeable.{IsJudgeable};
ghost use Rattle.cpt_answer.specs.Giving.{Gives};
ghost use Rattle.cpt_answer.specs.Endings.{reply_answer};
ghost use Rattle.cpt_answer.specs.Promise.{AnswersOver, Performs, call};
ghost use Rattle.cpt_answer.specs.Writing.{output};
ghost use Rattle.cpt_plan_files.specs.Commands.{ExplainsProblem};
ghost use Rattle.cpt_plan_files.specs.Explaining.{AnswersFaults, ExplainsPlan};

use crate::faults::{faults_reply, too_many_reply, valid_reply};
use cpt_answer::{Ending, Reply, tell};
use cpt_explain::faults;
use cpt_files::{KeptNames, accepted_in, plan_in};
use cpt_io::{Library, Sink};
use cpt_task::{Memory, Task, Verdict, judge};
use cpt_text::PlanText;
use std::alloc::Global;

/// How many occurrences a plan to be explained has at most.
const LINES: usize = 1024;

/// The faults of a plan that is not too long.
fn explain_short(alloc: Global, task: &Task, plan: &PlanText) -> Result<Reply, Memory>
    requires plan { IsJudgeable task.now plan.now.occs }
    requires few { length plan.now.occs ≤ 1024 }
    ensures { IfOk result (λ reply. AnswersFaults task.now plan.now (Ok (reply_answer reply))) }
{
    if let Verdict::Valid(makespan) = judge(alloc, task, plan.occs.as_slice())? {
        return Ok(valid_reply(alloc, task, plan, makespan)?);
    }
    let faults = faults(alloc, task, plan.occs.as_slice())?;
    Ok(faults_reply(alloc, task, plan, faults.as_slice())?)
}

/// The faults of a plan, or that it is too long.
fn explain_read(alloc: Global, task: &Task, plan: &PlanText) -> Result<Reply, Ending>
    requires plan { IsJudgeable task.now plan.now.occs }
    ensures answer { (steady : Bool) → Gives steady reply_answer result (AnswersFaults task.now plan.now) }
    ensures status { IfOk result (λ reply. (reply.status ≤ 1) ⊎ (reply.status ≡ 6)) }
    ensures kept { result ≢ Err Ending.Read }
{
    if plan.occs.as_slice().len() > LINES {
        return match too_many_reply(alloc) {
            Ok(reply) => Ok(reply),
            Err(_) => Err(Ending::Memory),
        };
    }
    match explain_short(alloc, task, plan) {
        Ok(reply) => Ok(reply),
        Err(_) => Err(Ending::Memory),
    }
}

/// What explaining the plan in one file over the domain and the problem in two others comes to.
fn explain_in<L: Library>(
    alloc: Global,
    domain_name: &str,
    problem_name: &str,
    plan_name: &str,
    lib: &mut L,
) -> Result<Reply, Ending>
    requires { L.faults lib.old < 2 ^ 64 - 1 }
    ensures answer { IfSome (L.holds lib.old) (λ files. Gives (L.steady lib.old) reply_answer result (ExplainsPlan files domain_name.now problem_name.now plan_name.now)) }
    ensures status { IfOk result (λ reply. (reply.status ≤ 1) ⊎ (reply.status ≡ 6)) }
    ensures failed { result ≡ Err Ending.Read → L.faults lib.old < L.faults lib.new }
    ensures kept { result ≢ Err Ending.Read → L.faults lib.new ≡ L.faults lib.old }
    ensures end { OnOk result (IsSome (L.holds lib.old) → L.left lib.new ≡ Some []) }
{
    let accepted = match accepted_in(alloc, lib, domain_name, problem_name) {
        Ok(accepted) => accepted,
        Err(ending) => return Err(ending),
    };
    let names = KeptNames::new(&accepted.domain, &accepted.problem, &accepted.kept);
    let plan = match plan_in(alloc, lib, &accepted.kept.task, &names, plan_name) {
        Ok(plan) => plan,
        Err(ending) => return Err(ending),
    };
    explain_read(alloc, &accepted.kept.task, &plan)
}

/// Writes each fault of the plan in one file over the domain and the problem in two others, and answers the exit status.
pub fn explain_plan<L: Library, K: Sink>(
    alloc: Global,
    domain_name: &str,
    problem_name: &str,
    plan_name: &str,
    lib: &mut L,
    out: &mut K,
) -> u8
    requires lib { L.faults lib.old < 2 ^ 64 - 1 }
    requires out { K.faults out.old < 2 ^ 64 - 1 }
    ensures performs { Performs (AnswersOver (L.holds lib.old) (λ files. ExplainsPlan files domain_name.now problem_name.now plan_name.now)) (call (L.steady lib.old) (L.faults lib.old) (L.faults lib.new) (output (K.faults out.old) (K.written out.old)) (output (K.faults out.new) (K.written out.new)) result) }
    ensures keeps { IfSome (L.holds lib.old) (λ files. ExplainsProblem files domain_name.now problem_name.now plan_name.now (call (L.steady lib.old) (L.faults lib.old) (L.faults lib.new) (output (K.faults out.old) (K.written out.old)) (output (K.faults out.new) (K.written out.new)) result)) }
    ensures end { result ≡ 0 → IsSome (L.holds lib.old) → L.left lib.new ≡ Some [] }
{
    let reply = explain_in(alloc, domain_name, problem_name, plan_name, lib);
    tell(alloc, out, reply)
}
