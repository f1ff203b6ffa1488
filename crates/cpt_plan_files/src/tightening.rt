//! The command `tighten`.

ghost use Rattle.std.specs.Prelude.{◌≡◌, ◌≢◌, ◌-◌, ◌^◌, ◌<◌, ◌≤◌, [], Bool, length, Some, IfOk, IfSome, IsSome, OnOk};
ghost use Rattle.cpt_task.specs.Judgeable.{IsJudgeable};
ghost use Rattle.cpt_answer.specs.Giving.{Gives};
ghost use Rattle.cpt_answer.specs.Endings.{reply_answer};
ghost use Rattle.cpt_answer.specs.Promise.{AnswersOver, Performs, call};
ghost use Rattle.cpt_answer.specs.Writing.{output};
ghost use Rattle.cpt_plan_files.specs.Commands.{TightensProblem};
ghost use Rattle.cpt_plan_files.specs.Tightening.{AnswersTightly, TightensPlan};

use crate::text::tight_text;
use cpt_answer::{Ending, Reply, tell};
use cpt_files::{KeptNames, accepted_in, plan_in};
use cpt_io::{Library, Sink};
use cpt_task::{Task, Verdict, judge};
use cpt_text::PlanText;
use cpt_validate::verdict_reply;
use std::alloc::Global;

/// The plan at its earliest, or the verdict on it where it is not valid.
fn tighten_valid(alloc: Global, task: &Task, plan: &PlanText) -> Result<Reply, Ending>
    requires plan { IsJudgeable task.now plan.now.occs }
    requires short { length plan.now.occs < 2 ^ 32 }
    ensures answer { (steady : Bool) → Gives steady reply_answer result (AnswersTightly task.now plan.now) }
    ensures status { IfOk result (λ reply. reply.status ≤ 1) }
    ensures kept { result ≢ Err Ending.Read }
{
    let verdict = match judge(alloc, task, plan.occs.as_slice()) {
        Ok(verdict) => verdict,
        Err(_) => return Err(Ending::Memory),
    };
    if let Verdict::Valid(_) = verdict {
        return match tight_text(alloc, task, plan.occs.as_slice()) {
            Ok(text) => Ok(Reply { status: 0, text }),
            Err(_) => Err(Ending::Memory),
        };
    }
    match verdict_reply(alloc, task, plan, verdict) {
        Ok(reply) => Ok(reply),
        Err(_) => Err(Ending::Memory),
    }
}

/// What tightening the plan in one file over the domain and the problem in two others comes to.
fn tighten_in<L: Library>(
    alloc: Global,
    domain_name: &str,
    problem_name: &str,
    plan_name: &str,
    lib: &mut L,
) -> Result<Reply, Ending>
    requires { L.faults lib.old < 2 ^ 64 - 1 }
    ensures answer { IfSome (L.holds lib.old) (λ files. Gives (L.steady lib.old) reply_answer result (TightensPlan files domain_name.now problem_name.now plan_name.now)) }
    ensures status { IfOk result (λ reply. reply.status ≤ 1) }
    ensures failed { result ≡ Err Ending.Read → L.faults lib.old < L.faults lib.new }
    ensures kept { result ≢ Err Ending.Read → L.faults lib.new ≡ L.faults lib.old }
    ensures end { OnOk result (IsSome (L.holds lib.old) → L.left lib.new ≡ Some []) }
{
    let accepted = match accepted_in(alloc, lib, domain_name, problem_name) {
        Ok(accepted) => accepted,
        Err(ending) => return Err(ending),
    };
    let names = KeptNames::new(&accepted.domain, &accepted.problem, &accepted.kept);
    let plan = match plan_in(alloc, lib, &accepted.kept.task, &names, plan_name) {
        Ok(plan) => plan,
        Err(ending) => return Err(ending),
    };
    tighten_valid(alloc, &accepted.kept.task, &plan)
}

/// Writes the plan in one file over the domain and the problem in two others at its earliest, or the verdict on it where it is not valid,
/// and answers the exit status.
pub fn tighten_plan<L: Library, K: Sink>(
    alloc: Global,
    domain_name: &str,
    problem_name: &str,
    plan_name: &str,
    lib: &mut L,
    out: &mut K,
) -> u8
    requires lib { L.faults lib.old < 2 ^ 64 - 1 }
    requires out { K.faults out.old < 2 ^ 64 - 1 }
    ensures performs { Performs (AnswersOver (L.holds lib.old) (λ files. TightensPlan files domain_name.now problem_name.now plan_name.now)) (call (L.steady lib.old) (L.faults lib.old) (L.faults lib.new) (output (K.faults out.old) (K.written out.old)) (output (K.faults out.new) (K.written out.new)) result) }
    ensures keeps { IfSome (L.holds lib.old) (λ files. TightensProblem files domain_name.now problem_name.now plan_name.now (call (L.steady lib.old) (L.faults lib.old) (L.faults lib.new) (output (K.faults out.old) (K.written out.old)) (output (K.faults out.new) (K.written out.new)) result)) }
    ensures end { result ≡ 0 → IsSome (L.holds lib.old) → L.left lib.new ≡ Some [] }
{
    let reply = tighten_in(alloc, domain_name, problem_name, plan_name, lib);
    tell(alloc, out, reply)
}
