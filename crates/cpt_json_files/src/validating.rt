//! The command `validate-json`.

ghost use Rattle.std.specs.Prelude.{◌≡◌, ◌≢◌, ◌-◌, ◌^◌, ◌<◌, ◌≤◌, [], Bool, length, IsTrue, Some, IfOk, IfSome, IsSome, OnOk};
ghost use Rattle.cpt_task.specs.Judgeable.{IsJudgeable};
ghost use Rattle.cpt_task_text.specs.Plain.{IsPlain};
ghost use Rattle.cpt_answer.specs.Endings.{reply_answer};
ghost use Rattle.cpt_answer.specs.Giving.{Gives};
ghost use Rattle.cpt_answer.specs.Promise.{AnswersOver, Performs, call};
ghost use Rattle.cpt_answer.specs.Writing.{output};
ghost use Rattle.cpt_files.specs.Files.{read_ending, text_under};
ghost use Rattle.cpt_json_files.specs.Validating.{AnswersReport, JudgesJson, JudgesOver, JudgesText, ValidatesJson};

use crate::replies::{plan_reply, report_reply, task_reply};
use cpt_answer::{Ending, Reply, tell};
use cpt_files::text_in;
use cpt_io::{Library, Sink};
use cpt_json::{read_plan_json, read_task_json};
use cpt_task::{Occ, Task, judge};
use std::alloc::Global;

/// The verdict on the plan.
fn judge_plan(alloc: Global, task: &Task, plan: &[Occ]) -> Result<Reply, Ending>
    requires plain { IsPlain task.now }
    requires plan { IsJudgeable task.now plan.now }
    requires short { length plan.now < 2 ^ 32 }
    ensures answer { (steady : Bool) → Gives steady reply_answer result (AnswersReport task.now plan.now) }
    ensures status { IfOk result (λ reply. reply.status ≤ 1) }
    ensures kept { result ≢ Err Ending.Read }
{
    let verdict = match judge(alloc, task, plan) {
        Ok(verdict) => verdict,
        Err(_) => return Err(Ending::Memory),
    };
    match report_reply(alloc, task, verdict) {
        Ok(reply) => Ok(reply),
        Err(_) => Err(Ending::Memory),
    }
}

/// What judging the plan that the text is comes to.
fn judge_text(alloc: Global, task: &Task, text: &[u8]) -> Result<Reply, Ending>
    requires plain { IsPlain task.now }
    requires short { length text.now ≤ 16777216 }
    ensures answer { (steady : Bool) → Gives steady reply_answer result (JudgesText task.now text.now) }
    ensures status { IfOk result (λ reply. reply.status ≤ 4) }
    ensures kept { result ≢ Err Ending.Read }
{
    let plan = match read_plan_json(alloc, task, text) {
        Ok(plan) => plan,
        Err(fault) => return plan_reply(alloc, fault),
    };
    judge_plan(alloc, task, plan.as_slice())
}

/// What judging the plan in a file over the task that the text is comes to.
fn judge_over<L: Library>(
    alloc: Global,
    text: &[u8],
    plan_name: &str,
    lib: &mut L,
) -> Result<Reply, Ending>
    requires { L.faults lib.old < 2 ^ 64 - 1 }
    ensures answer { IfSome (L.holds lib.old) (λ files. Gives (L.steady lib.old) reply_answer result (JudgesOver files plan_name.now text.now)) }
    ensures status { IfOk result (λ reply. reply.status ≤ 4) }
    ensures failed { result ≡ Err Ending.Read → L.faults lib.old < L.faults lib.new }
    ensures kept { result ≢ Err Ending.Read → L.faults lib.new ≡ L.faults lib.old }
    ensures end { OnOk result (IsSome (L.holds lib.old) → L.left lib.old ≡ Some [] → L.left lib.new ≡ Some []) }
{
    let task = match read_task_json(alloc, text) {
        Ok(task) => task,
        Err(fault) => return task_reply(alloc, fault),
    };
    let plan = match text_in(alloc, lib, plan_name) {
        Ok(plan) => plan,
        Err(ending) => return Err(ending),
    };
    judge_text(alloc, &task, &plan)
}

/// What judging the plan in one file over the task in another comes to.
fn judge_files<L: Library>(
    alloc: Global,
    task_name: &str,
    plan_name: &str,
    lib: &mut L,
) -> Result<Reply, Ending>
    requires { L.faults lib.old < 2 ^ 64 - 1 }
    ensures answer { IfSome (L.holds lib.old) (λ files. Gives (L.steady lib.old) reply_answer result (JudgesJson files task_name.now plan_name.now)) }
    ensures status { IfOk result (λ reply. reply.status ≤ 4) }
    ensures failed { result ≡ Err Ending.Read → L.faults lib.old < L.faults lib.new }
    ensures kept { result ≢ Err Ending.Read → L.faults lib.new ≡ L.faults lib.old }
    ensures end { OnOk result (IsSome (L.holds lib.old) → L.left lib.new ≡ Some []) }
{
    let text = match text_in(alloc, lib, task_name) {
        Ok(text) => text,
        Err(ending) => return Err(ending),
    };
    judge_over(alloc, &text, plan_name, lib)
}

/// Judges the plan in one file over the task in another, both in their JSON forms, writes the report, and answers the exit status.
pub fn validate_json<L: Library, K: Sink>(
    alloc: Global,
    task_name: &str,
    plan_name: &str,
    lib: &mut L,
    out: &mut K,
) -> u8
    requires lib { L.faults lib.old < 2 ^ 64 - 1 }
    requires out { K.faults out.old < 2 ^ 64 - 1 }
    ensures performs { Performs (AnswersOver (L.holds lib.old) (λ files. JudgesJson files task_name.now plan_name.now)) (call (L.steady lib.old) (L.faults lib.old) (L.faults lib.new) (output (K.faults out.old) (K.written out.old)) (output (K.faults out.new) (K.written out.new)) result) }
    ensures keeps { IfSome (L.holds lib.old) (λ files. ValidatesJson files task_name.now plan_name.now (call (L.steady lib.old) (L.faults lib.old) (L.faults lib.new) (output (K.faults out.old) (K.written out.old)) (output (K.faults out.new) (K.written out.new)) result)) }
    ensures end { result ≡ 0 → IsSome (L.holds lib.old) → L.left lib.new ≡ Some [] }
{
    let reply = judge_files(alloc, task_name, plan_name, lib);
    tell(alloc, out, reply)
}
