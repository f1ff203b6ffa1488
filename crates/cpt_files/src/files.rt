//! Texts, tasks and plans in files.

ghost use Rattle.std.specs.Prelude.{◌≡◌, ◌≢◌, ◌-◌, ◌^◌, ◌<◌, ◌≤◌, length, IsErrOf, IsTrue, IfOk, IfSome, [], Some, IsSome, OnOk};
ghost use Rattle.cpt_plan_text.specs.Knowing.{KnowsActions};
ghost use Rattle.cpt_task.specs.Judgeable.{IsJudgeable};
ghost use Rattle.cpt_answer.specs.Giving.{Gives};
ghost use Rattle.cpt_files.specs.Files.{read_ending, task_ending, plan_ending, text_under, task_under, plan_by};

use cpt_answer::{Cause, Ending};
use cpt_io::{Library, ReadError, read_all};
use cpt_task::{FILE_LIMIT, Limit, Task};
use cpt_text::{PlanText, PlanTextError, Roster, TaskTextError, read_plan, read_task};
use std::alloc::Global;

/// The text of the file under the name.
pub fn text_in<L: Library>(alloc: Global, lib: &mut L, name: &str) -> Result<Vec<u8>, Ending>
    requires { L.faults lib.old < 2 ^ 64 - 1 }
    ensures same { L.holds lib.new ≡ L.holds lib.old }
    ensures answer { IfSome (L.holds lib.old) (λ files. Gives (L.steady lib.old) (λ text. text.items) result (λ read. text_under files name.now ≡ read)) }
    ensures short { IfOk result (λ text. length text.items ≤ 16777216) }
    ensures failed { result ≡ Err Ending.Read → L.faults lib.old < L.faults lib.new }
    ensures kept { result ≢ Err Ending.Read → L.faults lib.new ≡ L.faults lib.old }
    ensures steady { IsTrue (L.steady lib.old) → IsTrue (L.steady lib.new) }
    ensures end { OnOk result (IsSome (L.holds lib.old) → L.left lib.new ≡ Some []) }
{
    match read_all(alloc, lib, name, FILE_LIMIT) {
        Ok(text) => Ok(text),
        Err(e) => Err(from_reading(e)),
    }
}

fn from_reading(e: ReadError) -> Ending
    ensures value { result ≡ read_ending e }
{
    match e {
        ReadError::Failed => Ending::Read,
        ReadError::TooLong => Ending::Because(Cause::Passed(Limit::File)),
        ReadError::Memory => Ending::Memory,
    }
}

fn from_task_text(e: TaskTextError) -> Ending
    ensures value { result ≡ task_ending e }
{
    match e {
        TaskTextError::Line(line) => Ending::Because(Cause::TaskLine(line)),
        TaskTextError::Limit(limit) => Ending::Because(Cause::Passed(limit)),
        TaskTextError::Memory => Ending::Memory,
    }
}

fn from_plan_text(e: PlanTextError) -> Ending
    ensures value { result ≡ plan_ending e }
{
    match e {
        PlanTextError::Line(line) => Ending::Because(Cause::PlanLine(line)),
        PlanTextError::Unknown(line) => Ending::Because(Cause::PlanUnknown(line)),
        PlanTextError::Limit(limit) => Ending::Because(Cause::Passed(limit)),
        PlanTextError::Duration(line, dur) => Ending::Because(Cause::MustLast(line, dur)),
        PlanTextError::Unreachable(line) => Ending::Because(Cause::IsUnreachable(line)),
        PlanTextError::Memory => Ending::Memory,
    }
}

/// The task in the file under the name.
pub fn task_in<L: Library>(alloc: Global, lib: &mut L, name: &str) -> Result<Task, Ending>
    requires { L.faults lib.old < 2 ^ 64 - 1 }
    ensures same { L.holds lib.new ≡ L.holds lib.old }
    ensures answer { IfSome (L.holds lib.old) (λ files. Gives (L.steady lib.old) (λ task. task) result (λ read. task_under files name.now ≡ read)) }
    ensures failed { result ≡ Err Ending.Read → L.faults lib.old < L.faults lib.new }
    ensures kept { result ≢ Err Ending.Read → L.faults lib.new ≡ L.faults lib.old }
    ensures steady { IsTrue (L.steady lib.old) → IsTrue (L.steady lib.new) }
    ensures end { OnOk result (IsSome (L.holds lib.old) → L.left lib.new ≡ Some []) }
{
    let text = match text_in(alloc, lib, name) {
        Ok(text) => text,
        Err(ending) => return Err(ending),
    };
    match read_task(alloc, &text) {
        Ok(task) => Ok(task),
        Err(e) => Err(from_task_text(e)),
    }
}

/// The plan over the task in the file under the name, whose actions the roster knows.
pub fn plan_in<L: Library, R: Roster>(
    alloc: Global,
    lib: &mut L,
    task: &Task,
    roster: &R,
    name: &str,
) -> Result<PlanText, Ending>
    requires faults { L.faults lib.old < 2 ^ 64 - 1 }
    requires known { KnowsActions (R.finds roster.now) (length task.now.actions) }
    ensures same { L.holds lib.new ≡ L.holds lib.old }
    ensures answer { IfSome (L.holds lib.old) (λ files. Gives (L.steady lib.old) (λ plan. plan) result (λ read. plan_by files (R.finds roster.now) task.now name.now ≡ read)) }
    ensures plan { IfOk result (λ plan. IsJudgeable task.now plan.occs) }
    ensures short { IfOk result (λ plan. length plan.occs < 2 ^ 32) }
    ensures lines { IfOk result (λ plan. length plan.lines ≡ length plan.occs) }
    ensures failed { result ≡ Err Ending.Read → L.faults lib.old < L.faults lib.new }
    ensures kept { result ≢ Err Ending.Read → L.faults lib.new ≡ L.faults lib.old }
    ensures steady { IsTrue (L.steady lib.old) → IsTrue (L.steady lib.new) }
    ensures end { OnOk result (IsSome (L.holds lib.old) → L.left lib.new ≡ Some []) }
{
    let text = match text_in(alloc, lib, name) {
        Ok(text) => text,
        Err(ending) => return Err(ending),
    };
    match read_plan(alloc, task, roster, &text) {
        Ok(plan) => Ok(plan),
        Err(e) => Err(from_plan_text(e)),
    }
}
