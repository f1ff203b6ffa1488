//! The command `check`.

ghost use Rattle.std.specs.Prelude.{◌≡◌, ◌≢◌, ◌-◌, ◌^◌, ◌<◌, ◌≤◌, ℕ, [], Bool, List, length, Some, IsSome, IfOk, IfSome, IsTrue};
ghost use Rattle.cpt_files.specs.Accepted.{IsSmall};
ghost use Rattle.cpt_answer.specs.Giving.{Gives};
ghost use Rattle.cpt_answer.specs.Promise.{AnswersOver, Performs, call};
ghost use Rattle.cpt_answer.specs.Writing.{output};
ghost use Rattle.cpt_check_files.specs.Commands.{ChecksProblem};
ghost use Rattle.cpt_check_files.specs.Rulings.{AnswersRuling, ChecksFiles, RulesFile, RulesText, check_ending, ruling_status};
ghost use Rattle.cpt_answer.specs.Endings.{reply_answer};

use crate::rulings::ruling_reply;
use cpt_answer::{Cause, Ending, Reply, tell};
use cpt_check::{CheckError, Judged, check};
use cpt_files::accepted_in;
use cpt_io::{Library, Sink};
use cpt_task::{CERTIFICATE_LIMIT, Limit, Task};
use std::alloc::Global;

fn from_check(e: CheckError) -> Ending
    ensures { result ≡ check_ending e }
{
    match e {
        CheckError::Failed => Ending::Read,
        CheckError::TooLong => Ending::Because(Cause::Passed(Limit::Certificate)),
        CheckError::Memory => Ending::Memory,
    }
}

/// What checking the text of the opened file over the task comes to.
fn opened_ruling<L: Library>(alloc: Global, task: &Task, lib: &mut L) -> Result<Judged, Ending>
    requires small { IsSmall task.now }
    requires faults { L.faults lib.old < 2 ^ 64 - 1 }
    ensures answer { (text : List ℕ) → L.left lib.old ≡ Some text → Gives (L.steady lib.old) (λ judged. judged) result (RulesText task.now text) }
    ensures failed { result ≡ Err Ending.Read → L.faults lib.old < L.faults lib.new }
    ensures kept { result ≢ Err Ending.Read → L.faults lib.new ≡ L.faults lib.old }
    ensures end { IfOk result (λ judged. ruling_status judged.ruling ≡ 0 → (text : List ℕ) → L.left lib.old ≡ Some text → L.left lib.new ≡ Some []) }
{
    match check(alloc, task, lib, CERTIFICATE_LIMIT) {
        Ok(judged) => Ok(judged),
        Err(e) => Err(from_check(e)),
    }
}

/// What checking the text of the file under the name over the task comes to.
fn ruling_in<L: Library>(
    alloc: Global,
    lib: &mut L,
    task: &Task,
    name: &str,
) -> Result<Judged, Ending>
    requires small { IsSmall task.now }
    requires faults { L.faults lib.old < 2 ^ 64 - 1 }
    ensures answer { IfSome (L.holds lib.old) (λ files. Gives (L.steady lib.old) (λ judged. judged) result (RulesFile files task.now name.now)) }
    ensures failed { result ≡ Err Ending.Read → L.faults lib.old < L.faults lib.new }
    ensures kept { result ≢ Err Ending.Read → L.faults lib.new ≡ L.faults lib.old }
    ensures end { IfOk result (λ judged. ruling_status judged.ruling ≡ 0 → IsSome (L.holds lib.old) → L.left lib.new ≡ Some []) }
{
    match lib.open(name) {
        Ok(()) => opened_ruling(alloc, task, lib),
        Err(_) => Err(Ending::Read),
    }
}

/// What is answered at the ruling.
fn reply_at(alloc: Global, judged: Judged) -> Result<Reply, Ending>
    ensures answer { (steady : Bool) → Gives steady reply_answer result (AnswersRuling judged) }
    ensures status { IfOk result (λ reply. reply.status ≤ 1) }
    ensures kept { result ≢ Err Ending.Read }
{
    match ruling_reply(alloc, judged) {
        Ok(reply) => Ok(reply),
        Err(_) => Err(Ending::Memory),
    }
}

/// What checking the certificate in one file over the domain and the problem in two others comes to.
fn check_files<L: Library>(
    alloc: Global,
    domain_name: &str,
    problem_name: &str,
    cert_name: &str,
    lib: &mut L,
) -> Result<Reply, Ending>
    requires { L.faults lib.old < 2 ^ 64 - 1 }
    ensures answer { IfSome (L.holds lib.old) (λ files. Gives (L.steady lib.old) reply_answer result (ChecksFiles files domain_name.now problem_name.now cert_name.now)) }
    ensures status { IfOk result (λ reply. reply.status ≤ 1) }
    ensures failed { result ≡ Err Ending.Read → L.faults lib.old < L.faults lib.new }
    ensures kept { result ≢ Err Ending.Read → L.faults lib.new ≡ L.faults lib.old }
    ensures end { IfOk result (λ reply. reply.status ≡ 0 → IsSome (L.holds lib.old) → L.left lib.new ≡ Some []) }
{
    let accepted = match accepted_in(alloc, lib, domain_name, problem_name) {
        Ok(accepted) => accepted,
        Err(ending) => return Err(ending),
    };
    let judged = match ruling_in(alloc, lib, &accepted.kept.task, cert_name) {
        Ok(judged) => judged,
        Err(ending) => return Err(ending),
    };
    reply_at(alloc, judged)
}

/// Checks the certificate in one file over the domain and the problem in two others, writes the ruling, and answers the exit
/// status.
pub fn check_certificate<L: Library, K: Sink>(
    alloc: Global,
    domain_name: &str,
    problem_name: &str,
    cert_name: &str,
    lib: &mut L,
    out: &mut K,
) -> u8
    requires lib { L.faults lib.old < 2 ^ 64 - 1 }
    requires out { K.faults out.old < 2 ^ 64 - 1 }
    ensures performs { Performs (AnswersOver (L.holds lib.old) (λ files. ChecksFiles files domain_name.now problem_name.now cert_name.now)) (call (L.steady lib.old) (L.faults lib.old) (L.faults lib.new) (output (K.faults out.old) (K.written out.old)) (output (K.faults out.new) (K.written out.new)) result) }
    ensures keeps { IfSome (L.holds lib.old) (λ files. ChecksProblem files domain_name.now problem_name.now cert_name.now (call (L.steady lib.old) (L.faults lib.old) (L.faults lib.new) (output (K.faults out.old) (K.written out.old)) (output (K.faults out.new) (K.written out.new)) result)) }
    ensures end { result ≡ 0 → IsSome (L.holds lib.old) → L.left lib.new ≡ Some [] }
{
    let reply = check_files(alloc, domain_name, problem_name, cert_name, lib);
    tell(alloc, out, reply)
}
