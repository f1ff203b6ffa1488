//! The command `explain-cert`.

ghost use Rattle.std.specs.Prelude.{◌≡◌, ◌≢◌, ◌-◌, ◌^◌, ◌<◌, ◌≤◌, [], Bool, Some, length, IfOk, IfSome, IsSome, OnOk};
ghost use Rattle.cpt_files.specs.Accepted.{IsSmall};
ghost use Rattle.cpt_answer.specs.Endings.{reply_answer};
ghost use Rattle.cpt_answer.specs.Giving.{Gives};
ghost use Rattle.cpt_answer.specs.Promise.{AnswersOver, Performs, call};
ghost use Rattle.cpt_answer.specs.Writing.{output};
ghost use Rattle.cpt_explain_cert_files.specs.Commands.{CountsProblem};
ghost use Rattle.cpt_explain_cert_files.specs.Counted.{CountsFiles, CountsText};

use crate::counted::counted_reply;
use cpt_answer::{Ending, Reply, tell};
use cpt_cert_file::certificate_in;
use cpt_check_text::check_text;
use cpt_counts::counts;
use cpt_files::accepted_in;
use cpt_io::{Library, Sink};
use cpt_task::Task;
use std::alloc::Global;

/// What is answered to the text over the task: its ruling, and the numbers of its lines where it is a certificate.
#[tactic(auto, using(crate::proofs::Counts::few_at))]
fn count_reply(alloc: Global, task: &Task, text: &[u8]) -> Result<Reply, Ending>
    requires small { IsSmall task.now }
    requires short { length text.now ≤ 16777216 }
    ensures answer { (steady : Bool) → Gives steady reply_answer result (CountsText task.now text.now) }
    ensures status { IfOk result (λ reply. reply.status ≤ 1) }
    ensures kept { result ≢ Err Ending.Read }
{
    let judged = match check_text(alloc, task, text) {
        Ok(judged) => judged,
        Err(_) => return Err(Ending::Memory),
    };
    let counts = counts(text);
    match counted_reply(alloc, judged, &counts) {
        Ok(reply) => Ok(reply),
        Err(_) => Err(Ending::Memory),
    }
}

/// What checking the certificate in one file over the domain and the problem in two others and counting its lines comes to.
fn count_files<L: Library>(
    alloc: Global,
    domain_name: &str,
    problem_name: &str,
    cert_name: &str,
    lib: &mut L,
) -> Result<Reply, Ending>
    requires { L.faults lib.old < 2 ^ 64 - 1 }
    ensures answer { IfSome (L.holds lib.old) (λ files. Gives (L.steady lib.old) reply_answer result (CountsFiles files domain_name.now problem_name.now cert_name.now)) }
    ensures status { IfOk result (λ reply. reply.status ≤ 1) }
    ensures failed { result ≡ Err Ending.Read → L.faults lib.old < L.faults lib.new }
    ensures kept { result ≢ Err Ending.Read → L.faults lib.new ≡ L.faults lib.old }
    ensures end { OnOk result (IsSome (L.holds lib.old) → L.left lib.new ≡ Some []) }
{
    let accepted = match accepted_in(alloc, lib, domain_name, problem_name) {
        Ok(accepted) => accepted,
        Err(ending) => return Err(ending),
    };
    let text = match certificate_in(alloc, lib, cert_name) {
        Ok(text) => text,
        Err(ending) => return Err(ending),
    };
    count_reply(alloc, &accepted.kept.task, &text)
}

/// Checks the certificate in one file over the domain and the problem in two others, writes the ruling and the numbers of its
/// lines, and answers the exit status.
pub fn explain_cert<L: Library, K: Sink>(
    alloc: Global,
    domain_name: &str,
    problem_name: &str,
    cert_name: &str,
    lib: &mut L,
    out: &mut K,
) -> u8
    requires lib { L.faults lib.old < 2 ^ 64 - 1 }
    requires out { K.faults out.old < 2 ^ 64 - 1 }
    ensures performs { Performs (AnswersOver (L.holds lib.old) (λ files. CountsFiles files domain_name.now problem_name.now cert_name.now)) (call (L.steady lib.old) (L.faults lib.old) (L.faults lib.new) (output (K.faults out.old) (K.written out.old)) (output (K.faults out.new) (K.written out.new)) result) }
    ensures keeps { IfSome (L.holds lib.old) (λ files. CountsProblem files domain_name.now problem_name.now cert_name.now (call (L.steady lib.old) (L.faults lib.old) (L.faults lib.new) (output (K.faults out.old) (K.written out.old)) (output (K.faults out.new) (K.written out.new)) result)) }
    ensures end { result ≡ 0 → IsSome (L.holds lib.old) → L.left lib.new ≡ Some [] }
{
    let reply = count_files(alloc, domain_name, problem_name, cert_name, lib);
    tell(alloc, out, reply)
}
