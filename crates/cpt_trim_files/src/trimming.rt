//! The command `trim`.

ghost use Rattle.std.specs.Prelude.{◌≡◌, ◌≢◌, ◌-◌, ◌^◌, ◌<◌, ◌≤◌, [], Bool, Some, length, IfOk, IfSome, IsSome, OnOk};
ghost use Rattle.cpt_files.specs.Accepted.{IsSmall};
ghost use Rattle.cpt_answer.specs.Endings.{reply_answer};
ghost use Rattle.cpt_answer.specs.Giving.{Gives};
ghost use Rattle.cpt_answer.specs.Promise.{AnswersOver, Performs, call};
ghost use Rattle.cpt_answer.specs.Writing.{output};
ghost use Rattle.cpt_trim_files.specs.Commands.{TrimsProblem};
ghost use Rattle.cpt_trim_files.specs.Trims.{TrimsFiles, TrimsText};

use cpt_answer::{Ending, Reply, tell};
use cpt_cert_file::certificate_in;
use cpt_check::{Judged, Ruling};
use cpt_check_files::ruling_reply;
use cpt_files::accepted_in;
use cpt_io::{Library, Sink};
use cpt_task::Task;
use cpt_trim::{TrimError, trim_text};
use std::alloc::Global;

/// What trimming the text over the task answers: the text without needless step lines, or the lines of `check`.
fn trim_reply(alloc: Global, task: &Task, text: &[u8]) -> Result<Reply, Ending>
    requires small { IsSmall task.now }
    requires short { length text.now ≤ 16777216 }
    ensures answer { (steady : Bool) → Gives steady reply_answer result (TrimsText task.now text.now) }
    ensures status { IfOk result (λ reply. reply.status ≤ 1) }
    ensures kept { result ≢ Err Ending.Read }
{
    match trim_text(alloc, task, text) {
        Ok((_, left)) => Ok(Reply {
            status: 0,
            text: left,
        }),
        Err(TrimError::Rejected { version, line, why }) => {
            let judged = Judged {
                version,
                ruling: Ruling::Rejected { line, why },
            };
            match ruling_reply(alloc, judged) {
                Ok(reply) => Ok(reply),
                Err(_) => Err(Ending::Memory),
            }
        }
        Err(TrimError::Memory) => Err(Ending::Memory),
    }
}

/// What trimming the certificate in one file over the domain and the problem in two others comes to.
fn trim_files<L: Library>(
    alloc: Global,
    domain_name: &str,
    problem_name: &str,
    cert_name: &str,
    lib: &mut L,
) -> Result<Reply, Ending>
    requires { L.faults lib.old < 2 ^ 64 - 1 }
    ensures answer { IfSome (L.holds lib.old) (λ files. Gives (L.steady lib.old) reply_answer result (TrimsFiles files domain_name.now problem_name.now cert_name.now)) }
    ensures status { IfOk result (λ reply. reply.status ≤ 1) }
    ensures failed { result ≡ Err Ending.Read → L.faults lib.old < L.faults lib.new }
    ensures kept { result ≢ Err Ending.Read → L.faults lib.new ≡ L.faults lib.old }
    ensures end { OnOk result (IsSome (L.holds lib.old) → L.left lib.new ≡ Some []) }
{
    let accepted = match accepted_in(alloc, lib, domain_name, problem_name) {
        Ok(accepted) => accepted,
        Err(ending) => return Err(ending),
    };
    let text = match certificate_in(alloc, lib, cert_name) {
        Ok(text) => text,
        Err(ending) => return Err(ending),
    };
    trim_reply(alloc, &accepted.kept.task, &text)
}

/// Trims the certificate in one file over the domain and the problem in two others, writes what is left of it or the
/// ruling, and answers the exit status.
pub fn trim_certificate<L: Library, K: Sink>(
    alloc: Global,
    domain_name: &str,
    problem_name: &str,
    cert_name: &str,
    lib: &mut L,
    out: &mut K,
) -> u8
    requires lib { L.faults lib.old < 2 ^ 64 - 1 }
    requires out { K.faults out.old < 2 ^ 64 - 1 }
    ensures performs { Performs (AnswersOver (L.holds lib.old) (λ files. TrimsFiles files domain_name.now problem_name.now cert_name.now)) (call (L.steady lib.old) (L.faults lib.old) (L.faults lib.new) (output (K.faults out.old) (K.written out.old)) (output (K.faults out.new) (K.written out.new)) result) }
    ensures keeps { IfSome (L.holds lib.old) (λ files. TrimsProblem files domain_name.now problem_name.now cert_name.now (call (L.steady lib.old) (L.faults lib.old) (L.faults lib.new) (output (K.faults out.old) (K.written out.old)) (output (K.faults out.new) (K.written out.new)) result)) }
    ensures end { result ≡ 0 → IsSome (L.holds lib.old) → L.left lib.new ≡ Some [] }
{
    let reply = trim_files(alloc, domain_name, problem_name, cert_name, lib);
    tell(alloc, out, reply)
}
