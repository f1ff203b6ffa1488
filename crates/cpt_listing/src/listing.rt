//! The command `ground`.

ghost use Rattle.std.specs.Prelude.{◌≡◌, ◌≢◌, ◌-◌, ◌^◌, ◌<◌, ◌≤◌, [], Some, IfOk, IfSome, IsSome, OnOk};
ghost use Rattle.cpt_answer.specs.Endings.{reply_answer};
ghost use Rattle.cpt_answer.specs.Giving.{Gives};
ghost use Rattle.cpt_answer.specs.Promise.{AnswersOver, Performs, call};
ghost use Rattle.cpt_answer.specs.Writing.{output};
ghost use Rattle.cpt_listing.specs.Listing.{ListsProblem, ListsTask};

use cpt_answer::{Ending, Reply, tell};
use cpt_files::accepted_in;
use cpt_io::{Library, Sink};
use cpt_text::task_text;
use std::alloc::Global;

/// What listing the kept task of the domain and the problem in two files comes to.
fn list_task<L: Library>(
    alloc: Global,
    domain_name: &str,
    problem_name: &str,
    lib: &mut L,
) -> Result<Reply, Ending>
    requires { L.faults lib.old < 2 ^ 64 - 1 }
    ensures answer { IfSome (L.holds lib.old) (λ files. Gives (L.steady lib.old) reply_answer result (ListsTask files domain_name.now problem_name.now)) }
    ensures status { IfOk result (λ reply. reply.status ≤ 1) }
    ensures failed { result ≡ Err Ending.Read → L.faults lib.old < L.faults lib.new }
    ensures kept { result ≢ Err Ending.Read → L.faults lib.new ≡ L.faults lib.old }
    ensures end { OnOk result (IsSome (L.holds lib.old) → L.left lib.new ≡ Some []) }
{
    let accepted = match accepted_in(alloc, lib, domain_name, problem_name) {
        Ok(accepted) => accepted,
        Err(ending) => return Err(ending),
    };
    match task_text(alloc, &accepted.kept.task) {
        Ok(text) => Ok(Reply { status: 0, text }),
        Err(_) => Err(Ending::Memory),
    }
}

/// Writes the kept task of the domain and the problem in two files, and answers the exit status.
pub fn ground<L: Library, K: Sink>(
    alloc: Global,
    domain_name: &str,
    problem_name: &str,
    lib: &mut L,
    out: &mut K,
) -> u8
    requires lib { L.faults lib.old < 2 ^ 64 - 1 }
    requires out { K.faults out.old < 2 ^ 64 - 1 }
    ensures performs { Performs (AnswersOver (L.holds lib.old) (λ files. ListsTask files domain_name.now problem_name.now)) (call (L.steady lib.old) (L.faults lib.old) (L.faults lib.new) (output (K.faults out.old) (K.written out.old)) (output (K.faults out.new) (K.written out.new)) result) }
    ensures keeps { IfSome (L.holds lib.old) (λ files. ListsProblem files domain_name.now problem_name.now (call (L.steady lib.old) (L.faults lib.old) (L.faults lib.new) (output (K.faults out.old) (K.written out.old)) (output (K.faults out.new) (K.written out.new)) result)) }
    ensures end { result ≡ 0 → IsSome (L.holds lib.old) → L.left lib.new ≡ Some [] }
{
    let reply = list_task(alloc, domain_name, problem_name, lib);
    tell(alloc, out, reply)
}
