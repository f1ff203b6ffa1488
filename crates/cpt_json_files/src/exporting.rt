//! The command `export`.

ghost use Rattle.std.specs.Prelude.{◌≡◌, ◌≢◌, ◌-◌, ◌^◌, ◌<◌, ◌≤◌, [], Some, IfOk, IfSome, IsSome, OnOk};
ghost use Rattle.cpt_task_text.specs.Plain.{IsPlain};
ghost use Rattle.cpt_answer.specs.Endings.{reply_answer};
ghost use Rattle.cpt_answer.specs.Giving.{Gives};
ghost use Rattle.cpt_answer.specs.Promise.{AnswersOver, Performs, call};
ghost use Rattle.cpt_answer.specs.Writing.{output};
ghost use Rattle.cpt_json_form.specs.Values.{task_value};
ghost use Rattle.cpt_json_files.specs.Exporting.{ExportsProblem, ExportsTask};
ghost use Rattle.cpt_json_files.specs.Faults.{json_line};

use crate::replies::as_line;
use cpt_answer::{Ending, Reply, tell};
use cpt_files::accepted_in;
use cpt_io::{Library, Sink};
use cpt_json::any_task_json;
use cpt_task::{Memory, Task};
use std::alloc::Global;

fn task_line(alloc: Global, task: &Task) -> Result<Vec<u8>, Memory>
    ensures { IfOk result (λ line. IsPlain task.now → line.items ≡ json_line (task_value task.now)) }
{
    as_line(any_task_json(alloc, task)?)
}

/// What exporting the kept task of the domain and the problem in two files comes to.
fn export_task<L: Library>(
    alloc: Global,
    domain_name: &str,
    problem_name: &str,
    lib: &mut L,
) -> Result<Reply, Ending>
    requires { L.faults lib.old < 2 ^ 64 - 1 }
    ensures answer { IfSome (L.holds lib.old) (λ files. Gives (L.steady lib.old) reply_answer result (ExportsTask files domain_name.now problem_name.now)) }
    ensures status { IfOk result (λ reply. reply.status ≤ 4) }
    ensures failed { result ≡ Err Ending.Read → L.faults lib.old < L.faults lib.new }
    ensures kept { result ≢ Err Ending.Read → L.faults lib.new ≡ L.faults lib.old }
    ensures end { OnOk result (IsSome (L.holds lib.old) → L.left lib.new ≡ Some []) }
{
    let accepted = match accepted_in(alloc, lib, domain_name, problem_name) {
        Ok(accepted) => accepted,
        Err(ending) => return Err(ending),
    };
    match task_line(alloc, &accepted.kept.task) {
        Ok(text) => Ok(Reply { status: 0, text }),
        Err(_) => Err(Ending::Memory),
    }
}

/// Writes the JSON text of the kept task of the domain and the problem in two files, and answers the exit status.
pub fn export<L: Library, K: Sink>(
    alloc: Global,
    domain_name: &str,
    problem_name: &str,
    lib: &mut L,
    out: &mut K,
) -> u8
    requires lib { L.faults lib.old < 2 ^ 64 - 1 }
    requires out { K.faults out.old < 2 ^ 64 - 1 }
    ensures performs { Performs (AnswersOver (L.holds lib.old) (λ files. ExportsTask files domain_name.now problem_name.now)) (call (L.steady lib.old) (L.faults lib.old) (L.faults lib.new) (output (K.faults out.old) (K.written out.old)) (output (K.faults out.new) (K.written out.new)) result) }
    ensures keeps { IfSome (L.holds lib.old) (λ files. ExportsProblem files domain_name.now problem_name.now (call (L.steady lib.old) (L.faults lib.old) (L.faults lib.new) (output (K.faults out.old) (K.written out.old)) (output (K.faults out.new) (K.written out.new)) result)) }
    ensures end { result ≡ 0 → IsSome (L.holds lib.old) → L.left lib.new ≡ Some [] }
{
    let reply = export_task(alloc, domain_name, problem_name, lib);
    tell(alloc, out, reply)
}
