//! The certificate of what a search found, put into memory and judged there.

ghost use Rattle.std.specs.Prelude.{◌≡◌, ◌≢◌, ◌≤◌, Bool, length, IfOk, IsOkUnless};
ghost use Rattle.cpt_files.specs.Accepted.{IsSmall};
ghost use Rattle.cpt_answer.specs.Giving.{Gives};
ghost use Rattle.cpt_cert_form.specs.declared.forms.Version.{Version};
ghost use Rattle.cpt_cert_form.specs.Text.{cert_text};
ghost use Rattle.cpt_cert_print.specs.Whole.{IsWhole, parts_of};
ghost use Rattle.cpt_certify.specs.Proving.{IsFound, IsProofOf};
ghost use Rattle.cpt_evidence.specs.Evidence.{claim_of};
ghost use Rattle.cpt_check.specs.Judging.{RulesOf};
ghost use Rattle.cpt_check_files.specs.Rulings.{cert_limit};
ghost use Rattle.cpt_search.specs.Answers.{outcome_of};
ghost use Rattle.cpt_bench.specs.Judging.{JudgesProof};

use cpt_answer::{Cause, Ending};
use cpt_cert_print::{Cert, Version, cert_len, print_cert};
use cpt_certify::cert_of;
use cpt_check::{Judged, Ruling};
use cpt_check_text::check_text;
use cpt_io::MemSink;
use cpt_options::Budget;
use cpt_search::Outcome;
use cpt_tables::Tables;
use cpt_task::{CERTIFICATE_LIMIT, Limit, Task};
use std::alloc::Global;

/// The certificate of what the search found.
fn found_cert<'a>(task: &Task, tables: &'a Tables, budget: Budget, found: &'a Outcome) -> Cert<'a>
    requires { IsFound task.now tables.now budget.max budget.nodes found.now }
    ensures whole { IsWhole task.now result }
    ensures proof { IsProofOf task.now tables.now budget.max budget.nodes (outcome_of found.now) Version.Two (cert_text Version.Two task.now (parts_of result)) }
{
    let _ = task;
    cert_of(tables, found, budget.max, budget.nodes)
}

/// What the checker says of the text.
fn judged_text(alloc: Global, task: &Task, text: &[u8]) -> Result<Judged, Ending>
    requires small { IsSmall task.now }
    requires size { length text.now ≤ cert_limit }
    ensures rules { IfOk result (λ j. RulesOf task.now cert_limit text.now j.version j.ruling) }
    ensures memory { IsOkUnless result Ending.Memory }
{
    match check_text(alloc, task, text) {
        Ok(judged) => Ok(judged),
        Err(_) => Err(Ending::Memory),
    }
}

/// What the checker says of the certificate of what the search found, of the second version.
pub(crate) fn judged_proof(
    alloc: Global,
    task: &Task,
    tables: &Tables,
    budget: Budget,
    found: &Outcome,
) -> Result<Judged, Ending>
    requires small { IsSmall task.now }
    requires found { IsFound task.now tables.now budget.max budget.nodes found.now }
    ensures answer { (steady : Bool) → Gives steady (λ j. j) result (JudgesProof task.now tables.now budget (outcome_of found.now)) }
    ensures kept { result ≢ Err Ending.Read }
{
    let cert = found_cert(task, tables, budget, found);
    let size = cert_len(task, &cert, Version::Two);
    if size > CERTIFICATE_LIMIT {
        return Err(Ending::Because(Cause::Passed(Limit::Certificate)));
    }
    let mut text = match MemSink::new(alloc, size as usize, Vec::new(alloc)) {
        Ok(text) => text,
        Err(_) => return Err(Ending::Memory),
    };
    match print_cert(alloc, task, &cert, Version::Two, &mut text) {
        Ok(()) => judged_text(alloc, task, text.written()),
        Err(_) => Err(Ending::Memory),
    }
}
