//! The certificate of what a search found, put line by line.

ghost use Rattle.std.specs.Prelude.{◌≡◌, ◌-◌, ◌^◌, ◌<◌, List, ℕ, IsErrOf};
ghost use Rattle.cpt_cert_form.specs.declared.forms.Version.{Version};
ghost use Rattle.cpt_cert_form.specs.Text.{cert_text};
ghost use Rattle.cpt_cert_print.specs.Whole.{IsWhole, parts_of};
ghost use Rattle.cpt_search.specs.Answers.{outcome_of};
ghost use Rattle.cpt_certify.specs.Proving.{IsFound, IsProofOf, PutsProof};
ghost use Rattle.cpt_certify.specs.declared.proving.ProofError.{ProofError};

use crate::certify::cert_of;
use cpt_cert_print::{Cert, Version, cert_len, print_cert};
use cpt_io::{PrintError, Sink};
use cpt_search::Outcome;
use cpt_tables::Tables;
use cpt_task::{CERTIFICATE_LIMIT, Task};
use std::alloc::Global;

/// Why a certificate was not put whole.
#[derive(Clone, Copy, Debug, PartialEq, Eq)]
pub enum ProofError {
    /// It has more than 2^36 bytes, and nothing of it was put.
    TooLong,
    /// A call on the sink failed, and a front of it was put.
    Failed,
}

/// The certificate of what a search found.
#[tactic(auto, using(crate::proofs::Found::found_proof))]
fn found_cert<'a>(
    task: &Task,
    tables: &'a Tables,
    found: &'a Outcome,
    max: u64,
    nodes: u64,
) -> Cert<'a>
    requires { IsFound task.now tables.now max nodes found.now }
    ensures whole { IsWhole task.now result }
    ensures proof { (v : Version) → IsProofOf task.now tables.now max nodes (outcome_of found.now) v (cert_text v task.now (parts_of result)) }
{
    let _ = task;
    cert_of(tables, found, max, nodes)
}

fn put_cert<K: Sink>(
    alloc: Global,
    task: &Task,
    cert: &Cert,
    version: Version,
    out: &mut K,
) -> Result<(), ProofError>
    requires whole { IsWhole task.now cert.now }
    requires faults { K.faults out.old < 2 ^ 64 - 1 }
    ensures puts { PutsProof (cert_text version task.now (parts_of cert.now)) (K.written out.old) (K.written out.new) result }
    ensures cause { IsErrOf result ProofError.Failed → K.faults out.old < K.faults out.new }
    ensures kept { (IsErrOf result ProofError.Failed → ⊥) → K.faults out.new ≡ K.faults out.old }
{
    if cert_len(task, cert, version) > CERTIFICATE_LIMIT {
        return Err(ProofError::TooLong);
    }
    match print_cert(alloc, task, cert, version, out) {
        Ok(()) => Ok(()),
        Err(PrintError::Failed) => Err(ProofError::Failed),
        Err(PrintError::Memory) => unreachable!(),
    }
}

/// Puts the certificate of what a search found, in this version, each line in one call. How long it is is known before the
/// first line is put. It takes no memory.
///
/// `TooLong` comes exactly where it has more than 2^36 bytes; nothing was put then. After `Failed` a front of it was put, and
/// the sink's count of faults rose.
pub fn put_proof<K: Sink>(
    alloc: Global,
    task: &Task,
    tables: &Tables,
    found: &Outcome,
    max: u64,
    nodes: u64,
    version: Version,
    out: &mut K,
) -> Result<(), ProofError>
    requires found { IsFound task.now tables.now max nodes found.now }
    requires faults { K.faults out.old < 2 ^ 64 - 1 }
    ensures puts { (text : List ℕ) × IsProofOf task.now tables.now max nodes (outcome_of found.now) version text × PutsProof text (K.written out.old) (K.written out.new) result }
    ensures cause { IsErrOf result ProofError.Failed → K.faults out.old < K.faults out.new }
    ensures kept { (IsErrOf result ProofError.Failed → ⊥) → K.faults out.new ≡ K.faults out.old }
{
    let cert = found_cert(task, tables, found, max, nodes);
    put_cert(alloc, task, &cert, version, out)
}
