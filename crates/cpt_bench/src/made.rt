//! The made problem, and the kept part of its ground task.

ghost use Rattle.std.specs.Prelude.{◌≡◌, ◌≢◌, ◌≤◌, Bool, IfOk};
ghost use Rattle.cpt_io.specs.InMemory.{mem_faults, mem_holds};
ghost use Rattle.cpt_answer.specs.Giving.{Gives};
ghost use Rattle.cpt_files.specs.Accepted.{AcceptsTask, IsSmall};
ghost use Rattle.cpt_bench.specs.Made.{HoldsMade, domain_name, made_ending, made_files, problem_name};

use cpt_answer::Ending;
use cpt_files::{Accepted, accepted_in};
use cpt_gen::make;
use cpt_io::MemLibrary;
use cpt_task::{List, Memory};
use std::alloc::Global;

/// A library in memory that holds the two texts of the made problem with `n` packages.
fn made_library(alloc: Global, n: u32) -> Result<MemLibrary, Memory>
    requires least { 1 ≤ n }
    requires most { n ≤ 40 }
    ensures holds { IfOk result (λ lib. HoldsMade n (mem_holds lib)) }
    ensures faults { IfOk result (λ lib. mem_faults lib ≡ 0) }
{
    let made = make(alloc, n)?;
    let domain_name = Vec::from_slice(alloc, b"domain")?;
    let problem_name = Vec::from_slice(alloc, b"problem")?;
    let mut files = Vec::new(alloc);
    files.push((List::from_vec(domain_name), made.domain.into_vec()))?;
    files.push((List::from_vec(problem_name), made.problem.into_vec()))?;
    Ok(MemLibrary::new(files, Vec::new(alloc)))
}

/// How it ends where the made texts are not accepted. They are held, so that they cannot be read is never said.
fn made_ending(ending: Ending) -> Ending
    ensures value { result ≡ made_ending ending }
    ensures kept { result ≢ Ending.Read }
{
    match ending {
        Ending::Because(cause) => Ending::Because(cause),
        Ending::Read | Ending::Memory => Ending::Memory,
    }
}

/// The made domain, the made problem with `n` packages, and the kept part of their ground task.
pub(crate) fn accepted_made(alloc: Global, n: u32) -> Result<Accepted, Ending>
    requires least { 1 ≤ n }
    requires most { n ≤ 40 }
    ensures answer { (steady : Bool) → Gives steady (λ a. a) result (AcceptsTask (made_files n) domain_name problem_name) }
    ensures small { IfOk result (λ a. IsSmall a.kept.task) }
    ensures kept { result ≢ Err Ending.Read }
{
    let mut lib = match made_library(alloc, n) {
        Ok(lib) => lib,
        Err(_) => return Err(Ending::Memory),
    };
    match accepted_in(alloc, &mut lib, "domain", "problem") {
        Ok(accepted) => Ok(accepted),
        Err(ending) => Err(made_ending(ending)),
    }
}
