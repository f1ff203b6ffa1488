//! Domains and problems with the part of their ground task that plans can use.

ghost use Rattle.std.specs.Prelude.{◌≡◌, ◌≢◌, ◌-◌, ◌^◌, ◌<◌, Bool, IsTrue, IfOk, IfSome, [], Some, IsSome, OnOk};
ghost use Rattle.cpt_domain.specs.Sound.{IsSound};
ghost use Rattle.cpt_facts.specs.Fitting.{Fits};
ghost use Rattle.cpt_files.specs.Accepted.{AcceptsTask, IsSmall, KeepsTo, ground_ending, prune_ending};
ghost use Rattle.cpt_answer.specs.Giving.{Gives};

use crate::problems::{domain_in, problem_in};
use cpt_answer::{Cause, Ending};
use cpt_domain::Domain;
use cpt_facts::Problem;
use cpt_ground::{GroundError, ground};
use cpt_io::Library;
use cpt_reach::{PruneError, Pruned, prune};
use std::alloc::Global;

/// A sound domain, a problem that fits it, and the kept part of their ground task.
#[derive(Debug, Drop)]
pub struct Accepted {
    pub domain: Domain,
    pub problem: Problem,
    pub kept: Pruned,
}

fn from_ground(e: GroundError) -> Ending
    ensures value { result ≡ ground_ending e }
    ensures kept { result ≢ Ending.Read }
{
    match e {
        GroundError::Limit(which) => Ending::Because(Cause::Passed(which)),
        GroundError::Memory => Ending::Memory,
    }
}

fn from_prune(e: PruneError) -> Ending
    ensures value { result ≡ prune_ending e }
    ensures kept { result ≢ Ending.Read }
{
    match e {
        PruneError::Limit(which) => Ending::Because(Cause::Passed(which)),
        PruneError::Memory => Ending::Memory,
    }
}

/// The kept part of the ground task of the domain and the problem.
fn kept_part(alloc: Global, domain: &Domain, problem: &Problem) -> Result<Pruned, Ending>
    requires sound { IsSound domain.now }
    requires fits { Fits domain.now problem.now }
    ensures answer { (steady : Bool) → Gives steady (λ kept. kept) result (KeepsTo domain.now problem.now) }
    ensures small { IfOk result (λ kept. IsSmall kept.task) }
    ensures kept { result ≢ Err Ending.Read }
{
    let task = match ground(alloc, domain, problem) {
        Ok(task) => task,
        Err(e) => return Err(from_ground(e)),
    };
    let _actions = task.actions();
    match prune(alloc, &task) {
        Ok(kept) => Ok(kept),
        Err(e) => Err(from_prune(e)),
    }
}

/// What the files of these two names come to: the problem is opened once the domain is understood.
pub fn accepted_in<L: Library>(
    alloc: Global,
    lib: &mut L,
    domain_name: &str,
    problem_name: &str,
) -> Result<Accepted, Ending>
    requires { L.faults lib.old < 2 ^ 64 - 1 }
    ensures same { L.holds lib.new ≡ L.holds lib.old }
    ensures answer { IfSome (L.holds lib.old) (λ files. Gives (L.steady lib.old) (λ a. a) result (AcceptsTask files domain_name.now problem_name.now)) }
    ensures sound { IfOk result (λ a. IsSound a.domain) }
    ensures fits { IfOk result (λ a. Fits a.domain a.problem) }
    ensures small { IfOk result (λ a. IsSmall a.kept.task) }
    ensures failed { result ≡ Err Ending.Read → L.faults lib.old < L.faults lib.new }
    ensures kept { result ≢ Err Ending.Read → L.faults lib.new ≡ L.faults lib.old }
    ensures steady { IsTrue (L.steady lib.old) → IsTrue (L.steady lib.new) }
    ensures end { OnOk result (IsSome (L.holds lib.old) → L.left lib.new ≡ Some []) }
{
    let domain = match domain_in(alloc, lib, domain_name) {
        Ok(domain) => domain,
        Err(ending) => return Err(ending),
    };
    let problem = match problem_in(alloc, lib, &domain, problem_name) {
        Ok(problem) => problem,
        Err(ending) => return Err(ending),
    };
    match kept_part(alloc, &domain, &problem) {
        Ok(kept) => Ok(Accepted {
            domain,
            problem,
            kept,
        }),
        Err(ending) => Err(ending),
    }
}
