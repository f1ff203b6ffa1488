//! The ground task of a domain and a problem.

ghost use Rattle.cpt_domain.specs.Sound.{IsSound};
ghost use Rattle.cpt_facts.specs.Fitting.{Fits};
ghost use Rattle.cpt_ground.specs.Grounding.{Grounds};

use crate::compile::compile;
use crate::reader::reading;
use cpt_domain::Domain;
use cpt_facts::Problem;
use cpt_instance::GroundError;
use cpt_task::Task;
use std::alloc::Global;

/// The ground task. `Limit(Instances)` exactly where the type-correct lists of objects, summed over the schemas, are
/// more than 1,000,000.
pub fn ground(alloc: Global, domain: &Domain, problem: &Problem) -> Result<Task, GroundError>
    requires sound { IsSound domain.now }
    requires fits { Fits domain.now problem.now }
    ensures exact { Grounds domain.now problem.now result }
{
    let signed = reading(alloc, domain, problem)?;
    Ok(compile(alloc, domain, problem, &signed)?)
}
