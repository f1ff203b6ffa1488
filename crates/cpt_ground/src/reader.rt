//! The reading of a domain and a problem with absence.

ghost use Rattle.std.specs.Prelude.{◌≡◌, ◌≤◌, IfOk, length};
ghost use Rattle.cpt_facts.specs.Fitting.{Fits};
ghost use Rattle.cpt_ground.specs.Grounding.{Reads};

use crate::actions::actions_of;
use crate::signed::Signed;
use cpt_domain::Domain;
use cpt_facts::{Fact, Problem};
use cpt_instance::{GroundError, instances_of, value_map};
use cpt_task::{List, Memory};
use std::alloc::Global;

fn copy_fact(alloc: Global, fact: &Fact) -> Result<Fact, Memory>
    ensures { IfOk result (λ copy. copy ≡ fact.now) }
{
    Ok(Fact {
        pred: fact.pred,
        args: List::from_vec(Vec::from_slice(alloc, fact.args.as_slice())?),
    })
}

fn copy_facts(alloc: Global, facts: &[Fact]) -> Result<List<Fact>, Memory>
    ensures { IfOk result (λ copies. copies ≡ facts.now) }
{
    let mut copies = Vec::with_capacity(alloc, facts.len())?;
    for fact in facts {
        copies.push(copy_fact(alloc, fact)?)?;
    }
    Ok(List::from_vec(copies))
}

/// The instances as actions that need atoms present and atoms absent, with the initial set and the goal.
/// `Limit(Instances)` exactly where the type-correct lists of objects, summed over the schemas, are more than
/// 1,000,000.
pub fn reading(alloc: Global, domain: &Domain, problem: &Problem) -> Result<Signed, GroundError>
    requires { Fits domain.now problem.now }
    ensures exact { Reads domain.now problem.now result }
    ensures few { IfOk result (λ signed. length signed.actions ≤ 1000000) }
{
    let values = value_map(alloc, problem.values.as_slice())?;
    let instances = instances_of(alloc, domain, problem, &values)?;
    Ok(Signed {
        actions: actions_of(alloc, domain, problem, &values, instances.as_slice())?,
        init: copy_facts(alloc, problem.init.as_slice())?,
        goal: copy_facts(alloc, problem.goal.as_slice())?,
        absent: copy_facts(alloc, problem.absent.as_slice())?,
    })
}
