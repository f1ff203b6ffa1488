//! What an instance does.

ghost use Rattle.std.specs.Prelude.{◌≡◌, ◌<◌, IfOk, All, length};
ghost use Rattle.std.specs.List.{AllZip};
ghost use Rattle.cpt_instance.specs.Durations.{HasValues};
ghost use Rattle.cpt_instance.specs.Instances.{IsInstance, ground_atom, ground_atoms, group_of, names_of, schema_at};
ghost use Rattle.cpt_ground.specs.Reading.{IsActionOf};

use crate::object_names::push_names;
use crate::signed::SignedAction;
use cpt_domain::{Domain, Lit, Schema};
use cpt_facts::{Fact, Problem};
use cpt_instance::{Instance, ValueMap, duration_in, objects_for};
use cpt_task::{List, Memory, Name};
use std::alloc::Global;

fn ground_atom(alloc: Global, args: &[u32], lit: &Lit) -> Result<Fact, Memory>
    ensures { IfOk result (λ fact. fact ≡ ground_atom args.now lit.now) }
{
    let objects = objects_for(alloc, args, lit.terms.as_slice())?;
    Ok(Fact {
        pred: lit.pred,
        args: List::from_vec(objects),
    })
}

fn ground_atoms(alloc: Global, args: &[u32], lits: &[Lit]) -> Result<List<Fact>, Memory>
    ensures { IfOk result (λ facts. facts ≡ ground_atoms args.now lits.now) }
{
    let mut facts = Vec::with_capacity(alloc, lits.len())?;
    for lit in lits {
        facts.push(ground_atom(alloc, args, lit)?)?;
    }
    Ok(List::from_vec(facts))
}

fn group_name(
    alloc: Global,
    domain: &Domain,
    problem: &Problem,
    name: &[u8],
    args: &[u32],
) -> Result<Name, Memory>
    ensures { IfOk result (λ spelled. spelled ≡ group_of name.now (names_of domain.now problem.now args.now)) }
{
    let mut spelled = Vec::new(alloc);
    spelled.push(b'(')?;
    spelled.extend_from_slice(name)?;
    push_names(domain, problem, args, &mut spelled)?;
    spelled.push(b')')?;
    Ok(List::from_vec(spelled))
}

fn schema_of<'a>(domain: &'a Domain, instance: &Instance) -> &'a Schema
    requires { instance.now.schema < length domain.now.schemas }
    ensures { result.now ≡ schema_at domain.now instance.now.schema }
{
    &domain.schemas.as_slice()[instance.schema]
}

fn action_of(
    alloc: Global,
    domain: &Domain,
    problem: &Problem,
    values: &ValueMap,
    instance: &Instance,
) -> Result<SignedAction, Memory>
    requires mapped { HasValues problem.now.values values.now }
    requires instance { IsInstance domain.now problem.now instance.now }
    ensures { IfOk result (IsActionOf domain.now problem.now instance.now) }
{
    let schema = schema_of(domain, instance);
    let args = instance.args.as_slice();
    Ok(SignedAction {
        name: group_name(alloc, domain, problem, schema.name.as_slice(), args)?,
        dur: duration_in(alloc, values, args, &schema.dur)?.unwrap(),
        present: ground_atoms(alloc, args, schema.pre.as_slice())?,
        absent: ground_atoms(alloc, args, schema.absent.as_slice())?,
        add: ground_atoms(alloc, args, schema.add.as_slice())?,
        dele: ground_atoms(alloc, args, schema.dele.as_slice())?,
    })
}

/// What each of these instances does.
pub fn actions_of(
    alloc: Global,
    domain: &Domain,
    problem: &Problem,
    values: &ValueMap,
    instances: &[Instance],
) -> Result<List<SignedAction>, Memory>
    requires mapped { HasValues problem.now.values values.now }
    requires instances { All (IsInstance domain.now problem.now) instances.now }
    ensures { IfOk result (AllZip (IsActionOf domain.now problem.now) instances.now) }
{
    let mut actions = Vec::with_capacity(alloc, instances.len())?;
    for instance in instances {
        actions.push(action_of(alloc, domain, problem, values, instance)?)?;
    }
    Ok(List::from_vec(actions))
}
