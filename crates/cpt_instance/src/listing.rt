//! All instances of a domain and a problem.

ghost use Rattle.std.specs.Prelude.{◌≡◌, ◌≤◌, ◌++◌, ◌∷◌, [], IfOk, OnOk, MatchBool, length, ◌+◌};
ghost use Rattle.cpt_facts.specs.Fitting.{Fits};
ghost use Rattle.cpt_instance.specs.Choices.{AllRise, choice_count, list_total, schemas_total};
ghost use Rattle.cpt_instance.specs.Durations.{HasValues};
ghost use Rattle.cpt_instance.specs.Instances.{parents_of};
ghost use Rattle.cpt_instance.specs.Listing.{Adds, AddsWhere, AreAll, IsChosen, IsKept, IsOfFirst, IsOfSchema, ListsInstances};

use crate::bindings::tests_hold;
use crate::choices::{choice_at, choices_of};
use crate::counting::{INSTANCE_LIMIT, list_count, object_kinds, schemas_count};
use crate::durations::{ValueMap, duration_in};
use crate::error::GroundError;
use crate::instances::Instance;
use cpt_domain::{Domain, Schema};
use cpt_facts::Problem;
use cpt_pddl::Ancestry;
use cpt_task::{Limit, List, Memory};
use std::alloc::Global;

fn is_kept(alloc: Global, schema: &Schema, values: &ValueMap, args: &[u32]) -> Result<bool, Memory>
    ensures { IfOk result (λ kept. MatchBool kept (IsKept values.now schema.now args.now) (IsKept values.now schema.now args.now → ⊥)) }
{
    if !tests_hold(args, schema.tests.as_slice()) {
        return Ok(false);
    }
    let dur = duration_in(alloc, values, args, &schema.dur)?;
    Ok(dur.is_some())
}

fn push_where_kept(
    alloc: Global,
    schema: &Schema,
    values: &ValueMap,
    instance: Instance,
    found: &mut Vec<Instance>,
) -> Result<(), Memory>
    ensures adds { OnOk result (AddsWhere (IsKept values.now schema.now instance.args) instance found.old.items found.new.items) }
    ensures few { OnOk result (length found.new.items ≤ length found.old.items + 1) }
{
    if is_kept(alloc, schema, values, instance.args.as_slice())? {
        found.push(instance)?;
    }
    Ok(())
}

fn push_chosen(
    alloc: Global,
    schema: &Schema,
    values: &ValueMap,
    number: usize,
    choices: &[List<u32>],
    count: usize,
    found: &mut Vec<Instance>,
) -> Result<(), Memory>
    requires total { count ≡ choice_count choices.now }
    requires ordered { AllRise choices.now }
    ensures adds { OnOk result (Adds (IsChosen values.now schema.now number choices.now count) found.old.items found.new.items) }
    ensures few { OnOk result (length found.new.items ≤ length found.old.items + count) }
{
    for place in 0..count {
        let args = choice_at(alloc, choices, count, place)?;
        let instance = Instance {
            schema: number,
            args,
        };
        push_where_kept(alloc, schema, values, instance, found)?;
    }
    Ok(())
}

fn push_of_schema(
    alloc: Global,
    types: &Ancestry,
    kinds: &[u32],
    values: &ValueMap,
    schema: &Schema,
    number: usize,
    found: &mut Vec<Instance>,
) -> Result<(), Memory>
    requires objects { length kinds.now ≤ 4096 }
    requires few { list_total types.now kinds.now schema.now.kinds ≤ 1000000 }
    ensures adds { OnOk result (Adds (IsOfSchema values.now schema.now number types.now kinds.now) found.old.items found.new.items) }
    ensures few { OnOk result (length found.new.items ≤ length found.old.items + list_total types.now kinds.now schema.now.kinds) }
{
    let wanted = schema.kinds.as_slice();
    let choices = choices_of(alloc, types, kinds, wanted)?;
    let count = list_count(types, kinds, wanted);
    push_chosen(
        alloc,
        schema,
        values,
        number,
        choices.as_slice(),
        count,
        found,
    )
}

fn of_schemas(
    alloc: Global,
    types: &Ancestry,
    kinds: &[u32],
    values: &ValueMap,
    schemas: &[Schema],
) -> Result<Vec<Instance>, Memory>
    requires objects { length kinds.now ≤ 4096 }
    requires few { schemas_total types.now kinds.now schemas.now ≤ 1000000 }
    ensures all { IfOk result (λ found. AreAll (IsOfFirst values.now schemas.now (length schemas.now) types.now kinds.now) found.items) }
    ensures few { IfOk result (λ found. length found.items ≤ schemas_total types.now kinds.now schemas.now) }
{
    let mut found = Vec::new(alloc);
    for (number, schema) in schemas.iter().enumerate() {
        push_of_schema(alloc, types, kinds, values, schema, number, &mut found)?;
    }
    Ok(found)
}

/// The types of the domain, by their parents.
fn ancestry_of(alloc: Global, domain: &Domain) -> Result<Ancestry, Memory>
    ensures { IfOk result (λ types. types ≡ parents_of domain.now) }
{
    let types = domain.types.as_slice();
    let parents: Vec<u32> = types.iter().map(|t| t.parent).collect(alloc)?;
    Ancestry::new(parents)
}

/// All instances, in order of schema, then of the objects. `Limit(Instances)` exactly where the type-correct lists,
/// summed over the schemas, are more than 1,000,000.
pub fn instances_of(
    alloc: Global,
    domain: &Domain,
    problem: &Problem,
    values: &ValueMap,
) -> Result<List<Instance>, GroundError>
    requires fits { Fits domain.now problem.now }
    requires mapped { HasValues problem.now.values values.now }
    ensures exact { ListsInstances domain.now problem.now result }
    ensures few { IfOk result (λ instances. length instances ≤ 1000000) }
{
    let types = ancestry_of(alloc, domain)?;
    let schemas = domain.schemas.as_slice();
    let kinds = object_kinds(alloc, domain, problem)?;
    if schemas_count(&types, &kinds, schemas) > INSTANCE_LIMIT {
        return Err(GroundError::Limit(Limit::Instances));
    }
    Ok(List::from_vec(of_schemas(alloc, &types, &kinds, values, schemas)?))
}
