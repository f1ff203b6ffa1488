//! The values of functions, by their objects, and the durations that they give.

ghost use Rattle.std.specs.Prelude.{◌≡◌, ◌∷◌, IfOk};
ghost use Rattle.cpt_instance.specs.Durations.{HasValues, duration_in};
ghost use Rattle.cpt_instance.specs.Instances.{objects_for};

use crate::bindings::object_for;
use cpt_domain::{Lasting, Term};
use cpt_facts::Valued;
use cpt_task::Memory;
use std::alloc::Global;
use std::collections::HashMap;

/// Values by the function's number with the objects behind it.
pub type ValueMap = HashMap<Vec<u32>, u32>;

fn key_of(alloc: Global, func: u32, args: &[u32]) -> Result<Vec<u32>, Memory>
    ensures { IfOk result (λ key. key.items ≡ func ∷ args.now) }
{
    let mut key = Vec::new(alloc);
    key.push(func)?;
    key.extend_from_slice(args)?;
    Ok(key)
}

/// The values of a problem as a map.
pub fn value_map(alloc: Global, values: &[Valued]) -> Result<ValueMap, Memory>
    ensures { IfOk result (HasValues values.now) }
{
    let mut map = HashMap::new(alloc);
    for value in values {
        let key = key_of(alloc, value.func, value.args.as_slice())?;
        map.insert(key, value.value)?;
    }
    Ok(map)
}

/// The objects that the terms stand for, where the parameters stand for these objects.
pub fn objects_for(alloc: Global, args: &[u32], terms: &[Term]) -> Result<Vec<u32>, Memory>
    ensures { IfOk result (λ objects. objects.items ≡ objects_for args.now terms.now) }
{
    Ok(
        terms
            .iter()
            .map(|term| object_for(args, term))
            .collect(alloc)?,
    )
}

/// The duration at these objects: the fixed one, or the function's value for the objects that its terms stand for.
pub fn duration_in(
    alloc: Global,
    values: &ValueMap,
    args: &[u32],
    dur: &Lasting,
) -> Result<Option<u32>, Memory>
    ensures { IfOk result (λ found. found ≡ duration_in values.now args.now dur.now) }
{
    match dur {
        Lasting::Fixed(n) => Ok(Some(*n)),
        Lasting::Value { func, terms } => {
            let objects = objects_for(alloc, args, terms.as_slice())?;
            let key = key_of(alloc, *func, objects.as_slice())?;
            Ok(values.get(key.as_slice()).copied())
        }
    }
}
