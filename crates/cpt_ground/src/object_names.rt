//! Names of objects.

ghost use Rattle.std.specs.Prelude.{◌≡◌, ◌++◌, ◌∷◌, OnOk, flat_map};
ghost use Rattle.cpt_instance.specs.Instances.{names_of, object_at};

use cpt_domain::Domain;
use cpt_facts::Problem;
use cpt_task::Memory;

fn object_name<'a>(domain: &'a Domain, problem: &'a Problem, object: u32) -> &'a [u8]
    ensures { result.now ≡ (object_at domain.now problem.now object).name }
{
    let constants = domain.constants.as_slice();
    let place = object as usize;
    if place < constants.len() {
        return constants[place].name.as_slice();
    }
    match problem.objects.as_slice().get(place - constants.len()) {
        None => &[],
        Some(declared) => declared.name.as_slice(),
    }
}

/// Writes the names of the objects, with a blank before each.
pub fn push_names(
    domain: &Domain,
    problem: &Problem,
    objects: &[u32],
    text: &mut Vec<u8>,
) -> Result<(), Memory>
    ensures { OnOk result (text.new.items ≡ text.old.items ++ flat_map (λ word. 32 ∷ word) (names_of domain.now problem.now objects.now)) }
{
    for object in objects {
        text.push(b' ')?;
        text.extend_from_slice(object_name(domain, problem, *object))?;
    }
    Ok(())
}
