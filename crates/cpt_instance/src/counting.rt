//! How many type-correct lists of objects there are.

ghost use Rattle.std.specs.Prelude.{◌≡◌, ◌≤◌, IfOk, length, min};
ghost use Rattle.cpt_instance.specs.Choices.{list_total, member_count, object_kinds, schemas_total};

use cpt_domain::{Domain, Schema};
use cpt_facts::Problem;
use cpt_pddl::Ancestry;
use cpt_task::Memory;
use std::alloc::Global;

/// The most type-correct lists that are grounded.
pub const INSTANCE_LIMIT: usize = 1_000_000;

/// The types of the constants and objects, by number.
pub fn object_kinds(alloc: Global, domain: &Domain, problem: &Problem) -> Result<Vec<u32>, Memory>
    ensures { IfOk result (λ kinds. kinds.items ≡ object_kinds domain.now problem.now) }
{
    let constants = domain.constants.as_slice();
    let objects = problem.objects.as_slice();
    let kinds = constants.iter().chain(objects).map(|object| object.kind);
    Ok(kinds.collect(alloc)?)
}

fn member_count(types: &Ancestry, kinds: &[u32], wanted: u32) -> usize
    ensures { result ≡ member_count types.now kinds.now wanted }
{
    kinds
        .iter()
        .filter(|kind| types.is_below(**kind, wanted))
        .count()
}

/// How many lists have an object of each type, and 1,000,001 where they are more.
pub fn list_count(types: &Ancestry, kinds: &[u32], wanted: &[u32]) -> usize
    requires { length kinds.now ≤ 4096 }
    ensures { result ≡ min (list_total types.now kinds.now wanted.now) 1000001 }
{
    let mut count = 1;
    for kind in wanted {
        count = (count * member_count(types, kinds, *kind)).min(INSTANCE_LIMIT + 1);
    }
    count
}

/// How many type-correct lists the schemas have, and 1,000,001 where they are more.
pub fn schemas_count(types: &Ancestry, kinds: &[u32], schemas: &[Schema]) -> usize
    requires { length kinds.now ≤ 4096 }
    ensures { result ≡ min (schemas_total types.now kinds.now schemas.now) 1000001 }
{
    let mut count = 0;
    for schema in schemas {
        count = (count + list_count(types, kinds, schema.kinds.as_slice())).min(INSTANCE_LIMIT + 1);
    }
    count
}
