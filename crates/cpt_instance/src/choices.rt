//! The ways to choose an object of each type.

ghost use Rattle.std.specs.Prelude.{◌≡◌, ◌<◌, ◌≤◌, IfOk, length};
ghost use Rattle.cpt_instance.specs.Choices.{choice_at, choice_count, choices_of, members_from};

use cpt_pddl::Ancestry;
use cpt_task::{List, Memory};
use std::alloc::Global;

fn members(alloc: Global, types: &Ancestry, kinds: &[u32], wanted: u32) -> Result<List<u32>, Memory>
    requires { length kinds.now ≤ 4096 }
    ensures { IfOk result (λ members. members ≡ members_from types.now wanted 0 kinds.now) }
{
    let mut members = Vec::new(alloc);
    for (k, kind) in kinds.iter().enumerate() {
        if types.is_below(*kind, wanted) {
            members.push(k as u32)?;
        }
    }
    Ok(List::from_vec(members))
}

/// The objects of each wanted type, by number.
pub fn choices_of(
    alloc: Global,
    types: &Ancestry,
    kinds: &[u32],
    wanted: &[u32],
) -> Result<Vec<List<u32>>, Memory>
    requires { length kinds.now ≤ 4096 }
    ensures { IfOk result (λ choices. choices.items ≡ choices_of types.now kinds.now wanted.now) }
{
    let mut choices = Vec::new(alloc);
    for kind in wanted {
        choices.push(members(alloc, types, kinds, *kind)?)?;
    }
    Ok(choices)
}

/// The way to choose one object of each list that has this place among all of them, of which there are so many. The
/// first list varies slowest.
pub fn choice_at(
    alloc: Global,
    choices: &[List<u32>],
    count: usize,
    place: usize,
) -> Result<List<u32>, Memory>
    requires total { count ≡ choice_count choices.now }
    requires within { place < count }
    ensures { IfOk result (λ args. args ≡ choice_at choices.now place) }
{
    let mut args = Vec::with_capacity(alloc, choices.len())?;
    let mut left = place;
    let mut ways = count;
    for objects in choices {
        let objects = objects.as_slice();
        ways /= objects.len();
        args.push(objects[left / ways])?;
        left %= ways;
    }
    Ok(List::from_vec(args))
}
