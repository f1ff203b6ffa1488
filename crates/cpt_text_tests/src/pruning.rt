//! Pruning answers the kept part of a small task.

ghost use Rattle.std.specs.Prelude.{◌≡◌, ◌<◌, ◌^◌, IfOk, vec_len};

use cpt_reach::{Pruned, prune};
use cpt_task::{Action, Ids, List, Memory, Name, Task};
use std::alloc::Global;
use std::test::Fail;

fn ids(alloc: Global, numbers: &[u32]) -> Result<Ids, Memory> {
    match Ids::from_vec(Vec::from_slice(alloc, numbers)?) {
        Some(ids) => Ok(ids),
        None => Err(Memory),
    }
}

fn action(
    alloc: Global,
    name: u8,
    pre: &[u32],
    add: &[u32],
    dele: &[u32],
) -> Result<Action, Memory> {
    Ok(Action {
        name: List::from_vec(vec![in alloc; name]?),
        dur: 5,
        pre: ids(alloc, pre)?,
        add: ids(alloc, add)?,
        dele: ids(alloc, dele)?,
    })
}

// The atoms `p` to `u`.
fn atoms(alloc: Global) -> Result<Vec<Name>, Memory> {
    let mut atoms = Vec::new(alloc);
    for letter in b'p'..=b'u' {
        atoms.push(List::from_vec(vec![in alloc; letter]?))?;
    }
    Ok(atoms)
}

// The first action needs what only the second adds, and deletes an atom that is never reached. The third is never
// possible.
fn actions(alloc: Global) -> Result<Vec<Action>, Memory> {
    let a = action(alloc, b'a', &[1], &[2], &[0, 4])?;
    let b = action(alloc, b'b', &[0], &[1], &[])?;
    let c = action(alloc, b'c', &[0, 3], &[4], &[])?;
    Ok(Vec::from_array(alloc, [a, b, c])?)
}

// Of the goal, the last atom is never reached.
fn sample(alloc: Global) -> Result<Task, Memory> {
    let atoms = atoms(alloc)?;
    let actions = actions(alloc)?;
    if atoms.len() >= 100 || actions.len() >= 100 {
        return Err(Memory);
    }
    match Task::build(atoms, actions, ids(alloc, &[0])?, ids(alloc, &[2, 5])?) {
        Ok(task) => Ok(task),
        Err(_) => Err(Memory),
    }
}

fn has_name(action: &Action, letter: u8) -> bool {
    action.name.as_slice() == [letter].as_slice()
}

fn has_lists(action: &Action, pre: &[u32], add: &[u32], dele: &[u32]) -> bool {
    action.pre.as_slice() == pre && action.add.as_slice() == add && action.dele.as_slice() == dele
}

// Whether the first two actions are kept, with the atoms numbered anew.
fn has_actions(kept: &Task) -> bool {
    let [a, b] = kept.actions() else {
        return false;
    };
    has_name(a, b'a')
        && has_lists(a, &[1], &[2], &[0])
        && has_name(b, b'b')
        && has_lists(b, &[0], &[1], &[])
}

fn has_atoms(kept: &Task) -> bool {
    kept.atoms().len() == 4 && kept.init() == [0].as_slice() && kept.goal() == [2, 3].as_slice()
}

// Whether the atoms and the actions are kept that have these numbers.
fn has_numbers(pruned: &Pruned) -> bool {
    pruned.atoms.as_slice() == [0, 1, 2, 5].as_slice()
        && pruned.actions.as_slice() == [0, 1].as_slice()
}

#[test]
fn keeps_the_reached_part(rt: HostRuntime) -> Result<(), Fail> {
    let task = sample(rt.alloc())?;
    let pruned = prune(rt.alloc(), &task)?;
    assert!(rt; has_numbers(&pruned));
    assert!(rt; has_atoms(&pruned.task));
    assert!(rt; has_actions(&pruned.task));
    Ok(())
}
