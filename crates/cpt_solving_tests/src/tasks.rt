//! Small tasks, as numbers.

use cpt_task::{Action, Ids, List, Name, Task};
use std::alloc::Global;

/// How long an action lasts, and what it needs, adds and deletes.
pub type Act = (u32, &'static [u32], &'static [u32], &'static [u32]);

/// A task whose atoms and actions have no names.
#[derive(Clone, Copy)]
pub struct Numbers {
    pub atoms: u32,
    pub actions: &'static [Act],
    pub init: &'static [u32],
    pub goal: &'static [u32],
}

/// An action of 5 needs 0 and adds 1; an action of 3 needs and deletes 0 and adds 2.
pub const ONE_AFTER_THE_OTHER: Numbers = Numbers {
    atoms: 3,
    actions: &[(5, &[0], &[1], &[]), (3, &[0], &[2], &[0])],
    init: &[0],
    goal: &[1, 2],
};

/// Three actions of 2 take the resource 0 and give it back, and add 1, 2 and 3.
pub const RESOURCE: Numbers = Numbers {
    atoms: 4,
    actions: &[
        (2, &[0], &[0, 1], &[0]),
        (2, &[0], &[0, 2], &[0]),
        (2, &[0], &[0, 3], &[0]),
    ],
    init: &[0],
    goal: &[1, 2, 3],
};

/// An action of 1 adds the key 0; two actions of 2 use it up and add 1 and 2.
pub const KEY: Numbers = Numbers {
    atoms: 3,
    actions: &[
        (1, &[], &[0], &[]),
        (2, &[0], &[1], &[0]),
        (2, &[0], &[2], &[0]),
    ],
    init: &[],
    goal: &[1, 2],
};

/// Actions of 10 and 4 add 0 and 1; an action of 1 needs both and adds 2.
pub const SIDE_BY_SIDE: Numbers = Numbers {
    atoms: 3,
    actions: &[
        (10, &[], &[0], &[]),
        (4, &[], &[1], &[]),
        (1, &[0, 1], &[2], &[]),
    ],
    init: &[],
    goal: &[2],
};

/// A truck drives from a to b and back in 3, and loads and unloads two packages, which stand at a and are wanted at b, in
/// 1. The atoms: the truck at a and at b; each package at a, at b and in the truck.
pub const ONE_TRUCK: Numbers = Numbers {
    atoms: 8,
    actions: &[
        (3, &[0], &[1], &[0]),
        (3, &[1], &[0], &[1]),
        (1, &[0, 2], &[4], &[2]),
        (1, &[0, 4], &[2], &[4]),
        (1, &[1, 3], &[4], &[3]),
        (1, &[1, 4], &[3], &[4]),
        (1, &[0, 5], &[7], &[5]),
        (1, &[0, 7], &[5], &[7]),
        (1, &[1, 6], &[7], &[6]),
        (1, &[1, 7], &[6], &[7]),
    ],
    init: &[0, 2, 5],
    goal: &[3, 6],
};

/// The same with two trucks. The atoms: each truck at a and at b; each package at a, at b and in each truck.
pub const TWO_TRUCKS: Numbers = Numbers {
    atoms: 12,
    actions: &[
        (3, &[0], &[1], &[0]),
        (3, &[1], &[0], &[1]),
        (1, &[0, 4], &[6], &[4]),
        (1, &[0, 6], &[4], &[6]),
        (1, &[1, 5], &[6], &[5]),
        (1, &[1, 6], &[5], &[6]),
        (1, &[0, 8], &[10], &[8]),
        (1, &[0, 10], &[8], &[10]),
        (1, &[1, 9], &[10], &[9]),
        (1, &[1, 10], &[9], &[10]),
        (3, &[2], &[3], &[2]),
        (3, &[3], &[2], &[3]),
        (1, &[2, 4], &[7], &[4]),
        (1, &[2, 7], &[4], &[7]),
        (1, &[3, 5], &[7], &[5]),
        (1, &[3, 7], &[5], &[7]),
        (1, &[2, 8], &[11], &[8]),
        (1, &[2, 11], &[8], &[11]),
        (1, &[3, 9], &[11], &[9]),
        (1, &[3, 11], &[9], &[11]),
    ],
    init: &[0, 2, 4, 8],
    goal: &[5, 9],
};

/// The goal holds at first.
pub const GOAL_AT_FIRST: Numbers = Numbers {
    atoms: 1,
    actions: &[],
    init: &[0],
    goal: &[0],
};

/// Nothing adds the goal.
pub const NOTHING_ADDS: Numbers = Numbers {
    atoms: 1,
    actions: &[],
    init: &[],
    goal: &[0],
};

/// Two actions use up 0 and add 1 and 2, so that 1 and 2 never hold together.
pub const NEVER_BOTH: Numbers = Numbers {
    atoms: 3,
    actions: &[(1, &[0], &[1], &[0]), (1, &[0], &[2], &[0])],
    init: &[0],
    goal: &[1, 2],
};

/// An action needs 0, which nothing adds, and adds 1.
pub const NEVER_READY: Numbers = Numbers {
    atoms: 2,
    actions: &[(1, &[0], &[1], &[])],
    init: &[],
    goal: &[1],
};

/// An action of 100,000 adds the goal.
pub const ONE_LONG_ACTION: Numbers = Numbers {
    atoms: 1,
    actions: &[(100_000, &[], &[0], &[])],
    init: &[],
    goal: &[0],
};

fn ids(alloc: Global, xs: &[u32]) -> Option<Ids> {
    Ids::from_vec(Vec::from_slice(alloc, xs).ok()?)
}

fn action_of(alloc: Global, act: &Act) -> Option<Action> {
    Some(Action {
        name: List::from_vec(Vec::new(alloc)),
        dur: act.0,
        pre: ids(alloc, act.1)?,
        add: ids(alloc, act.2)?,
        dele: ids(alloc, act.3)?,
    })
}

fn actions_of(alloc: Global, acts: &[Act]) -> Option<Vec<Action>> {
    let mut actions = Vec::new(alloc);
    for act in acts {
        actions.push(action_of(alloc, act)?).ok()?;
    }
    Some(actions)
}

fn atoms_of(alloc: Global, count: u32) -> Option<Vec<Name>> {
    let mut atoms = Vec::new(alloc);
    for _ in 0..count {
        atoms.push(List::from_vec(Vec::new(alloc))).ok()?;
    }
    Some(atoms)
}

/// The task of these numbers.
pub fn task_of(alloc: Global, numbers: &Numbers) -> Option<Task> {
    let atoms = atoms_of(alloc, numbers.atoms)?;
    let actions = actions_of(alloc, numbers.actions)?;
    if atoms.len() > 2048 || actions.len() > 4096 {
        return None;
    }
    let init = ids(alloc, numbers.init)?;
    let goal = ids(alloc, numbers.goal)?;
    Task::build(atoms, actions, init, goal).ok()
}
