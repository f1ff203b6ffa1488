//! Small tasks, and made ones.

use cpt_task::{Action, Ids, List, Span, Task};
use std::alloc::Global;

pub fn ids(alloc: Global, xs: &[u32]) -> Option<Ids> {
    Ids::from_vec(Vec::from_slice(alloc, xs).ok()?)
}

pub fn action(alloc: Global, dur: u32, pre: &[u32], add: &[u32], dele: &[u32]) -> Option<Action> {
    Some(Action {
        name: List::from_vec(Vec::new(alloc)),
        dur,
        pre: ids(alloc, pre)?,
        add: ids(alloc, add)?,
        dele: ids(alloc, dele)?,
    })
}

pub fn task(alloc: Global, n: usize, init: &[u32], actions: Vec<Action>) -> Option<Task> {
    let mut atoms = Vec::new(alloc);
    for _ in 0..n {
        atoms.push(List::from_vec(Vec::new(alloc))).ok()?;
    }
    if atoms.len() > 2048 || actions.len() > 4096 {
        return None;
    }
    Task::build(atoms, actions, ids(alloc, init)?, ids(alloc, &[])?).ok()
}

// Actions of 10 and 4 add 0 and 1; an action of 1 needs both and adds 2.
pub fn side_by_side(alloc: Global) -> Option<Task> {
    let mut actions = Vec::new(alloc);
    actions.push(action(alloc, 10, &[], &[0], &[])?).ok()?;
    actions.push(action(alloc, 4, &[], &[1], &[])?).ok()?;
    actions.push(action(alloc, 1, &[0, 1], &[2], &[])?).ok()?;
    task(alloc, 3, &[], actions)
}

pub fn next(seed: &mut u32) -> u32 {
    *seed = seed.wrapping_mul(1_103_515_245).wrapping_add(12345);
    *seed >> 16
}

pub fn some_ids(alloc: Global, seed: &mut u32, most: u32) -> Option<Ids> {
    let mut v = Vec::new(alloc);
    for p in 0..6u32 {
        if next(seed) % 6 < most {
            v.push(p).ok()?;
        }
    }
    Ids::from_vec(v)
}

// Six atoms and seven actions without a plan of their own.
pub fn mixed(alloc: Global, start: u32) -> Option<Task> {
    let mut seed = start;
    let mut actions = Vec::new(alloc);
    for k in 0..7u32 {
        let pre = some_ids(alloc, &mut seed, 1)?;
        let add = some_ids(alloc, &mut seed, 2)?;
        let dele = some_ids(alloc, &mut seed, 1)?;
        let name = List::from_vec(Vec::new(alloc));
        let dur = 1 + k % 3;
        actions
            .push(Action {
                name,
                dur,
                pre,
                add,
                dele,
            })
            .ok()?;
    }
    task(alloc, 6, &[0], actions)
}

pub fn number(span: Span) -> u64 {
    match span {
        Span::At(v) => v,
        Span::Never => u64::MAX,
    }
}
