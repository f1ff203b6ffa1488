//! Greatest pair tables: known values of small tasks, and a plain reference.

ghost use Rattle.std.specs.Prelude.{◌≡◌, ◌<◌, ◌≤◌, IfSome, length};
ghost use Rattle.cpt_tables.specs.Shapes.{FitsPairs};

use crate::tasks::{action, mixed, number, side_by_side, task};
use cpt_h2::pair_table;
use cpt_tables::{PairTable, set_span};
use cpt_task::{Action, Span, Task, interfere};
use std::alloc::Global;

// Row by row: `a` lasts 5, needs 0 and adds 1; `b` lasts 3, needs and deletes 0 and adds 2.
fn two_actions(alloc: Global) -> Option<Task> {
    let mut actions = Vec::new(alloc);
    actions.push(action(alloc, 5, &[0], &[1], &[])?).ok()?;
    actions.push(action(alloc, 3, &[0], &[2], &[0])?).ok()?;
    task(alloc, 3, &[0], actions)
}

// Three actions that last 2, take atom 0 and give it back, and add 1, 2 and 3.
fn three_users(alloc: Global) -> Option<Task> {
    let mut actions = Vec::new(alloc);
    for goal in [1u32, 2, 3] {
        actions
            .push(action(alloc, 2, &[0], &[0, goal], &[0])?)
            .ok()?;
    }
    task(alloc, 4, &[0], actions)
}

// An action of 1 adds the key 0; two actions of 2 use it up and add 1 and 2.
fn key(alloc: Global) -> Option<Task> {
    let mut actions = Vec::new(alloc);
    actions.push(action(alloc, 1, &[], &[0], &[])?).ok()?;
    actions.push(action(alloc, 2, &[0], &[1], &[0])?).ok()?;
    actions.push(action(alloc, 2, &[0], &[2], &[0])?).ok()?;
    task(alloc, 3, &[], actions)
}

fn solved(alloc: Global, task: &Task) -> Option<PairTable>
    ensures { IfSome result (λ pairs. pairs.atoms ≡ length task.now.atoms) }
{
    if task.atoms().len() > 2048 || task.actions().len() > 4096 {
        return None;
    }
    pair_table(alloc, task).ok()
}

fn value(alloc: Global, task: Option<Task>, p: u32, q: u32) -> Option<Span> {
    let pairs = solved(alloc, &task?)?;
    if p < pairs.atoms() && q < pairs.atoms() {
        Some(pairs.get(p, q))
    } else {
        None
    }
}

// The plain reference: a square of values, of which the greatest is for never.
fn at(square: &[u64], p: u32, q: u32) -> u64 {
    match square.get((p as usize).wrapping_mul(6).wrapping_add(q as usize)) {
        Some(v) => *v,
        None => u64::MAX,
    }
}

fn put(square: &mut [u64], p: u32, q: u32, v: u64) -> bool {
    match square.get_mut((p as usize).wrapping_mul(6).wrapping_add(q as usize)) {
        Some(old) => {
            let lower = v < *old;
            if lower {
                *old = v;
            }
            lower
        }
        None => false,
    }
}

fn most(square: &[u64], ps: &[u32], qs: &[u32]) -> u64 {
    let mut most = 0u64;
    for p in ps {
        for q in qs {
            most = most.max(at(square, *p, *q));
        }
    }
    most
}

fn end(square: &[u64], c: &Action) -> u64 {
    most(square, c.pre.as_slice(), c.pre.as_slice()).saturating_add(c.dur as u64)
}

fn by_one(square: &mut [u64], c: &Action, p: u32, q: u32) -> bool {
    let add = c.add.as_slice();
    if add.contains(&p) && add.contains(&q) {
        let v = end(square, c);
        return put(square, p, q, v);
    }
    false
}

fn beside(square: &mut [u64], c: &Action, p: u32, q: u32) -> bool {
    let add = c.add.as_slice();
    if add.contains(&p) && !add.contains(&q) && !c.dele.as_slice().contains(&q) {
        let pre = c.pre.as_slice();
        let begin = most(square, pre, pre)
            .max(most(square, pre, &[q]))
            .max(at(square, q, q));
        let v = begin.saturating_add(c.dur as u64);
        return put(square, p, q, v) | put(square, q, p, v);
    }
    false
}

fn by_two(square: &mut [u64], c: &Action, d: &Action, p: u32, q: u32) -> bool {
    if !interfere(c, d) && c.add.as_slice().contains(&p) && d.add.as_slice().contains(&q) {
        let ends = end(square, c).max(end(square, d));
        let pre = most(square, c.pre.as_slice(), d.pre.as_slice());
        let begin = most(square, c.pre.as_slice(), c.pre.as_slice())
            .max(most(square, d.pre.as_slice(), d.pre.as_slice()))
            .max(pre);
        let v = ends.max(begin.saturating_add(c.dur.min(d.dur) as u64));
        return put(square, p, q, v);
    }
    false
}

fn each_two(square: &mut [u64], actions: &[Action], c: &Action, p: u32, q: u32) -> bool {
    let mut moved = false;
    for d in actions {
        moved = by_two(square, c, d, p, q) | moved;
    }
    moved
}

fn each_action(square: &mut [u64], actions: &[Action], p: u32, q: u32) -> bool {
    let mut moved = false;
    for c in actions {
        let one = by_one(square, c, p, q) | beside(square, c, p, q);
        moved = each_two(square, actions, c, p, q) | one | moved;
    }
    moved
}

fn each_pair(square: &mut [u64], actions: &[Action]) -> bool {
    let mut moved = false;
    for p in 0..6u32 {
        for q in 0..6u32 {
            moved = each_action(square, actions, p, q) | moved;
        }
    }
    moved
}

fn reference(alloc: Global, task: &Task) -> Option<Vec<u64>> {
    let mut square = Vec::new(alloc);
    square.resize(36, u64::MAX).ok()?;
    for p in task.init() {
        for q in task.init() {
            put(&mut square, *p, *q, 0);
        }
    }
    for _ in 0..1000u32 {
        if !each_pair(&mut square, task.actions()) {
            return Some(square);
        }
    }
    None
}

fn agrees(alloc: Global, task: Option<Task>) -> Option<bool> {
    let task = task?;
    let pairs = solved(alloc, &task)?;
    let square = reference(alloc, &task)?;
    let mut same = true;
    for p in 0..pairs.atoms() {
        for q in 0..pairs.atoms() {
            same = number(pairs.get(p, q)) == at(&square, p, q) && same;
        }
    }
    Some(same)
}

fn goal_of_users(alloc: Global) -> Option<Span> {
    let pairs = solved(alloc, &three_users(alloc)?)?;
    if pairs.atoms() == 4 {
        Some(set_span(&pairs, &[1, 2, 3]))
    } else {
        None
    }
}

#[test]
fn values_of_small_tasks(rt: HostRuntime) {
    let alloc = rt.alloc();
    assert_eq!(rt; value(alloc, two_actions(alloc), 1, 2), Some(Span::At(8)));
    assert_eq!(rt; value(alloc, two_actions(alloc), 0, 2), Some(Span::Never));
    assert_eq!(rt; goal_of_users(alloc), Some(Span::At(4)));
    assert_eq!(rt; value(alloc, key(alloc), 1, 2), Some(Span::At(6)));
    assert_eq!(rt; value(alloc, side_by_side(alloc), 0, 1), Some(Span::At(10)));
}

#[test]
fn values_of_the_reference(rt: HostRuntime) {
    let alloc = rt.alloc();
    for seed in 0..12u32 {
        assert_eq!(rt; agrees(alloc, mixed(alloc, seed)), Some(true), "at {seed}");
    }
    assert_eq!(rt; agrees(alloc, key(alloc)), Some(true));
    assert_eq!(rt; agrees(alloc, three_users(alloc)), Some(true));
}
