//! Greatest distance tables: known values of a small task, and a plain reference.

ghost use Rattle.std.specs.Prelude.{◌≡◌, ◌<◌, IfSome, length};
ghost use Rattle.cpt_tables.specs.Spans.{IsBelow};
ghost use Rattle.cpt_tables.specs.Shapes.{FitsPairs};

use crate::tasks::{mixed, number, side_by_side};
use cpt_dist::dist_table;
use cpt_tables::{DistTable, PairTable};
use cpt_task::{Action, Span, Task};
use std::alloc::Global;

// A pair table of the task's size with this value everywhere.
fn pairs(alloc: Global, task: &Task, value: Span) -> Option<PairTable>
    requires { IsBelow 1000 value }
    ensures { IfSome result (FitsPairs task.now) }
{
    let n = task.atoms().len();
    if n > 2048 {
        return None;
    }
    PairTable::filled(alloc, n as u32, value).ok()
}

fn solved(alloc: Global, task: &Task, value: Span) -> Option<DistTable>
    requires { IsBelow 1000 value }
{
    let pairs = pairs(alloc, task, value)?;
    if task.atoms().len() > 2048 || task.actions().len() > 4096 {
        return None;
    }
    dist_table(alloc, task, &pairs).ok()
}

fn value(alloc: Global, task: Option<Task>, together: Span, a: u32, p: u32) -> Option<Span>
    requires { IsBelow 1000 together }
{
    let dists = solved(alloc, &task?, together)?;
    if a < dists.actions() && p < dists.atoms() {
        Some(dists.get(a, p))
    } else {
        None
    }
}

// The plain reference for one action: a value for each atom, of which the greatest is for never.
fn at(row: &[u64], p: u32) -> u64 {
    match row.get(p as usize) {
        Some(v) => *v,
        None => u64::MAX,
    }
}

fn put(row: &mut [u64], p: u32, v: u64) -> bool {
    match row.get_mut(p as usize) {
        Some(old) => {
            let lower = v < *old;
            if lower {
                *old = v;
            }
            lower
        }
        None => false,
    }
}

fn is_at_once(action: &Action, together: bool, p: u32) -> bool {
    let add = action.add.as_slice();
    if add.contains(&p) {
        return true;
    }
    !action.dele.as_slice().contains(&p) && (together || add.is_empty())
}

fn end(row: &[u64], c: &Action) -> u64 {
    let mut most = 0u64;
    for p in c.pre.as_slice() {
        most = most.max(at(row, *p));
    }
    most.saturating_add(c.dur as u64)
}

fn by_action(row: &mut [u64], c: &Action) -> bool {
    let limit = end(row, c);
    let mut moved = false;
    for p in c.add.as_slice() {
        moved = put(row, *p, limit) | moved;
    }
    moved
}

fn by_actions(row: &mut [u64], actions: &[Action]) -> bool {
    let mut moved = false;
    for c in actions {
        moved = by_action(row, c) | moved;
    }
    moved
}

fn reference(alloc: Global, task: &Task, together: bool, a: u32) -> Option<Vec<u64>> {
    let mut row = Vec::new(alloc);
    row.resize(6, u64::MAX).ok()?;
    let action = task.actions().get(a as usize)?;
    for p in 0..6u32 {
        if is_at_once(action, together, p) {
            put(&mut row, p, 0);
        }
    }
    for _ in 0..1000u32 {
        if !by_actions(&mut row, task.actions()) {
            return Some(row);
        }
    }
    None
}

fn agrees(alloc: Global, task: Option<Task>, value: Span) -> Option<bool>
    requires { IsBelow 1000 value }
{
    let task = task?;
    let dists = solved(alloc, &task, value)?;
    let together = value != Span::Never;
    let mut same = true;
    for a in 0..dists.actions() {
        let row = reference(alloc, &task, together, a)?;
        for p in 0..dists.atoms() {
            same = number(dists.get(a, p)) == at(&row, p) && same;
        }
    }
    Some(same)
}

#[test]
fn values_of_a_small_task(rt: HostRuntime) {
    let alloc = rt.alloc();
    assert_eq!(rt;
        value(alloc, side_by_side(alloc), Span::At(10), 1, 0),
        Some(Span::At(0))
    );
    assert_eq!(rt;
        value(alloc, side_by_side(alloc), Span::Never, 1, 0),
        Some(Span::At(10))
    );
    assert_eq!(rt;
        value(alloc, side_by_side(alloc), Span::Never, 1, 2),
        Some(Span::At(11))
    );
}

#[test]
fn values_of_the_reference(rt: HostRuntime) {
    let alloc = rt.alloc();
    for seed in 0..12u32 {
        assert_eq!(rt;
            agrees(alloc, mixed(alloc, seed), Span::Never),
            Some(true),
            "at {seed}"
        );
        assert_eq!(rt;
            agrees(alloc, mixed(alloc, seed), Span::At(3)),
            Some(true),
            "at {seed}"
        );
    }
}
