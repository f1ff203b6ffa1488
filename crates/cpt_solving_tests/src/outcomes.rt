//! What the search finds for small tasks, worked out by hand.

use crate::found::{Ending, Found, expect_lines};
use crate::solve::{best_tables, solve};
use crate::tasks::{
    GOAL_AT_FIRST, KEY, NEVER_BOTH, NEVER_READY, NOTHING_ADDS, Numbers, ONE_AFTER_THE_OTHER,
    ONE_LONG_ACTION, ONE_TRUCK, RESOURCE, SIDE_BY_SIDE, task_of,
};
use cpt_sheet::{Decision, Flaw, NodeLine};
use cpt_task::Occ;
use std::alloc::Global;
use std::process::Abort;
use std::test::Fail;

fn found(alloc: Global, numbers: &Numbers, max: u64, nodes: u64) -> Option<Found> {
    let task = task_of(alloc, numbers)?;
    let tables = best_tables(alloc, &task)?;
    solve(alloc, &task, &tables, max, nodes)
}

/// A task, the greatest bound and the budget of nodes; and how the search ends, with its number and its plan as pairs of
/// start and action.
type Row = (Numbers, u64, u64, Ending, u64, &'static [(u64, u32)]);

fn is_plan(plan: &[Occ], wanted: &[(u64, u32)]) -> bool {
    plan.len() == wanted.len()
        && plan
            .iter()
            .zip(wanted)
            .all(|(occ, w)| occ.start == w.0 && occ.act == w.1)
}

/// Whether the search ended as the row says.
fn is_row(found: &Found, row: &Row) -> bool {
    found.ending == row.3 && found.number == row.4 && is_plan(found.plan.as_slice(), row.5)
}

fn expect_row(rt: &impl Abort, alloc: Global, place: usize, row: &Row) -> Result<(), Fail> {
    let Some(found) = found(alloc, &row.0, row.1, row.2) else {
        return Err("no outcome")?;
    };
    assert!(rt; is_row(&found, row), "row {place}");
    Ok(())
}

fn expect_rows(rt: &impl Abort, alloc: Global, rows: &[Row]) -> Result<(), Fail> {
    for (place, row) in rows.iter().enumerate() {
        expect_row(rt, alloc, place, row)?;
    }
    Ok(())
}

const OPTIMAL: &[Row] = &[
    (GOAL_AT_FIRST, 1000, 1000, Ending::Optimal, 0, &[]),
    // Nothing is searched, so no bound and no budget is too small.
    (GOAL_AT_FIRST, 0, 1, Ending::Optimal, 0, &[]),
    (
        ONE_AFTER_THE_OTHER,
        1000,
        1000,
        Ending::Optimal,
        8,
        &[(0, 0), (5, 1)],
    ),
    (
        RESOURCE,
        6,
        1000,
        Ending::Optimal,
        6,
        &[(0, 0), (2, 1), (4, 2)],
    ),
    (
        KEY,
        1000,
        1000,
        Ending::Optimal,
        6,
        &[(0, 0), (1, 2), (3, 0), (4, 1)],
    ),
    // The leaf is the last node of the budget.
    (
        KEY,
        6,
        6,
        Ending::Optimal,
        6,
        &[(0, 0), (1, 2), (3, 0), (4, 1)],
    ),
    (
        SIDE_BY_SIDE,
        1000,
        1000,
        Ending::Optimal,
        11,
        &[(0, 0), (0, 1), (10, 2)],
    ),
    (
        ONE_TRUCK,
        1000,
        1000,
        Ending::Optimal,
        5,
        &[(0, 2), (0, 6), (1, 0), (4, 5), (4, 9)],
    ),
    (
        ONE_LONG_ACTION,
        100_000,
        1000,
        Ending::Optimal,
        100_000,
        &[(0, 0)],
    ),
];

const NONE: &[Row] = &[
    // The pair table gives the goals 4; the bounds 4 and 5 are searched.
    (RESOURCE, 5, 1000, Ending::NoneUpTo, 0, &[]),
    (RESOURCE, 4, 1000, Ending::NoneUpTo, 0, &[]),
    // Each tree has as many nodes as the budget.
    (RESOURCE, 5, 10, Ending::NoneUpTo, 0, &[]),
    (RESOURCE, 3, 1, Ending::NoneUpTo, 0, &[]),
    (KEY, 0, 1000, Ending::NoneUpTo, 0, &[]),
    (ONE_LONG_ACTION, 1000, 1000, Ending::NoneUpTo, 0, &[]),
    (NOTHING_ADDS, 1000, 1000, Ending::Never, 0, &[]),
    (NEVER_READY, 1000, 1000, Ending::Never, 0, &[]),
    (NEVER_BOTH, 0, 1, Ending::Never, 0, &[]),
];

const SPENT: &[Row] = &[
    (RESOURCE, 1000, 1, Ending::Spent, 3, &[]),
    (ONE_AFTER_THE_OTHER, 1000, 1, Ending::Spent, 7, &[]),
    (KEY, 6, 1, Ending::Spent, 5, &[]),
    // One node is left, or the leaf is the first node behind the budget.
    (RESOURCE, 6, 9, Ending::Spent, 3, &[]),
    (KEY, 6, 5, Ending::Spent, 5, &[]),
];

#[test]
fn finds_plans(rt: HostRuntime) -> Result<(), Fail> {
    expect_rows(&rt, rt.alloc(), OPTIMAL)
}

#[test]
fn finds_no_plan(rt: HostRuntime) -> Result<(), Fail> {
    expect_rows(&rt, rt.alloc(), NONE)
}

#[test]
fn spends_a_budget(rt: HostRuntime) -> Result<(), Fail> {
    expect_rows(&rt, rt.alloc(), SPENT)
}

const PARTIAL: &[NodeLine] = &[
    NodeLine::Branch(Flaw::OpenNeed { tok: 1, pre: 1 }),
    NodeLine::Child(Decision::Bring {
        tok: 1,
        pre: 1,
        act: 0,
    }),
    NodeLine::OpenNode,
];

#[test]
fn leaves_the_children_of_the_root_open(rt: HostRuntime) -> Result<(), Fail> {
    let Some(found) = found(rt.alloc(), &RESOURCE, 1000, 1) else {
        return Err("no outcome")?;
    };
    expect_lines(&rt, &found, &[NodeLine::Close], PARTIAL)
}
