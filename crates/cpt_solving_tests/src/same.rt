//! The search beside the plain recursion: the same outcome, plan, branches, children, closings and open nodes.

ghost use Rattle.cpt_sheet.specs.Gaps.{FitsTask};

use crate::found::{Found, expect_same, nodes_of};
use crate::plain::searched;
use crate::solve::{best_tables, solve};
use crate::tasks::{
    KEY, Numbers, ONE_AFTER_THE_OTHER, ONE_TRUCK, RESOURCE, SIDE_BY_SIDE, TWO_TRUCKS, task_of,
};
use cpt_tables::{Tables, set_span};
use cpt_task::{Span, Task};
use std::alloc::Global;
use std::process::Abort;
use std::test::Fail;

/// The first moment at which the goal can hold.
fn first_moment(task: &Task, tables: &Tables) -> Span
    requires fits { FitsTask task.now tables.now }
{
    let _ = task.atoms();
    set_span(&tables.pairs, task.goal())
}

/// What the search finds, and what the recursion finds.
fn both(alloc: Global, task: &Task, max: u64, nodes: u64) -> Option<(Found, Found)> {
    let tables = best_tables(alloc, task)?;
    let Span::At(first) = first_moment(task, &tables) else {
        return None;
    };
    let found = solve(alloc, task, &tables, max, nodes)?;
    Some((found, searched(alloc, task, &tables, first, max, nodes)?))
}

/// A task, the greatest bound and the budget of nodes; and how many nodes the trees have that come with the outcome.
type Row = (Numbers, u64, u64, u64, u64);

const SMALL: &[Row] = &[
    (ONE_AFTER_THE_OTHER, 20, 1000, 1, 0),
    (ONE_AFTER_THE_OTHER, 20, 2, 1, 2),
    (KEY, 6, 1000, 1, 0),
    // The leaf is the last node of the budget, or the first one behind it.
    (KEY, 6, 6, 1, 0),
    (KEY, 6, 5, 1, 5),
    (SIDE_BY_SIDE, 20, 1000, 1, 0),
];

const SHARED: &[Row] = &[
    // The bounds 4 and 5 are refuted, and the leaf at the bound 6 is the node of number 6.
    (RESOURCE, 4, 1000, 10, 0),
    (RESOURCE, 6, 1000, 10, 0),
    (RESOURCE, 6, 10, 10, 0),
    (RESOURCE, 6, 9, 1, 9),
    (RESOURCE, 6, 4, 1, 4),
];

const TRUCKS: &[Row] = &[(ONE_TRUCK, 20, 1000, 1, 0), (TWO_TRUCKS, 5, 12, 1, 0)];

/// Whether the trees have as many nodes as the row says.
fn is_row(found: &Found, row: &Row) -> bool {
    nodes_of(found.full.as_slice()) == row.3 && nodes_of(found.partial.as_slice()) == row.4
}

fn expect_row(rt: &impl Abort, alloc: Global, place: usize, row: &Row) -> Result<(), Fail> {
    let Some(task) = task_of(alloc, &row.0) else {
        return Err("no task")?;
    };
    let Some((found, plain)) = both(alloc, &task, row.1, row.2) else {
        return Err("no outcome")?;
    };
    expect_same(rt, &found, &plain)?;
    assert!(rt;
        is_row(&found, row) && found.visited <= plain.visited,
        "row {place}"
    );
    Ok(())
}

/// Each outcome is that of the recursion, and no more calls are used than it visits nodes.
fn expect_rows(rt: &impl Abort, alloc: Global, rows: &[Row]) -> Result<(), Fail> {
    for (place, row) in rows.iter().enumerate() {
        expect_row(rt, alloc, place, row)?;
    }
    Ok(())
}

#[test]
fn finds_what_a_recursion_finds(rt: HostRuntime) -> Result<(), Fail> {
    expect_rows(&rt, rt.alloc(), SMALL)
}

#[test]
fn finds_it_where_a_resource_is_shared(rt: HostRuntime) -> Result<(), Fail> {
    expect_rows(&rt, rt.alloc(), SHARED)
}

#[test]
fn finds_it_with_trucks(rt: HostRuntime) -> Result<(), Fail> {
    expect_rows(&rt, rt.alloc(), TRUCKS)
}
