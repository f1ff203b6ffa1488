//! What a search finds, without the steps of its trees.

use cpt_search::Outcome;
use cpt_sheet::{NodeLine, Tree};
use cpt_task::Occ;
use std::alloc::Global;
use std::process::Abort;
use std::test::Fail;

/// How a search ends.
#[derive(Clone, Copy, Debug, PartialEq, Eq)]
pub enum Ending {
    Optimal,
    NoneUpTo,
    Never,
    Spent,
}

/// How a search ends, with the makespan or the bound that is refuted (0 for none), the plan, and the lines of the tree
/// and of the partial tree without their steps; and how many nodes are visited.
#[derive(Drop)]
pub struct Found {
    pub ending: Ending,
    pub number: u64,
    pub plan: Vec<Occ>,
    pub full: Vec<NodeLine>,
    pub partial: Vec<NodeLine>,
    pub visited: u64,
}

/// The lines without the steps.
pub fn bare(alloc: Global, tree: Option<&Tree>) -> Option<Vec<NodeLine>> {
    let mut lines = Vec::new(alloc);
    let Some(tree) = tree else {
        return Some(lines);
    };
    for line in tree.lines.as_slice() {
        if !matches!(line, NodeLine::Narrow(_)) {
            lines.push(*line).ok()?;
        }
    }
    Some(lines)
}

/// A plan of least makespan, with the tree of the bound below.
fn optimal(alloc: Global, plan: &[Occ], makespan: u64, tree: Option<&Tree>) -> Option<Found> {
    Some(Found {
        ending: Ending::Optimal,
        number: makespan,
        plan: Vec::from_slice(alloc, plan).ok()?,
        full: bare(alloc, tree)?,
        partial: Vec::new(alloc),
        visited: 0,
    })
}

/// No plan, with this tree.
fn none(alloc: Global, ending: Ending, tree: Option<&Tree>) -> Option<Found> {
    Some(Found {
        ending,
        number: 0,
        plan: Vec::new(alloc),
        full: bare(alloc, tree)?,
        partial: Vec::new(alloc),
        visited: 0,
    })
}

/// A spent budget, with both trees.
fn spent(alloc: Global, refuted: u64, full: &Tree, partial: &Tree) -> Option<Found> {
    Some(Found {
        ending: Ending::Spent,
        number: refuted,
        plan: Vec::new(alloc),
        full: bare(alloc, Some(full))?,
        partial: bare(alloc, Some(partial))?,
        visited: 0,
    })
}

/// What the outcome says, but for the nodes that are visited.
fn found_of(alloc: Global, outcome: &Outcome) -> Option<Found> {
    match outcome {
        Outcome::Optimal {
            plan,
            makespan,
            tree,
        } => optimal(alloc, plan.as_slice(), *makespan, tree.as_ref()),
        Outcome::NoneUpTo { tree } => none(alloc, Ending::NoneUpTo, Some(tree)),
        Outcome::Never => none(alloc, Ending::Never, None),
        Outcome::Spent {
            refuted,
            full,
            partial,
        } => spent(alloc, *refuted, full, partial),
    }
}

/// What the outcome says, found with so many nodes visited.
pub fn found_by(alloc: Global, outcome: &Outcome, visited: u64) -> Option<Found> {
    let mut found = found_of(alloc, outcome)?;
    found.visited = visited;
    Some(found)
}

/// How many lines close or branch a node.
pub fn nodes_of(lines: &[NodeLine]) -> u64 {
    let mut count = 0u64;
    for line in lines {
        if matches!(line, NodeLine::Close | NodeLine::Branch(_)) {
            count = count.wrapping_add(1);
        }
    }
    count
}

/// Whether both end the same way, with the same plan.
fn ends_the_same(found: &Found, wanted: &Found) -> bool {
    found.ending == wanted.ending
        && found.number == wanted.number
        && found.plan.as_slice() == wanted.plan.as_slice()
}

fn has_lines(found: &Found, full: &[NodeLine], partial: &[NodeLine]) -> bool {
    found.full.as_slice() == full && found.partial.as_slice() == partial
}

/// Compares the lines of both trees.
pub fn expect_lines(
    rt: &impl Abort,
    found: &Found,
    full: &[NodeLine],
    partial: &[NodeLine],
) -> Result<(), Fail> {
    assert!(rt; has_lines(found, full, partial), "other lines");
    Ok(())
}

/// Compares what two searches found.
pub fn expect_same(rt: &impl Abort, found: &Found, wanted: &Found) -> Result<(), Fail> {
    assert!(rt; ends_the_same(found, wanted), "another ending");
    expect_lines(rt, found, wanted.full.as_slice(), wanted.partial.as_slice())
}
