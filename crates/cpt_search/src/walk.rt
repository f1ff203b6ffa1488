//! One tree, traversed depth first in a lent space.

ghost use Rattle.std.specs.Prelude.{◌≡◌, ◌≢◌, ℕ, ◌+◌, ◌-◌, ◌<◌, ◌≤◌, ◌^◌, ◌⊎◌, false, true, Bool, List, [], ◌∷◌, ◌++◌, length, map, take, Contains, OnOk, OnErr, IfOk, MatchResult};
ghost use Rattle.cpt_sheet.specs.declared.data.Decision.{Decision};
ghost use Rattle.cpt_sheet.specs.declared.data.NodeLine.TheVariants.{Narrow};
ghost use Rattle.cpt_tree.specs.Trees.{Node, choices, IsReached};
ghost use Rattle.cpt_tree.specs.Texts.{open_lines};
ghost use Rattle.cpt_search.specs.Frontiers.{stacked, frontier_of, IsTraversing, Visits};
ghost use Rattle.cpt_search.specs.Traversals.{IsTraversal, Advances, IsWithinNodes};

use crate::space::SearchSpace;
use crate::stack::Pending;
use cpt_sheet::{Decision, NodeLine, Step, Tree};
use cpt_task::{List, Memory};
use cpt_tree::Expansion;
use std::alloc::Global;

/// How the traversal of a tree ends.
#[derive(Debug, Drop)]
pub enum Traversal {
    /// At the first leaf, where the space stands.
    Found,
    /// The tree has no leaf: its text.
    Refuted(Tree),
    /// As many nodes as may be are visited, and some are open.
    Spent(Tree),
}

/// Takes decisions back until so many stand.
fn go_back<S: SearchSpace>(space: &mut S, depth: usize)
    requires { depth ≤ length (S.decisions space.old) }
    ensures problem { S.problem space.new ≡ S.problem space.old }
    ensures bound { S.at_bound space.new ≡ S.at_bound space.old }
    ensures used { S.used space.new ≡ S.used space.old }
    ensures decisions { S.decisions space.new ≡ take depth (S.decisions space.old) }
{
    while depth < space.depth() {
        space.retract();
    }
}

/// Writes the steps.
fn write_steps(lines: &mut Vec<NodeLine>, steps: &[Step]) -> Result<(), Memory>
    ensures { OnOk result (lines.new.items ≡ lines.old.items ++ map Narrow steps.now) }
{
    for step in steps {
        lines.push(NodeLine::Narrow(*step))?;
    }
    Ok(())
}

/// Pushes children at this depth onto the stack, the last one first, so that the first one is popped first.
fn push_children(
    waiting: &mut Vec<Pending>,
    depth: usize,
    decisions: &[Decision],
) -> Result<(), Memory>
    ensures { OnOk result (waiting.new.items ≡ waiting.old.items ++ stacked depth decisions.now) }
{
    let mut place = decisions.len();
    while 0 < place {
        place -= 1;
        let decision = decisions[place];
        waiting.push(Pending { depth, decision })?;
    }
    Ok(())
}

/// Visits the node where the space stands, and says whether it is a leaf.
fn visit<S: SearchSpace>(
    alloc: Global,
    space: &S,
    lines: &mut Vec<NodeLine>,
    waiting: &mut Vec<Pending>,
) -> Result<bool, Memory>
    ensures { IfOk result (λ leaf. Visits (S.search_tree (S.problem space.now) (S.at_bound space.now)) (S.node_runs (S.problem space.now) (S.at_bound space.now)) (S.decisions space.now)
        lines.old.items waiting.old.items leaf lines.new.items waiting.new.items) }
{
    match space.expand(alloc)? {
        Expansion::Leaf => Ok(true),
        Expansion::Closed => {
            write_steps(lines, space.steps())?;
            lines.push(NodeLine::Close)?;
            Ok(false)
        }
        Expansion::Branched(flaw, decisions) => {
            write_steps(lines, space.steps())?;
            lines.push(NodeLine::Branch(flaw))?;
            push_children(waiting, space.depth(), decisions.as_slice())?;
            Ok(false)
        }
    }
}

/// A tree in the making: its lines, the children that wait, and how many nodes are visited.
#[derive(Debug, Drop)]
struct Progress {
    lines: Vec<NodeLine>,
    waiting: Vec<Pending>,
    visited: u64,
}

/// Goes on to the child that waits next and visits it. Says whether it is a leaf.
fn advance<S: SearchSpace>(
    alloc: Global,
    space: &mut S,
    progress: &mut Progress,
    next: Pending,
) -> Result<bool, Memory>
    requires at { IsTraversing (S.search_tree (S.problem space.old) (S.at_bound space.old)) (S.node_runs (S.problem space.old) (S.at_bound space.old)) progress.old.visited (S.decisions space.old)
        progress.old.lines.items (progress.old.waiting.items ++ next ∷ []) }
    requires few { S.used space.old < 2 ^ 64 - 1 }
    requires small { progress.old.visited < 4000000000 }
    ensures problem { S.problem space.new ≡ S.problem space.old }
    ensures bound { S.at_bound space.new ≡ S.at_bound space.old }
    ensures used { S.used space.new ≤ S.used space.old + 1 }
    ensures visited { OnOk result ((progress.new.visited ≡ progress.old.visited + 1) × (S.used space.new ≡ S.used space.old + 1)) }
    ensures advanced { IfOk result (λ leaf. Advances (S.search_tree (S.problem space.old) (S.at_bound space.old)) (S.node_runs (S.problem space.old) (S.at_bound space.old)) progress.new.visited (S.decisions space.new)
        progress.new.lines.items progress.new.waiting.items leaf) }
{
    go_back(space, next.depth);
    space.decide(next.decision)?;
    progress.lines.push(NodeLine::Child(next.decision))?;
    let leaf = visit(alloc, space, &mut progress.lines, &mut progress.waiting)?;
    progress.visited += 1;
    Ok(leaf)
}

/// Writes each child that waits as an open node.
fn leave_open(lines: &mut Vec<NodeLine>, waiting: &mut Vec<Pending>) -> Result<(), Memory>
    ensures { OnOk result ((ds : Node) → lines.new.items ≡ lines.old.items ++ open_lines (frontier_of ds waiting.old.items)) }
{
    while let Some(next) = waiting.pop() {
        lines.push(NodeLine::Child(next.decision))?;
        lines.push(NodeLine::OpenNode)?;
    }
    Ok(())
}

/// Visits the tree depth first from its root, where the space stands: at most so many nodes, and none after the first
/// leaf.
pub fn traverse<S: SearchSpace>(
    alloc: Global,
    space: &mut S,
    nodes: u64,
) -> Result<Traversal, Memory>
    requires root { S.decisions space.old ≡ [] }
    requires some { 1 ≤ nodes }
    requires few { nodes ≤ 4000000000 }
    requires used { S.used space.old + nodes < 2 ^ 64 }
    ensures problem { S.problem space.new ≡ S.problem space.old }
    ensures bound { S.at_bound space.new ≡ S.at_bound space.old }
    ensures used { IsWithinNodes (S.search_tree (S.problem space.old) (S.at_bound space.old)) nodes (S.used space.old) (S.used space.new) }
    ensures walked { IfOk result (IsTraversal (S.search_tree (S.problem space.old) (S.at_bound space.old)) (S.node_runs (S.problem space.old) (S.at_bound space.old)) nodes (S.decisions space.new)) }
{
    let mut progress = Progress {
        lines: Vec::new(alloc),
        waiting: Vec::new(alloc),
        visited: 0,
    };
    if visit(alloc, space, &mut progress.lines, &mut progress.waiting)? {
        return Ok(Traversal::Found);
    }
    progress.visited = 1;
    'nodes: while progress.visited < nodes {
        let Some(next) = progress.waiting.pop() else {
            return Ok(Traversal::Refuted(Tree {
                lines: List::from_vec(progress.lines),
            }));
        };
        if advance(alloc, space, &mut progress, next)? {
            return Ok(Traversal::Found);
        }
    }
    if progress.waiting.is_empty() {
        return Ok(Traversal::Refuted(Tree {
            lines: List::from_vec(progress.lines),
        }));
    }
    leave_open(&mut progress.lines, &mut progress.waiting)?;
    Ok(Traversal::Spent(Tree {
        lines: List::from_vec(progress.lines),
    }))
}
