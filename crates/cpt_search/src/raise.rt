//! The trees of one bound after another.

ghost use Rattle.std.specs.Prelude.{◌≡◌, ℕ, ◌+◌, ◌-◌, ◌<◌, ◌≤◌, ◌^◌, List, [], ◌∷◌, IfOk};
ghost use Rattle.cpt_sheet.specs.declared.data.NodeLine.TheVariants.{Close};
ghost use Rattle.cpt_search.specs.Raises.{Raises, IsWithinVisited, StandsAt};

use crate::space::SearchSpace;
use crate::walk::{Traversal, traverse};
use cpt_sheet::{NodeLine, Tree};
use cpt_task::{List, Memory};
use std::alloc::Global;

/// How a search through the bounds ends.
#[derive(Debug, Drop)]
pub enum Raised {
    /// At the first leaf, where the space stands, with the tree of the bound below.
    Found {
        bound: u64,
        below: Tree,
    },
    /// No tree has a leaf; with the tree of the greatest bound.
    Refuted(Tree),
    /// The tree of the next bound is too large, with the trees of both.
    Spent {
        refuted: u64,
        full: Tree,
        partial: Tree,
    },
}

/// The tree of a bound at which the root is dead already.
pub fn close_alone(alloc: Global) -> Result<Tree, Memory>
    ensures { IfOk result (λ tree. tree.lines ≡ Close ∷ []) }
{
    let mut lines = Vec::new(alloc);
    lines.push(NodeLine::Close)?;
    Ok(Tree {
        lines: List::from_vec(lines),
    })
}

/// Visits the trees of the bounds in order, until one has a leaf or is too large.
pub fn raise_bound<S: SearchSpace>(
    alloc: Global,
    space: &mut S,
    first: u64,
    most: u64,
    nodes: u64,
) -> Result<Raised, Memory>
    requires some { 1 ≤ nodes }
    requires few { nodes ≤ 4000000000 }
    requires positive { 1 ≤ first }
    requires ordered { first ≤ most }
    requires small { most ≤ 1000000 }
    requires used { S.used space.old ≤ 2 ^ 63 }
    ensures problem { S.problem space.new ≡ S.problem space.old }
    ensures used { IsWithinVisited (S.search_tree (S.problem space.old)) nodes first most (S.used space.old) (S.used space.new) }
    ensures bound { IfOk result (StandsAt (S.at_bound space.new)) }
    ensures raised { IfOk result (Raises (S.search_tree (S.problem space.old)) (S.node_runs (S.problem space.old)) nodes first most (S.decisions space.new)) }
{
    let mut below = close_alone(alloc)?;
    for bound in first..most + 1 {
        space.reopen(bound)?;
        match traverse(alloc, space, nodes)? {
            Traversal::Found => return Ok(Raised::Found { bound, below }),
            Traversal::Refuted(tree) => below = tree,
            Traversal::Spent(partial) => {
                return Ok(Raised::Spent {
                    refuted: bound - 1,
                    full: below,
                    partial,
                });
            }
        }
    }
    Ok(Raised::Refuted(below))
}
