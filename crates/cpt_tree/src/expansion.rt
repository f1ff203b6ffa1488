//! How a node of a search tree expands.

use cpt_sheet::{Decision, Flaw};
use cpt_task::List;

/// How a node of a search tree expands.
#[derive(Debug, Drop)]
pub enum Expansion {
    /// It is dead, and has no children.
    Closed,
    /// It has no flaw, and no children.
    Leaf,
    /// It is branched on its first flaw. Each of these decisions, in order, leads to a child.
    Branched(Flaw, List<Decision>),
}
