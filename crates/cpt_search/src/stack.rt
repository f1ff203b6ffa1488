//! The stack of a traversal.

use cpt_sheet::Decision;

/// A child that is still to be visited: how many of the decisions that stand lead to its parent,
/// and its own decision.
#[derive(Clone, Copy, Debug)]
pub struct Pending {
    pub depth: usize,
    pub decision: Decision,
}
