//! Where a table is not admissible.

use cpt_task::Span;

/// Two atoms whose value is too great: the least such pair `p <= q`, and the greatest value that they may have.
#[derive(Clone, Copy, Debug, PartialEq, Eq)]
pub struct PairFault {
    pub p: u32,
    pub q: u32,
    pub most: Span,
}

/// An action and an atom whose distance is too great: the least such, and the greatest distance that they may have.
#[derive(Clone, Copy, Debug, PartialEq, Eq)]
pub struct DistFault {
    pub act: u32,
    pub atom: u32,
    pub most: Span,
}
