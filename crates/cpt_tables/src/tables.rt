//! The two tables of a task.

use crate::dist_table::DistTable;
use crate::pair_table::PairTable;

/// A pair table, and a distance table over it.
#[derive(Debug, Drop)]
pub struct Tables {
    pub pairs: PairTable,
    pub dists: DistTable,
}
