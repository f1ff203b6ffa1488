//! Tables of lower bounds: how early two atoms can hold together, and how long after an action an atom can hold.
#![tactic(auto)]

mod dist_table;
mod dists;
mod faults;
mod laws;
mod least;
mod pair_table;
mod pairs;
mod search;
mod sets;
mod sides;
mod spans;
mod tables;

pub use dist_table::DistTable;
pub use dists::{admissible_dists, is_at_once, limit_after};
pub use faults::{DistFault, PairFault};
pub use laws::{dists_bound, one_best, pairs_bound, zero_goals_hold};
pub use pair_table::PairTable;
pub use pairs::admissible_pairs;
pub use sets::{dist_to, set_span, span_across, span_with};
pub use sides::{has, leaves, limit_of_one, limit_of_two, limit_with, served_action};
pub use spans::{add_spans, exceeds, greater_span, lesser_span};
pub use tables::Tables;
