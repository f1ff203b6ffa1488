//! The part of a task that its plans can use: reached atoms, the goal, and the actions over them.
#![tactic(auto)]

mod kept;
mod laws;
mod marking;
mod numbers;
mod pruning;
mod users;

pub use laws::{kept_part_keeps_plans, limits_are_exact, one_pruning, reached_is_least};
pub use pruning::{PruneError, Pruned, prune};
