//! The command `solve`.
#![tactic(auto)]

mod laws;
mod lines;
mod searching;
mod solving;

pub use laws::one_outcome_of_task;
pub use lines::{outcome_reply, outcome_status};
pub use searching::{best_tables, outcome_of_task};
pub use solving::solve;
