//! What files come to: texts, tasks, domains and problems with the kept part of their task, plans.
#![tactic(auto)]

mod accepted;
mod files;
mod names;
mod problems;

pub use accepted::{Accepted, accepted_in};
pub use files::{plan_in, task_in, text_in};
pub use names::KeptNames;
pub use problems::Source;
