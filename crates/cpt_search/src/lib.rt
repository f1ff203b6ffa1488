//! The search for a plan of least makespan: the trees of one bound after another, each traversed depth first.
#![tactic(auto)]

mod raise;
mod searching;
mod solving;
mod space;
mod stack;
mod walk;

pub use raise::{Raised, close_alone, raise_bound};
pub use searching::{Outcome, search};
pub use space::SearchSpace;
pub use walk::{Traversal, traverse};
