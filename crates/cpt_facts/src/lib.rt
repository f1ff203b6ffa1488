//! What a problem says of a domain.
#![tactic(auto)]

mod problem;

pub use problem::{Fact, Problem, Valued};
