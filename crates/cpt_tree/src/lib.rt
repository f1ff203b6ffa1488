//! Search trees, traversed depth first: what a tree is, the outcome of a search, and the texts of trees.
#![tactic(auto)]

mod expansion;

pub use expansion::Expansion;
