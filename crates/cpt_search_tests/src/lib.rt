//! Tests of the search, on a small search space.
#![tactic(auto)]

mod small;
#[cfg(test)]
mod tests;

pub use small::SmallSpace;
