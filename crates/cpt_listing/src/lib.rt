//! The command `ground`.
#![tactic(auto)]

mod listing;

pub use listing::ground;
