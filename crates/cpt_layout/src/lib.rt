//! Which cell holds what of a partial plan.
#![tactic(auto)]

mod layout;

pub use layout::{Layout, place_of};
