//! What the proposals of the rules share: when a store may be asked for a step, and which steps the rules have.
#![tactic(auto)]

mod values;

pub use values::{deletes_of, is_sooner};
