//! How many lines of each kind the trees of a certificate have.
#![tactic(auto)]

mod counting;
mod kinds;

pub use counting::counts;
pub use kinds::Counts;
