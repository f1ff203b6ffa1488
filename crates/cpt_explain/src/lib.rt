//! Each fault of a plan.
#![tactic(auto)]

mod finding;
mod gaps;
mod laws;

pub use finding::faults;
pub use laws::{no_faults_where_valid, one_fault_list};
