//! The commands `tighten` and `explain`.
#![tactic(auto)]

mod explaining;
mod faults;
mod text;
mod tightening;

pub use explaining::explain_plan;
pub use tightening::tighten_plan;
