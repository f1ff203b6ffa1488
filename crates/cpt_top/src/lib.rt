//! The program's one call.
#![tactic(auto)]

mod laws;
mod running;

pub use cpt_files::KeptNames;
pub use laws::one_answer;
pub use running::run;
