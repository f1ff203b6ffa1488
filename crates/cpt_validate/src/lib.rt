//! The commands `validate-task` and `validate`.
#![tactic(auto)]

mod validating;
mod verdicts;

pub use validating::{validate, validate_task};
pub use verdicts::verdict_reply;
