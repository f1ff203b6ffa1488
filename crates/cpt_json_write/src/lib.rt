//! Tasks and reports written as JSON texts.
#![tactic(auto)]

mod reports;
mod tasks;
mod values;

pub use reports::{duration_json, report_json};
pub use tasks::{any_task_json, task_json};
