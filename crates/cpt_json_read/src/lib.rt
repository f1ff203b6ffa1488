//! JSON texts read as tasks and as plans.
#![tactic(auto)]

mod checks;
mod forms;
mod making;
mod members;
mod names;
mod numbers;
mod plans;
mod tasks;
mod values;

pub use plans::read_plan_json;
pub use tasks::read_task_json;
