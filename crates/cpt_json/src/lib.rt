//! Tasks, plans and reports as JSON texts: the two readers and the two writers.
#![tactic(auto)]

pub use cpt_json_form::{JsonPlanError, JsonTaskError};
pub use cpt_json_read::{read_plan_json, read_task_json};
pub use cpt_json_write::{any_task_json, duration_json, report_json, task_json};
