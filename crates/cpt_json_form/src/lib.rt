//! What JSON texts say of tasks and of plans.
#![tactic(auto)]

mod errors;
mod item;

pub use errors::{JsonPlanError, JsonTaskError, Misread};
pub use item::PlanItem;
