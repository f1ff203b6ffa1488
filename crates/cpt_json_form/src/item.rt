//! Items of plans.

use cpt_task::Name;

/// An item of a plan in its JSON form: the name of an action, when it starts, and how long it lasts where that is said.
#[derive(Drop)]
pub struct PlanItem {
    pub name: Name,
    pub start: u64,
    pub dur: Option<u64>,
}
