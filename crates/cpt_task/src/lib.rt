//! Ground temporal tasks, plans, and the judge of plans.
#![tactic(auto)]

mod ids;
mod laws;
mod limits;
mod list;
mod memory;
mod plan;
mod register;
mod span;
mod steps;
mod task;
mod timeline;

pub use ids::Ids;
pub use laws::{no_plan_by_refutation, one_verdict, optimality_by_refutation};
pub use limits::{
    ACTION_LIMIT, ATOM_LIMIT, CERTIFICATE_LIMIT, CONDITION_LIMIT, DURATION_LIMIT, FILE_LIMIT,
};
pub use list::{List, Name};
pub use memory::{Limit, Memory};
pub use plan::{Occ, Verdict, interfere, judge};
pub use span::Span;
pub use steps::Steps;
pub use task::{Action, BuildError, Task};
pub use timeline::{action_at, contains, end_at, holds, is_added_at, makespan_of};
