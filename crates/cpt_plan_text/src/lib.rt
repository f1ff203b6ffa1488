//! Plans as text: read leniently, and printed in one spelling.
#![tactic(auto)]

mod laws;
mod line;
mod printing;
mod reading;
mod roster;

pub use laws::{
    faults_come_in_order, letter_case_is_ignored, lines_by_parts, plans_have_one_text,
    printed_plans_read_back, tasks_find_first, tasks_know_actions,
};
pub use printing::{print_plan, spelling_of, text_of};
pub use reading::{PlanText, PlanTextError, read_plan};
pub use roster::{Found, Roster};
