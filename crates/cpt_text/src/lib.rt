//! Tasks and plans as text: the two readers and the two printers.
#![tactic(auto)]

pub use cpt_plan_text::{
    Found, PlanText, PlanTextError, Roster, faults_come_in_order, letter_case_is_ignored,
    lines_by_parts, plans_have_one_text, print_plan, printed_plans_read_back, read_plan,
    tasks_find_first, tasks_know_actions,
};
pub use cpt_task_text::{TaskTextError, first_faulty_line, print_task, read_task, task_text};
