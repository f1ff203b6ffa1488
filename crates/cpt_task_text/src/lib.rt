//! Tasks as text.
#![tactic(auto)]

mod actions;
mod atoms;
mod error;
mod fields;
mod laws;
mod lists;
mod printing;
mod reading;

pub use error::TaskTextError;
pub use laws::first_faulty_line;
pub use printing::{print_task, task_text};
pub use reading::read_task;
