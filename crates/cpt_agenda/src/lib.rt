//! The agenda of the subjects that are to be asked for a step, and whom a step or a decision puts on it.
#![tactic(auto)]

mod agenda;
mod asked;
mod users;
mod woken;

pub use agenda::Agenda;
pub use users::{AtomUsers, Users, users_of_task};
pub use woken::{fill, stir, wake};
