//! Laws: what holds of the kept part of the task of a domain and a problem in files.
#![tactic(auto)]

mod laws;

pub use laws::kept_parts_stand_for_their_tasks;
