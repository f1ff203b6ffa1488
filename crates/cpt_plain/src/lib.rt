//! A law: ground tasks are plain, so that their listing is read back.
#![tactic(auto)]

mod laws;

pub use laws::kept_tasks_are_plain;
