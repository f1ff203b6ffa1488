//! The store: a sheet that is moved forward and back; and what a rule is.
#![tactic(auto)]

mod copies;
mod readers;
mod rule;
mod store;
mod waking;

pub use rule::{Both, Rule};
pub use store::{Ctx, Store, Subject};
pub use waking::can_wake;
