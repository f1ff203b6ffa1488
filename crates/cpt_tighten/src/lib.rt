//! Valid plans at their earliest, with the chain that shows why they end no earlier.
#![tactic(auto)]

mod agenda;
mod chain;
mod laws;
mod moments;
mod records;
mod tightening;

pub use laws::{chains_add_up, earliest_ends_first, one_chain, one_earliest, schedules_are_valid};
pub use tightening::{Tight, tighten};
