//! The greatest table of distances: how long after an action's end an atom can hold at the earliest.
#![tactic(auto)]

mod row;
mod start;
mod table;

pub use table::dist_table;
