//! A partial plan in the cells of a trail.
#![tactic(auto)]

mod appending;
mod cells;
mod counting;
mod deciding;
mod dying;
mod lists;
mod root;
mod rosters;
mod rows;
mod spans;
mod stepping;

pub use cells::Cells;
pub use rows::numbers;
