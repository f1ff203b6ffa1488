//! Who adds, deletes and needs each atom of a sheet, and who interferes with each action of its task.
#![tactic(auto)]

mod index;
mod rows;

pub use index::{Index, Seat, index_of};
