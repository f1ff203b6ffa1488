//! The greatest table of pairs: how early two atoms can hold together.
#![tactic(auto)]

mod board;
mod limits;
mod marks;
mod rows;
mod rules;
mod table;

pub use table::pair_table;
