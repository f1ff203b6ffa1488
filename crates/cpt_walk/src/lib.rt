//! Trees read line by line, and rows of tables.
#![tactic(auto)]

mod rows;
mod walk;

pub use rows::{is_row, put_dist_row, put_pair_row};
pub use walk::{Frame, Past, Place, Turn, Walk, begin_tree, is_read, take_node};
