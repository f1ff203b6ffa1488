//! Parenthesised text, read into a flat list of words and groups.
#![tactic(auto)]

mod bytes;
mod forest;
mod item;
mod laws;
mod parsing;
mod reading;

pub use forest::Forest;
pub use item::{Item, SexpError};
pub use laws::{no_fault, one_first_fault, one_reading, printed_is_read};
pub use parsing::parse;
