//! The words of the command line.
#![tactic(auto)]

mod laws;
mod words;

pub use laws::words_are_read_so;
pub use words::{Command, command_in};
