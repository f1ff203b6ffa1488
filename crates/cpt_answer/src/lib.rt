//! How a command ends, what it writes, and what that promises.
#![tactic(auto)]

mod ending;
mod lines;
mod writing;

pub use ending::{ByteFault, Cause, Ending, Reply};
pub use writing::{put_usage, tell};
