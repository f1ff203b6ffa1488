//! The command `prove`.
#![tactic(auto)]

mod proving;

pub use proving::prove;
