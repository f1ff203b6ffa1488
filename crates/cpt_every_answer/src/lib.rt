//! Commands over accepted files have an answer.
#![tactic(auto)]

mod laws;

pub use laws::each_is_answered;
