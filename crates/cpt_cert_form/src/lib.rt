//! What the lines of a certificate say, how they are spelled, and which lines a whole certificate has.
#![tactic(auto)]

mod forms;

pub use forms::{CertLine, Claim, Run, Version};
