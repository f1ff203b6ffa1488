//! The command `trim`.
#![tactic(auto)]

mod trimming;

pub use trimming::trim_certificate;
