//! The command `explain-cert`.
#![tactic(auto)]

mod counted;
mod explaining;
mod numbers;

pub use explaining::explain_cert;
