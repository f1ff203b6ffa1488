//! From what a search finds to a certificate of it: laws on which nothing that runs stands.
#![tactic(auto)]

mod laws;

pub use laws::{evidence_is_accepted, evidence_is_whole, one_evidence};
