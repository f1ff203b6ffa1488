//! The certificate of what a search finds, and how it is put.
#![tactic(auto)]

mod certify;
mod proving;

pub use certify::{cert_of, claim_of};
pub use cpt_cert_print::{Cert, Claim, Version};
pub use proving::{ProofError, put_proof};
