//! The checker of certificates.
#![tactic(auto)]

mod checking;
mod ending;
mod errors;
mod judged;
mod past;
mod pieces;

pub use checking::check;
pub use cpt_cert_accept::Why;
pub use judged::{CheckError, Judged, Ruling};
