//! Certificates, printed: their texts and how long these are.
#![tactic(auto)]

mod cert;
mod items;
mod printing;
mod rendering;
mod values;

pub use cert::Cert;
pub use cpt_cert_form::{Claim, Version};
pub use printing::{cert_len, print_cert};
