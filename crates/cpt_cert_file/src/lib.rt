//! Certificates that commands read whole from a file.
#![tactic(auto)]

mod reading;

pub use reading::certificate_in;
