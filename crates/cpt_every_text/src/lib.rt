//! Each text is a certificate of a task or has a first fault.
#![tactic(auto)]

mod laws;

pub use laws::{each_text_is_read, each_text_is_ruled};
