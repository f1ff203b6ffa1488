//! What makes a text a certificate of a task, that the claim of a certificate holds, and the first fault of a text that
//! is none.
#![tactic(auto)]

mod faults;
mod laws;

pub use faults::Why;
pub use laws::{
    brings_take_bytes, certificates_hold, certificates_read, no_fault, one_claim, one_fault,
    one_outcome, whole_lines, whole_texts,
};
