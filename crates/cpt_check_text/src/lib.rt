//! Texts in memory, judged by the checker of certificates.
#![tactic(auto)]

mod text;

pub use text::check_text;
