//! Each text has a ruling of the checker, or it is too long.
#![tactic(auto)]

mod laws;

pub use laws::each_text_has_a_ruling;
