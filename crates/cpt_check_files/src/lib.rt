//! The command `check`.
#![tactic(auto)]

mod checking;
mod rulings;

pub use checking::check_certificate;
pub use rulings::ruling_reply;
