//! Changes that are made on sheets in place, and copies of sheets.
#![tactic(auto)]

mod changing;
mod copies;

pub use changing::{is_for, lower, make, post, raise, take};
pub use copies::{copy_cands, copy_orders, copy_sheet};
