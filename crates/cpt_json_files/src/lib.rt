//! The commands `export` and `validate-json`.
#![tactic(auto)]

mod exporting;
mod replies;
mod validating;

pub use exporting::export;
pub use validating::validate_json;
