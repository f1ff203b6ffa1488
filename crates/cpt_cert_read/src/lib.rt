//! The lines of a certificate, read: by their bytes, and from a text that comes in pieces.
#![tactic(auto)]

mod laws;
mod lines;
mod nodes;
mod pieces;
mod reading;
mod rows;
mod steps;
mod words;

pub use cpt_cert_form::{CertLine, Claim, Run, Version};
pub use laws::{each_has_lines, enough_is_kept, one_reading};
pub use lines::Lines;
pub use pieces::read_pieces;
pub use reading::read_line;
pub use rows::{are_alone, are_runs};
