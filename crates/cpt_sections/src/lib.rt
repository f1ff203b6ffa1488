//! Certificates, line by line: what of them is still to be read.
#![tactic(auto)]

mod planning;
mod section;
mod staging;
mod tabling;
mod treeing;

pub use section::{Aim, DistRows, Items, Next, PairRows, Section, Stage, Trees, Turned};
pub use staging::{begin, claimed, take_line, version_of};
