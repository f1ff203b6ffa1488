//! Laws of the cells that a token more takes: their contracts are what they say, and their bodies are empty.
#![tactic(auto)]

mod laws;

pub use laws::{brings_by_parts, growing};
