//! Transport problems of any size, as texts.
#![tactic(auto)]

mod domain;
mod generator;
mod parts;
mod problem;

pub use generator::{Made, make};
