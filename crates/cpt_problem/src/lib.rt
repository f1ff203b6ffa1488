//! Problems, and how they are read.
#![tactic(auto)]

mod atoms;
mod error;
mod goals;
mod inits;
mod reading;
mod sections;
mod tables;
mod timing;
mod values;

pub use cpt_facts::{Fact, Problem, Valued};
pub use error::ProblemError;
pub use reading::read_problem;
