//! The ground task of a domain and a problem, and laws of it.
#![tactic(auto)]

mod actions;
mod atoms;
mod compile;
mod grounding;
mod laws;
mod literal_names;
mod literals;
mod numbering;
mod object_names;
mod reader;
mod signed;

pub use cpt_instance::{GroundError, instance_of};
pub use grounding::ground;
pub use laws::{one_ground, one_reading, same_plans};
pub use reader::reading;
pub use signed::{Signed, SignedAction};
