//! Instances of actions: which there are, and which one a name is of.
#![tactic(auto)]

mod bindings;
mod choices;
mod counting;
mod durations;
mod error;
mod instance;
mod instances;
mod listing;
mod names;

pub use durations::{ValueMap, duration_in, objects_for, value_map};
pub use error::GroundError;
pub use instance::instance_of;
pub use instances::Instance;
pub use listing::instances_of;
