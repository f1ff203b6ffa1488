//! Instances.

use cpt_task::List;

/// An instance: the schema's number, and an object for each of its parameters.
#[derive(Drop)]
pub struct Instance {
    pub schema: usize,
    pub args: List<u32>,
}
