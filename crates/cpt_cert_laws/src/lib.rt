//! Laws of certificates on which nothing that runs stands: trees over sheets as the printer takes them, lines that keep
//! their limits, and faults of the first lines of a text.
#![tactic(auto)]

mod laws;

pub use laws::{
    faults_stand, steps_are_short, trees_are_nodes, trees_are_short, whole_lines_in_form,
};
