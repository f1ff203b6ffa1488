//! The flaws of a store's sheet, the children of a flaw, and the plan of a leaf.
#![tactic(auto)]

mod choosing;
mod decisions;
mod leaves;

pub use choosing::first_flaw;
pub use decisions::children;
pub use leaves::leaf_plan;
