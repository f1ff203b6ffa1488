//! The command `bench`.
#![tactic(auto)]

mod benching;
mod judging;
mod laws;
mod made;
mod summary;

pub use benching::bench;
pub use laws::one_answer_of_bench;
