//! The actions of a domain: terms, atoms, conditions, effects and durations.
#![tactic(auto)]

mod conditions;
mod durations;
mod effects;
mod schemas;
mod terms;

pub use conditions::{Conditions, Test};
pub use durations::Lasting;
pub use effects::{Effect, Effects, Tag};
pub use schemas::{Schema, schema_in};
pub use terms::{Lit, Term};
