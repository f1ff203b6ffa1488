//! What a domain declares: types, constants, predicates and functions.
#![tactic(auto)]

mod declared;
mod kind_run;
mod kinds;
mod signatures;

pub use declared::Declared;
pub use kinds::{Kinds, kinds_in, object_alone};
pub use signatures::{Signatures, functions_in, predicates_in, words_only};
