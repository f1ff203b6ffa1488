//! The options of a search behind the names of files.
#![tactic(auto)]

mod options;

pub use options::{Budget, Options, budget_of, is_word, number_within, options_behind};
