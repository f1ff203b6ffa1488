//! Each sound domain has a spelling, which is read as itself: laws of the words and groups that spell it. Their
//! contracts are what they say, and their bodies are empty.
#![tactic(auto)]

mod laws;

pub use laws::{
    actions_read_back, conditions_read_back, domains_read_back, durations_read_back,
    effects_read_back, functions_read_back, lamps_are_spelled, lesser_parents_stand,
    plain_actions_read_back, predicates_read_back, read_actions_are_typed,
    read_domains_are_spellable, read_domains_are_well_formed, read_types_are_arranged,
    terms_read_back, texts_read_back, typed_lists_read_back, types_read_back,
};
