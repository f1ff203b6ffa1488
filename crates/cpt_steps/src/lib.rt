//! What a legal step is worth, where it lands, and that it lessens a measure: laws of the rules.
#![tactic(auto)]

mod laws;

pub use laws::{
    arrivals_fit, changes_lessen, closed_where_all, gaps_are_small, lands_there,
    listed_have_places, moves_above, needs_have_places, one_tight_value, runs_append, same_change,
    steps_can_be_made, steps_lessen, tight_runs_append, tight_runs_grow, tight_runs_lead,
    tight_values,
};
