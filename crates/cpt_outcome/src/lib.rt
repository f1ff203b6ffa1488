//! What a search finds: the trees of the bounds over the calculus, the outcome that they give, why it is right, and why
//! each tree is finite.
#![tactic(auto)]

mod laws;

pub use laws::{
    chains_short, choices_commit, choices_fit, exhausted_trees_refute, finds_none, finds_plans,
    finished_texts_refute, fresh_is_closed, leaf_plans_valid, nodes_visited, one_expansion,
    one_outcome, one_plan, outcomes_hold, partial_texts_count, spent_below_enough, spent_is_larger,
    texts_below_refute, traversals_agree, trees_enough, zero_goals_empty,
};
