//! What a step of the rules wakes: laws of who has no legal step before a step or a decision and may have one after it.
#![tactic(auto)]

mod laws;

pub use laws::{
    asleep_stays_closed, both_stay_closed, bring_wakes, decision_wakes, step_settles,
    unrelated_stays_closed, wakes_by_table,
};
