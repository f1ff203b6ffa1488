//! What a list of decisions says of a sheet: its fresh sheet, its first flaw, and what lasts in the sheets after it.
#![tactic(auto)]

mod laws;

pub use laws::{
    beginning_closes_fresh, brought_is_new, carried_on, choice_is_order, choice_is_total,
    closed_for_all, decided_is_flawless, decisions_are_carried, decisions_bring_one,
    decisions_extend, each_step_in_use, extends_itself, extends_on, flawless_is_decided,
    fresh_after, fresh_at_root, fresh_carries, fresh_extends, live_extends, no_flaw_no_first,
    one_beginning, one_first_flaw, one_fresh, reaches_fresh, tokens_by_decisions,
};
