//! Sheets: partial plans, how they are read, and when they are formed.
#![tactic(auto)]

mod data;
mod gaps;
mod live;
mod read;
mod roles;

pub use data::{
    Cand, Change, Decision, Flaw, Interval, Kind, Need, NodeLine, Sheet, Step, Token, Tree,
};
pub use gaps::{arrives, can_precede, gap, is_impossible_beside, is_sooner, must_begin_by};
pub use live::{is_dead, is_open, is_shut};
pub use read::{
    is_before, is_listed, is_ordered, is_posted, is_same, kind, list, lists, needs, span, stands,
};
pub use roles::{action_at, adds, adds_of, clash, deletes, deletes_of, needs_of};
