//! The calculus of partial plans: thirteen rules that narrow sheets, decisions, and flaws.
#![tactic(auto)]

mod applying;
mod build;
mod decisions;
mod flaws;
mod laws;
mod narrowing;
mod rooting;
mod rules;

pub use applying::apply;
pub use cpt_edits::copy_sheet;
pub use cpt_sheet::{
    Cand, Change, Decision, Flaw, Interval, Kind, Need, NodeLine, Sheet, Step, Token, Tree, is_dead,
};
pub use decisions::fits;
pub use flaws::{flaw_children, is_clash, is_flaw, is_open_need, is_threat};
pub use laws::{
    closing_steps, dying_steps, lists_by_members, monotone_rules, one_closure, orders_by_members,
};
pub use narrowing::narrow;
pub use rooting::root;
pub use rules::{
    change_of, first_token, is_allowed, is_candidate, is_step1, is_step2, is_step3, is_step4,
    is_step5, is_step6, is_step7, is_step8, is_step9_after, is_step9_ahead, is_step10,
    is_step11_after, is_step11_ahead, is_step12_after, is_step12_ahead, is_step13, legal, moves,
    one_token, threatened, threatened_outside,
};
