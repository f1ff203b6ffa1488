//! What a checker rules on is decidable: each plan is valid or has a first cause against it, each table is admissible or has a least fault, each
//! sheet is dead or live, and each step is legal and each flaw stands, or not.
#![tactic(auto)]

mod laws;

pub use laws::{
    each_dist_table_is_ruled, each_flaw_stands_or_not, each_pair_table_is_ruled,
    each_plan_has_a_verdict, each_plan_is_valid_or_not, each_sheet_is_dead_or_live,
    each_step_is_legal_or_not,
};
