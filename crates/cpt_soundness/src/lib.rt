//! Why no plan is lost: laws of sheets and the plans that they admit. Their contracts are what they say, and their
//! bodies are empty.
#![tactic(auto)]

mod laws;

pub use laws::{
    apply_formed, branches_close, children_cover, children_fit, dead_admits_none,
    deleters_keep_away, gaps_kept, goal_bounds, narrow_formed, narrow_keeps, root_admits,
    root_formed, steps_close, tree_refutes,
};
