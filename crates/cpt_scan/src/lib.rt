//! The calculus by trying, for tests of the store, the rules and the engine: all legal steps of a sheet, closed sheets of
//! decisions, whether a store has a sheet, random moves, and small tasks with their tables.
#![tactic(auto)]

mod choices;
mod closing;
mod moves;
mod scan;
mod sheets;
mod tasks;

pub use choices::{some_decision, some_step, subject_at, subject_count};
pub use closing::{apply_if_fits, close, closed, decided, make_if_legal};
pub use moves::{decide_behind_mark, decide_in, narrow_in, step_at, wakes};
pub use scan::{further, landing, landings};
pub use sheets::is_sheet;
pub use tasks::{
    ALL_RULES, AllRules, CHAINS, INSIDE_RULES, InsideRules, KEY, RESOURCE, SATELLITE, TRUCKS,
    tables_of, task_of, zero_tables_of,
};
