//! What the readers of domains and of problems share: places in a parsed text, words, names, typed lists, faults.
#![tactic(auto)]

mod ancestry;
mod cursor;
mod fault;
mod kinds;
mod ladder;
mod names;
mod pairs;
mod reading;
mod typed;
mod words;

pub use ancestry::Ancestry;
pub use cursor::{Cursor, Next};
pub use fault::{Fault, Feature};
pub use kinds::{is_below, kind_at};
pub use names::Names;
pub use pairs::paired;
pub use reading::{after_word, group_at, name_at, nothing};
pub use typed::{Sort, Typed, type_group, typed_list};
pub use words::{Head, head_of, is_name, is_variable, is_word, number_in};
