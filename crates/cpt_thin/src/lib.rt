//! Step lines of a certificate, some of which are dropped: what is known of the text without one of them before all of
//! it is read.
#![tactic(auto)]

mod doubts;
mod fates;
mod fronts;
mod rests;
mod thinning;
mod values;

pub use doubts::is_doomed_at;
pub use fates::{Fate, is_dropped, is_kept_at};
pub use fronts::{Front, begin_front, pass_line, read_lines};
pub use thinning::thin;
