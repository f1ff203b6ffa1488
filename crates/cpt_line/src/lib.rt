//! Lines, numbers and names in texts.
#![tactic(auto)]

mod line;
mod names;
mod numbers;

pub use line::first_line;
pub use names::{is_spelled_name, is_word_byte};
pub use numbers::{capped_number, count_digits, plain_number, push_decimal};
