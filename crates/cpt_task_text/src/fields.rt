//! Parts of a line.

ghost use Rattle.std.specs.Prelude.{◌≡◌, ◌<◌, ◌≤◌, length, IfOk};
ghost use Rattle.cpt_line.specs.Lines.{split};
ghost use Rattle.cpt_task_text.specs.Reading.{Gives, line_at, ends_at, past, number_at, name_length};

use crate::error::TaskTextError;
use cpt_line::{first_line, plain_number};

/// Line `number`, which is the first of the text, and the text after it.
pub fn line_of(number: u32, text: &[u8]) -> Result<(&[u8], &[u8]), TaskTextError>
    ensures { Gives (λ x. (x.0.now, split x.1.now)) result (line_at number (split text.now)) }
{
    match first_line(text) {
        Some(found) => Ok(found),
        None => Err(TaskTextError::Line(number)),
    }
}

/// Nothing stands where line `number` would be.
pub fn ends(number: u32, text: &[u8]) -> Result<bool, TaskTextError>
    ensures { Gives (λ x. x) result (ends_at number (split text.now)) }
{
    if text.is_empty() {
        Ok(true)
    } else {
        Err(TaskTextError::Line(number))
    }
}

/// What follows the front in bytes of line `number`.
pub fn past<'a>(front: &[u8], number: u32, bytes: &'a [u8]) -> Result<&'a [u8], TaskTextError>
    ensures exact { Gives (λ x. x.now) result (past front.now number bytes.now) }
    ensures shorter { IfOk result (λ x. length x.now ≤ length bytes.now) }
{
    if !bytes.starts_with(front) {
        return Err(TaskTextError::Line(number));
    }
    let (_, rest) = bytes.split_at(front.len());
    Ok(rest)
}

/// A number at the front of bytes of line `number`, and what follows it. A number above 1,000,000,000 is
/// answered as 1,000,000,001.
pub fn number_of(number: u32, bytes: &[u8]) -> Result<(u64, &[u8]), TaskTextError>
    ensures exact { Gives (λ x. (x.0, x.1.now)) result (number_at number bytes.now) }
    ensures shorter { IfOk result (λ x. length x.1.now ≤ length bytes.now) }
{
    match plain_number(bytes) {
        Some(found) => Ok(found),
        None => Err(TaskTextError::Line(number)),
    }
}

/// How many bytes there are up to the first closing parenthesis, and with it.
pub fn length_of_name(bytes: &[u8]) -> usize
    ensures count { result ≡ name_length bytes.now }
    ensures within { result ≤ length bytes.now }
{
    for (i, b) in bytes.iter().enumerate() {
        if *b == b')' {
            return i + 1;
        }
    }
    bytes.len()
}
