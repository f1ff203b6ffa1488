//! Lists of atom numbers.

ghost use Rattle.std.specs.Prelude.{◌≡◌, ◌<◌, ◌≤◌, [], length, IfOk};
ghost use Rattle.cpt_line.specs.Lines.{split};
ghost use Rattle.cpt_task_text.specs.Reading.{Gives, id_at, ids_in, ids_at, short_ids_at};

use crate::error::TaskTextError;
use crate::fields::{line_of, number_of, past};
use cpt_task::{Ids, Limit};
use std::alloc::Global;

/// One number of a list, and what follows it.
#[tactic(auto, unfolding(crate::specs::Reading::id_at))]
fn id_of(number: u32, count: u32, least: u32, bytes: &[u8]) -> Result<(u32, &[u8]), TaskTextError>
    ensures exact { Gives (λ x. (x.0, x.1.now)) result (id_at number count least bytes.now) }
    ensures below { IfOk result (λ x. x.0 < count) }
    ensures shorter { IfOk result (λ x. length x.1.now < length bytes.now) }
{
    let digits = past(b" ", number, bytes)?;
    let (id, rest) = number_of(number, digits)?;
    if id < u64::from(least) || id >= u64::from(count) {
        return Err(TaskTextError::Line(number));
    }
    Ok((id as u32, rest))
}

/// The numbers of a list behind its keyword.
fn numbers_of(
    alloc: Global,
    number: u32,
    count: u32,
    bytes: &[u8],
) -> Result<Vec<u32>, TaskTextError>
    ensures { Gives (λ v. v.items) result (ids_in (length bytes.now) number count 0 [] bytes.now) }
{
    let mut ids = Vec::new(alloc);
    let mut least = 0u32;
    let mut rest = bytes;
    while !rest.is_empty() {
        let (id, after) = id_of(number, count, least, rest)?;
        ids.push(id)?;
        least = id + 1;
        rest = after;
    }
    Ok(ids)
}

/// A line with a keyword and strictly increasing numbers below `count`, and the text after it.
#[tactic(auto, unfolding(crate::specs::Reading::ids_at))]
pub fn ids_of<'a>(
    alloc: Global,
    number: u32,
    keyword: &[u8],
    count: u32,
    text: &'a [u8],
) -> Result<(Ids, &'a [u8]), TaskTextError>
    ensures { Gives (λ x. (x.0, split x.1.now)) result (ids_at number keyword.now count (split text.now)) }
{
    let (line, rest) = line_of(number, text)?;
    let bytes = past(keyword, number, line)?;
    let ids = numbers_of(alloc, number, count, bytes)?;
    match Ids::from_vec(ids) {
        Some(ids) => Ok((ids, rest)),
        None => unreachable!(),
    }
}

/// The same, of at most so many numbers.
#[tactic(auto, unfolding(crate::specs::Reading::short_ids_at))]
pub fn short_ids_of<'a>(
    alloc: Global,
    number: u32,
    keyword: &[u8],
    most: usize,
    count: u32,
    text: &'a [u8],
) -> Result<(Ids, &'a [u8]), TaskTextError>
    ensures { Gives (λ x. (x.0, split x.1.now)) result (short_ids_at number keyword.now most count (split text.now)) }
{
    let (ids, rest) = ids_of(alloc, number, keyword, count, text)?;
    if ids.as_slice().len() > most {
        return Err(TaskTextError::Limit(Limit::LongList));
    }
    Ok((ids, rest))
}
