//! The lines of actions.

ghost use Rattle.std.specs.Prelude.{◌≡◌, ◌+◌, ◌*◌, ◌<◌, ◌^◌, [], vec_len, IfOk};
ghost use Rattle.cpt_line.specs.Lines.{split};
ghost use Rattle.cpt_task_text.specs.Reading.{Gives, head_in, head_at, action_at, actions_at};

use crate::error::TaskTextError;
use crate::fields::{length_of_name, line_of, number_of, past};
use crate::lists::short_ids_of;
use cpt_line::is_spelled_name;
use cpt_task::{Action, CONDITION_LIMIT, List};
use std::alloc::Global;
use std::collections::BTreeSet;

/// The name and the duration in the first line of an action.
#[tactic(auto, unfolding(crate::specs::Reading::head_in))]
fn head_in(number: u32, line: &[u8]) -> Result<(&[u8], u32), TaskTextError>
    ensures { Gives (λ x. (x.0.now, x.1)) result (head_in number line.now) }
{
    let bytes = past(b"action ", number, line)?;
    let (name, rest) = bytes.split_at(length_of_name(bytes));
    if !is_spelled_name(name) {
        return Err(TaskTextError::Line(number));
    }
    let digits = past(b" ", number, rest)?;
    let (dur, rest) = number_of(number, digits)?;
    if !rest.is_empty() || dur < 1 || dur > 100_000 {
        return Err(TaskTextError::Line(number));
    }
    Ok((name, dur as u32))
}

#[tactic(auto, unfolding(crate::specs::Reading::head_at))]
fn head_of(number: u32, text: &[u8]) -> Result<((&[u8], u32), &[u8]), TaskTextError>
    ensures { Gives (λ x. ((x.0.0.now, x.0.1), split x.1.now)) result (head_at number (split text.now)) }
{
    let (line, rest) = line_of(number, text)?;
    let head = head_in(number, line)?;
    Ok((head, rest))
}

/// The action of this name and duration, with the three lists behind its first line.
#[tactic(auto, unfolding(crate::specs::Reading::action_at))]
fn action_of<'a>(
    alloc: Global,
    number: u32,
    count: u32,
    name: &[u8],
    dur: u32,
    text: &'a [u8],
) -> Result<(Action, &'a [u8]), TaskTextError>
    requires { number + 4 < 2 ^ 32 }
    ensures exact { Gives (λ x. (x.0, split x.1.now)) result (action_at number count (name.now, dur) (split text.now)) }
    ensures name { IfOk result (λ x. x.0.name ≡ name.now) }
{
    let (pre, rest) = short_ids_of(alloc, number + 1, b"pre", CONDITION_LIMIT, count, text)?;
    let (add, rest) = short_ids_of(alloc, number + 2, b"add", 2 * CONDITION_LIMIT, count, rest)?;
    let (dele, rest) = short_ids_of(alloc, number + 3, b"del", 2 * CONDITION_LIMIT, count, rest)?;
    let name = List::from_vec(Vec::from_slice(alloc, name)?);
    Ok((
        Action {
            name,
            dur,
            pre,
            add,
            dele,
        },
        rest,
    ))
}

/// So many actions, and the text after them.
pub fn actions_of(
    alloc: Global,
    more: u32,
    number: u32,
    count: u32,
    text: &[u8],
) -> Result<(Vec<Action>, &[u8]), TaskTextError>
    requires { number + 4 * more + 4 < 2 ^ 32 }
    ensures exact { Gives (λ x. (x.0.items, split x.1.now)) result (actions_at more number count [] (split text.now)) }
    ensures many { IfOk result (λ x. vec_len x.0 ≡ more) }
{
    let mut actions = Vec::new(alloc);
    let mut seen = BTreeSet::new(alloc);
    let mut rest = text;
    let mut line = number;
    for _ in 0..more {
        let (head, lists) = head_of(line, rest)?;
        let (name, dur) = head;
        if !seen.insert(name)? {
            return Err(TaskTextError::Line(line));
        }
        let (action, after) = action_of(alloc, line, count, name, dur, lists)?;
        actions.push(action)?;
        rest = after;
        line += 4;
    }
    Ok((actions, rest))
}
