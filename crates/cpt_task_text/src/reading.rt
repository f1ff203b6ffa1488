//! The whole of a task text.

ghost use Rattle.std.specs.Prelude.{◌≡◌, ◌≤◌, length, IfOk, Ok};
ghost use Rattle.cpt_task.specs.Shape.{TaskShape};
ghost use Rattle.cpt_task_text.specs.Plain.{IsPlain};
ghost use Rattle.cpt_task_text.specs.Reading.{Gives, counts_in, task_of};
ghost use Rattle.cpt_task_text.specs.Spelling.{spelling};

use crate::actions::actions_of;
use crate::atoms::atoms_of;
use crate::error::TaskTextError;
use crate::fields::{ends, line_of, number_of, past};
use crate::lists::ids_of;
use cpt_task::{Limit, Task};
use std::alloc::Global;

/// The counts of atoms and of actions in the first line.
#[tactic(auto, unfolding(crate::specs::Reading::counts_in))]
fn counts_of(line: &[u8]) -> Result<(u32, u32), TaskTextError>
    ensures exact { Gives (λ x. (x.0, x.1)) result (counts_in line.now) }
    ensures few { IfOk result (λ x. (x.0 ≤ 2048) × (x.1 ≤ 4096)) }
{
    let digits = past(b"task ", 1, line)?;
    let (atoms, rest) = number_of(1, digits)?;
    let digits = past(b" ", 1, rest)?;
    let (actions, rest) = number_of(1, digits)?;
    if !rest.is_empty() {
        return Err(TaskTextError::Line(1));
    }
    if atoms > 2048 {
        return Err(TaskTextError::Limit(Limit::Atoms));
    }
    if actions > 4096 {
        return Err(TaskTextError::Limit(Limit::Actions));
    }
    Ok((atoms as u32, actions as u32))
}

/// The task, or the first fault.
#[tactic(auto, unfolding(crate::specs::Reading::task_of))]
fn task_in(alloc: Global, text: &[u8]) -> Result<Task, TaskTextError>
    ensures { Gives (λ task. task) result (task_of text.now) }
{
    let (line, rest) = line_of(1, text)?;
    let (count, more) = counts_of(line)?;
    let (atoms, rest) = atoms_of(alloc, count, 2, rest)?;
    let (actions, rest) = actions_of(alloc, more, count + 2, count, rest)?;
    let number = count + 4 * more + 2;
    let (init, rest) = ids_of(alloc, number, b"init", count, rest)?;
    let (goal, rest) = ids_of(alloc, number + 1, b"goal", count, rest)?;
    ends(number + 2, rest)?;
    match Task::build(atoms, actions, init, goal) {
        Ok(task) => Ok(task),
        Err(_) => unreachable!(),
    }
}

/// The task that the text spells.
///
/// A text of at most 16 MiB is read exactly where it is the one spelling of a plain task. Of several
/// faults the first line's is answered, and on one line `Line` before `Limit`.
pub fn read_task(alloc: Global, text: &[u8]) -> Result<Task, TaskTextError>
    requires { length text.now ≤ 16777216 }
    // Which task it is, and which fault.
    ensures exact { Gives (λ task. task) result (task_of text.now) }
    // What is read is spelled so.
    ensures found { IfOk result (λ task. IsPlain task × (text.now ≡ spelling task)) }
    // What is spelled so is read, unless memory runs out.
    ensures only { (task : TaskShape) → IsPlain task → text.now ≡ spelling task → Gives (λ t. t) result (Ok task) }
{
    task_in(alloc, text)
}
