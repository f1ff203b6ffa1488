//! Plans, printed.

ghost use Rattle.std.specs.Prelude.{◌≡◌, ◌-◌, ◌<◌, ◌^◌, ◌++◌, IfOk, IsErrOf, OnOk};
ghost use Rattle.std.specs.List.Sorted.{IsPermutation};
ghost use Rattle.cpt_task.specs.Timeline.{IsOccurrence, IsPlan};
ghost use Rattle.cpt_plan_text.specs.Spelling.{CountsFaults, IsInPrintOrder, IsTextOf, Prints, plan_spelling, spelled_line};

use cpt_io::{PrintError, Sink};
use cpt_line::push_decimal;
use cpt_task::{Occ, Task};
use std::alloc::{AllocError, Global};

fn push_line(text: &mut Vec<u8>, task: &Task, o: &Occ) -> Result<(), AllocError>
    requires { IsOccurrence task.now o.now }
    ensures { OnOk result (text.new.items ≡ text.old.items ++ spelled_line task.now o.now) }
{
    let action = &task.actions()[o.act as usize];
    push_decimal(text, o.start)?;
    text.extend_from_slice(b": ")?;
    text.extend_from_slice(action.name.as_slice())?;
    text.extend_from_slice(b" [")?;
    push_decimal(text, u64::from(action.dur))?;
    text.extend_from_slice(b"]")
}

/// The text of the occurrences in this order.
pub fn spelling_of(alloc: Global, task: &Task, plan: &[Occ]) -> Result<Vec<u8>, AllocError>
    requires { IsPlan task.now plan.now }
    ensures { IfOk result (λ text. text.items ≡ plan_spelling task.now plan.now) }
{
    let mut text = Vec::new(alloc);
    for o in plan {
        push_line(&mut text, task, o)?;
        text.push(b'\n')?;
    }
    Ok(text)
}

/// The occurrences by start, and then by action number.
fn sorted_plan(alloc: Global, plan: &[Occ]) -> Result<Vec<Occ>, AllocError>
    ensures permutation { IfOk result (λ sorted. IsPermutation plan.now sorted.items) }
    ensures order { IfOk result (λ sorted. IsInPrintOrder sorted.items) }
{
    let mut sorted = Vec::from_slice(alloc, plan)?;
    sorted.sort_by_key(|o| (o.start, o.act))?;
    Ok(sorted)
}

/// The text of the plan: its lines by start, and then by action number.
pub fn text_of(alloc: Global, task: &Task, plan: &[Occ]) -> Result<Vec<u8>, AllocError>
    requires { IsPlan task.now plan.now }
    ensures { IfOk result (λ text. IsTextOf task.now plan.now text.items) }
{
    let sorted = sorted_plan(alloc, plan)?;
    spelling_of(alloc, task, &sorted)
}

/// Puts the plan in its one spelling: a line for each occurrence, by start and then by action number. An empty
/// plan puts nothing. The whole text is made before it is put.
pub fn print_plan<K: Sink>(
    alloc: Global,
    task: &Task,
    plan: &[Occ],
    out: &mut K,
) -> Result<(), PrintError>
    requires plan { IsPlan task.now plan.now }
    requires faults { K.faults out.old < 2 ^ 64 - 1 }
    // What was written grew by this text, or by a front of it, or by nothing.
    ensures text { Prints task.now plan.now (K.written out.old) (K.written out.new) result }
    ensures cause { CountsFaults (K.faults out.old) (K.faults out.new) result }
    // Where memory ran out, the output is as it was.
    ensures memory { IsErrOf result PrintError.Memory → out.new ≡ out.old }
{
    let text = text_of(alloc, task, plan)?;
    if text.is_empty() {
        return Ok(());
    }
    match out.put(&text) {
        Ok(()) => Ok(()),
        Err(_) => Err(PrintError::Failed),
    }
}
