//! A task as its text.

ghost use Rattle.std.specs.Prelude.{◌≡◌, ◌-◌, ◌^◌, ◌<◌, ◌++◌, map, IfOk, OnOk, IsErrOf};
ghost use Rattle.std.specs.List.{flat_map};
ghost use Rattle.std.specs.Io.KnownBytes.{append_known};
ghost use Rattle.cpt_io.specs.Meaning.{AppendsFront};
ghost use Rattle.cpt_io.specs.declared.library.PrintError.TheVariants.{Failed, Memory};
ghost use Rattle.cpt_task_text.specs.Spelling.{ended, count_line, atom_line, head_line, spaced, list_line, action_lines, lines_of, spelling};

use cpt_io::{PrintError, Sink};
use cpt_line::push_decimal;
use cpt_task::{Action, Name, Task};
use std::alloc::{AllocError, Global};

fn push_ids(text: &mut Vec<u8>, ids: &[u32]) -> Result<(), AllocError>
    ensures { OnOk result (text.new.items ≡ text.old.items ++ spaced ids.now) }
{
    for id in ids {
        text.extend_from_slice(b" ")?;
        push_decimal(text, u64::from(*id))?;
    }
    Ok(())
}

fn push_list(text: &mut Vec<u8>, keyword: &[u8], ids: &[u32]) -> Result<(), AllocError>
    ensures { OnOk result (text.new.items ≡ text.old.items ++ ended (list_line keyword.now ids.now)) }
{
    text.extend_from_slice(keyword)?;
    push_ids(text, ids)?;
    text.extend_from_slice(b"\n")
}

fn push_counts(text: &mut Vec<u8>, atoms: usize, actions: usize) -> Result<(), AllocError>
    ensures { OnOk result (text.new.items ≡ text.old.items ++ ended (count_line atoms actions)) }
{
    text.extend_from_slice(b"task ")?;
    push_decimal(text, atoms as u64)?;
    text.extend_from_slice(b" ")?;
    push_decimal(text, actions as u64)?;
    text.extend_from_slice(b"\n")
}

fn push_atom(text: &mut Vec<u8>, name: &[u8]) -> Result<(), AllocError>
    ensures { OnOk result (text.new.items ≡ text.old.items ++ ended (atom_line name.now)) }
{
    text.extend_from_slice(b"atom ")?;
    text.extend_from_slice(name)?;
    text.extend_from_slice(b"\n")
}

fn push_atoms(text: &mut Vec<u8>, atoms: &[Name]) -> Result<(), AllocError>
    ensures { OnOk result (text.new.items ≡ text.old.items ++ flat_map ended (map atom_line atoms.now)) }
{
    for atom in atoms {
        push_atom(text, atom.as_slice())?;
    }
    Ok(())
}

fn push_head(text: &mut Vec<u8>, name: &[u8], dur: u32) -> Result<(), AllocError>
    ensures { OnOk result (text.new.items ≡ text.old.items ++ ended (head_line name.now dur)) }
{
    text.extend_from_slice(b"action ")?;
    text.extend_from_slice(name)?;
    text.extend_from_slice(b" ")?;
    push_decimal(text, u64::from(dur))?;
    text.extend_from_slice(b"\n")
}

fn push_action(text: &mut Vec<u8>, action: &Action) -> Result<(), AllocError>
    ensures { OnOk result (text.new.items ≡ text.old.items ++ flat_map ended (action_lines action.now)) }
{
    push_head(text, action.name.as_slice(), action.dur)?;
    push_list(text, b"pre", action.pre.as_slice())?;
    push_list(text, b"add", action.add.as_slice())?;
    push_list(text, b"del", action.dele.as_slice())
}

fn push_actions(text: &mut Vec<u8>, actions: &[Action]) -> Result<(), AllocError>
    ensures { OnOk result (text.new.items ≡ text.old.items ++ flat_map ended (flat_map action_lines actions.now)) }
{
    for action in actions {
        push_action(text, action)?;
    }
    Ok(())
}

/// The one spelling of the task.
pub fn task_text(alloc: Global, task: &Task) -> Result<Vec<u8>, AllocError>
    ensures { IfOk result (λ text. text.items ≡ spelling task.now) }
{
    let mut text = Vec::new(alloc);
    push_counts(&mut text, task.atoms().len(), task.actions().len())?;
    push_atoms(&mut text, task.atoms())?;
    push_actions(&mut text, task.actions())?;
    push_list(&mut text, b"init", task.init())?;
    push_list(&mut text, b"goal", task.goal())?;
    Ok(text)
}

/// Puts the one spelling of the task, in one piece.
///
/// After `Memory` nothing was put. After `Failed` a front of the text was put, and the sink's count of
/// faults rose.
pub fn print_task<K: Sink>(alloc: Global, task: &Task, out: &mut K) -> Result<(), PrintError>
    requires { K.faults out.old < 2 ^ 64 - 1 }
    ensures ok { OnOk result (K.written out.new ≡ append_known (K.written out.old) (spelling task.now)) }
    ensures memory { IsErrOf result Memory → out.new ≡ out.old }
    ensures failed { IsErrOf result Failed → AppendsFront (K.written out.old) (K.written out.new) (spelling task.now) }
    // `Failed` has its cause in the sink, and nothing else adds to its faults.
    ensures cause { IsErrOf result Failed → K.faults out.old < K.faults out.new }
    ensures kept { (IsErrOf result Failed → ⊥) → K.faults out.new ≡ K.faults out.old }
{
    let Ok(text) = task_text(alloc, task) else {
        return Err(PrintError::Memory);
    };
    match out.put(&text) {
        Ok(()) => Ok(()),
        Err(_) => Err(PrintError::Failed),
    }
}
