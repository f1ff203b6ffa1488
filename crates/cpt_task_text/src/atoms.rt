//! The lines of atoms.

ghost use Rattle.std.specs.Prelude.{◌≡◌, ◌+◌, ◌<◌, ◌^◌, [], vec_len, IfOk};
ghost use Rattle.cpt_line.specs.Lines.{split};
ghost use Rattle.cpt_task_text.specs.Reading.{Gives, atom_at, atoms_at};

use crate::error::TaskTextError;
use crate::fields::{line_of, past};
use cpt_line::is_spelled_name;
use cpt_task::{List, Name};
use std::alloc::Global;
use std::collections::BTreeSet;

#[tactic(auto, unfolding(crate::specs::Reading::atom_at))]
fn atom_of(number: u32, text: &[u8]) -> Result<(&[u8], &[u8]), TaskTextError>
    ensures { Gives (λ x. (x.0.now, split x.1.now)) result (atom_at number (split text.now)) }
{
    let (line, rest) = line_of(number, text)?;
    let name = past(b"atom ", number, line)?;
    if !is_spelled_name(name) {
        return Err(TaskTextError::Line(number));
    }
    Ok((name, rest))
}

/// So many atoms, and the text after them.
pub fn atoms_of(
    alloc: Global,
    count: u32,
    number: u32,
    text: &[u8],
) -> Result<(Vec<Name>, &[u8]), TaskTextError>
    requires { number + count < 2 ^ 32 }
    ensures exact { Gives (λ x. (x.0.items, split x.1.now)) result (atoms_at count number [] (split text.now)) }
    ensures many { IfOk result (λ x. vec_len x.0 ≡ count) }
{
    let mut atoms = Vec::new(alloc);
    let mut seen = BTreeSet::new(alloc);
    let mut rest = text;
    let mut line = number;
    for _ in 0..count {
        let (name, after) = atom_of(line, rest)?;
        if !seen.insert(name)? {
            return Err(TaskTextError::Line(line));
        }
        atoms.push(List::from_vec(Vec::from_slice(alloc, name)?))?;
        rest = after;
        line += 1;
    }
    Ok((atoms, rest))
}
