//! The numbers in the cells of a token more.

ghost use Rattle.std.specs.Prelude.{◌≡◌, ◌<◌, ◌≤◌, ◌^◌, ◌++◌, length, map, IfOk, OnOk};
ghost use Rattle.cpt_task.specs.Timeline.{is_in};
ghost use Rattle.cpt_sheet.specs.Live.{is_open};
ghost use Rattle.cpt_sheet.specs.Roles.{adds_of};
ghost use Rattle.cpt_sheet.specs.View.{kind_of, span_of};
ghost use Rattle.cpt_layout.specs.Places.{adders_at, needs_at, needs_by, table};
ghost use Rattle.cpt_block.specs.Blocks.{IsFrameOf, bit, block, flat, is_beside, list_in, older_row, own_row, own_row_at};

use crate::cells::Cells;
use cpt_sheet::{Cand, Kind, adds_of, is_open, needs_of};
use cpt_task::{Memory, Task};
use std::alloc::Global;

fn bit(holds: bool) -> u64
    ensures { result ≡ bit holds }
{
    if holds { 1 } else { 0 }
}

pub(crate) fn is_adder(task: &Task, kind: Kind, p: u32) -> bool
    ensures { result ≡ is_in p (adds_of task.now kind) }
{
    adds_of(task, kind).contains(&p)
}

fn push_zeros(found: &mut Vec<u64>, count: usize) -> Result<(), Memory>
    ensures { OnOk result (found.new.items ≡ found.old.items ++ table (λ i. 0) 0 count) }
{
    for place in 0..count {
        let _ = place;
        found.push(0)?;
    }
    Ok(())
}

/// Whether a token more of this kind joins a list of a token.
fn is_beside(cells: &Cells, kind: Kind, x: u32, j: usize) -> bool
    requires token { x < length cells.now.sheet.tokens }
    requires need { j < length (needs_at cells.now.frame x) }
    ensures { result ≡ is_beside kind (list_in cells.now.sheet x j) }
{
    match kind {
        Kind::Act(a) => cells.lists_out(x, j, a),
        Kind::Start => false,
        Kind::End => false,
    }
}

/// Whether it joins each list of an older token.
fn push_older_row(cells: &Cells, found: &mut Vec<u64>, kind: Kind, x: u32) -> Result<(), Memory>
    requires { x < length cells.now.sheet.tokens }
    ensures { OnOk result (found.new.items ≡ found.old.items ++ older_row cells.now.sheet kind x) }
{
    for j in 0..cells.needs(x).len() {
        found.push(bit(is_beside(cells, kind, x, j)))?;
    }
    Ok(())
}

/// Whether it joins each list of the older tokens.
fn push_older(cells: &Cells, found: &mut Vec<u64>, kind: Kind) -> Result<(), Memory>
    requires { length cells.now.sheet.tokens < 2 ^ 32 }
    ensures { OnOk result (found.new.items ≡ found.old.items ++ flat (older_row cells.now.sheet kind) (length cells.now.frame.kinds)) }
{
    for x in 0..cells.tokens() {
        push_older_row(cells, found, kind, x as u32)?;
    }
    Ok(())
}

/// Which tokens add an atom.
fn push_tokens(cells: &Cells, found: &mut Vec<u64>, task: &Task, p: u32) -> Result<(), Memory>
    requires { length cells.now.sheet.tokens < 2 ^ 32 }
    ensures { OnOk result (found.new.items ≡ found.old.items ++ table (λ y. bit (is_in p (adds_of task.now (kind_of cells.now.sheet (Cand.Tok y))))) 0 (length cells.now.frame.kinds)) }
{
    for y in 0..cells.tokens() {
        let kind = cells.kind(y as u32);
        found.push(bit(is_adder(task, kind, p)))?;
    }
    Ok(())
}

/// Which outside actions that add an atom are live.
fn push_outs(cells: &Cells, found: &mut Vec<u64>, p: u32) -> Result<(), Memory>
    ensures { OnOk result (found.new.items ≡ found.old.items ++ map (λ a. bit (is_open (span_of cells.now.sheet (Cand.Out a)))) (adders_at cells.now.frame p)) }
{
    for a in cells.adders(p) {
        found.push(bit(is_open(cells.out_at(*a))))?;
    }
    Ok(())
}

/// The numbers of a need of the new token.
fn push_own_row(cells: &Cells, found: &mut Vec<u64>, task: &Task, p: u32) -> Result<(), Memory>
    requires { length cells.now.sheet.tokens < 2 ^ 32 }
    ensures { OnOk result (found.new.items ≡ found.old.items ++ own_row task.now cells.now.sheet (length cells.now.frame.kinds) (adders_at cells.now.frame p) p) }
{
    push_zeros(found, 2)?;
    push_tokens(cells, found, task, p)?;
    push_outs(cells, found, p)
}

/// The numbers of its needs.
fn push_own(cells: &Cells, found: &mut Vec<u64>, task: &Task, kind: Kind) -> Result<(), Memory>
    requires few { length cells.now.sheet.tokens < 2 ^ 32 }
    requires frame { IsFrameOf task.now cells.now.frame }
    ensures { OnOk result (found.new.items ≡ found.old.items ++ flat (own_row_at task.now cells.now.frame cells.now.sheet kind) (length (needs_by cells.now.frame kind))) }
{
    for p in needs_of(task, kind) {
        push_own_row(cells, found, task, *p)?;
    }
    Ok(())
}

/// The numbers in the cells of a token more of this kind, whose interval these two numbers are.
pub fn numbers(
    alloc: Global,
    cells: &Cells,
    task: &Task,
    kind: Kind,
    lo: u64,
    hi: u64,
) -> Result<Vec<u64>, Memory>
    requires few { length cells.now.sheet.tokens < 2 ^ 32 }
    requires frame { IsFrameOf task.now cells.now.frame }
    ensures { IfOk result (λ v. v.items ≡ block task.now cells.now.frame cells.now.sheet kind lo hi) }
{
    let mut found = Vec::new(alloc);
    found.push(lo)?;
    found.push(hi)?;
    push_zeros(&mut found, 2 * cells.tokens())?;
    push_older(cells, &mut found, kind)?;
    push_own(cells, &mut found, task, kind)?;
    Ok(found)
}
