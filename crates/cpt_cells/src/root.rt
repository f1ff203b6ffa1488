//! The root sheet of a bound, in cells.

ghost use Rattle.std.specs.Prelude.{◌≡◌, ◌<◌, ◌≤◌, ◌^◌, ◌++◌, ◌∷◌, [], length, IfOk, OnOk};
ghost use Rattle.cpt_task.specs.Shape.{InBounds};
ghost use Rattle.cpt_sheet.specs.Edits.{with_posted};
ghost use Rattle.cpt_sheet.specs.Formed.{IsFormed};
ghost use Rattle.cpt_sheet.specs.Gaps.{FitsTask};
ghost use Rattle.cpt_calculus.specs.Root.{out_at_root, root_of, window};
ghost use Rattle.cpt_layout.specs.Places.{extended};
ghost use Rattle.cpt_block.specs.Blocks.{IsFrameOf, flat, grown};
ghost use Rattle.cpt_cells.specs.Roots.{bare_cells, numbers_of, outs_alone, unordered_root};
ghost use Rattle.cpt_cells.specs.Shapes.{KeepsMarks};

use crate::appending::append_all;
use crate::cells::Cells;
use crate::rosters::layout_of;
use crate::rows::numbers;
use crate::spans::number_of_span;
use cpt_sheet::{Interval, Kind, gap};
use cpt_tables::Tables;
use cpt_task::{Memory, Span, Steps, Task};
use cpt_trail::Trail;
use std::alloc::Global;
use std::marker::Brand;
use std::sync::ledger::{Blank, Ledger};

/// From the first moment to where the distance to the bound is left.
fn window_of(first: Span, left: Span, bound: u64) -> Interval
    ensures { result ≡ window first left bound }
{
    match left {
        Span::At(n) if n <= bound => Interval {
            lo: first,
            hi: bound - n,
        },
        _ => Interval {
            lo: Span::Never,
            hi: 0,
        },
    }
}

/// The interval of the outside occurrences of an action.
fn out_of(task: &Task, tables: &Tables, bound: u64, act: u32) -> Interval
    requires tables { FitsTask task.now tables.now }
    requires act { act < length task.now.actions }
    ensures { result ≡ out_at_root task.now tables.now bound act }
{
    let first = gap(task, tables, Kind::Start, Kind::Act(act));
    let left = gap(task, tables, Kind::Act(act), Kind::End);
    window_of(first, left, bound)
}

/// The two numbers of an interval, behind others.
fn push_interval(found: &mut Vec<u64>, interval: Interval) -> Result<(), Memory>
    ensures { OnOk result (found.new.items ≡ found.old.items ++ numbers_of interval) }
{
    found.push(number_of_span(interval.lo))?;
    found.push(interval.hi)?;
    Ok(())
}

/// The numbers of the outside intervals.
fn out_numbers(alloc: Global, task: &Task, tables: &Tables, bound: u64) -> Result<Vec<u64>, Memory>
    requires { FitsTask task.now tables.now }
    ensures { IfOk result (λ v. v.items ≡ flat (λ a. numbers_of (out_at_root task.now tables.now bound a)) (length task.now.actions)) }
{
    let mut found = Vec::new(alloc);
    for a in 0..task.actions().len() {
        push_interval(&mut found, out_of(task, tables, bound, a as u32))?;
    }
    Ok(found)
}

/// The trail of a root with no token yet.
fn bare_trail(alloc: Global, task: &Task, tables: &Tables, bound: u64) -> Result<Trail, Memory>
    requires { FitsTask task.now tables.now }
    ensures cells { IfOk result (λ t. t.cells ≡ bare_cells task.now tables.now bound) }
    ensures marks { IfOk result (λ t. t.marks ≡ []) }
{
    let mut found = out_numbers(alloc, task, tables, bound)?;
    found.push(0)?;
    let mut trail = Trail::new(alloc);
    trail.reserve(found.len(), 0, 0)?;
    append_all(&mut trail, &found);
    Ok(trail)
}

/// The outside intervals of the root, and no token.
fn bare(alloc: Global, task: &Task, tables: &Tables, bound: u64) -> Result<Cells, Memory>
    requires { FitsTask task.now tables.now }
    ensures frame { IfOk result (λ c. IsFrameOf task.now c.frame) }
    ensures sheet { IfOk result (λ c. c.sheet ≡ outs_alone task.now tables.now bound) }
    ensures marks { IfOk result (λ c. c.marks ≡ []) }
    ensures bounds { OnOk result (InBounds task.now) }
{
    let trail = bare_trail(alloc, task, tables, bound)?;
    let layout = layout_of(alloc, task, bound)?;
    Ok(Cells::of_parts(trail, layout, 2 * task.actions().len() + 1))
}

/// A token more, with the room that it takes.
fn add<L: Ledger>(
    alloc: Global,
    cells: &mut Cells,
    task: &Task,
    kind: Kind,
    lo: u64,
    hi: u64,
    steps: &mut Steps<L>,
) -> Result<(), Memory>
    requires few { length cells.old.sheet.tokens < 2 ^ 32 }
    requires frame { IsFrameOf task.now cells.old.frame }
    ensures frame { OnOk result (cells.new.frame ≡ extended cells.old.frame (kind ∷ [])) }
    ensures sheet { OnOk result (cells.new.sheet ≡ grown task.now cells.old.sheet kind lo hi) }
    ensures marks { OnOk result (KeepsMarks cells.old.marks cells.new.marks) }
{
    let numbers = numbers(alloc, cells, task, kind, lo, hi)?;
    cells.room_for(task, kind, numbers.len())?;
    cells.grow(kind, &numbers, steps);
    Ok(())
}

/// The root sheet, without its order.
fn two_tokens<L: Ledger>(
    alloc: Global,
    task: &Task,
    tables: &Tables,
    bound: u64,
    steps: &mut Steps<L>,
) -> Result<Cells, Memory>
    requires { FitsTask task.now tables.now }
    ensures frame { IfOk result (λ c. IsFrameOf task.now c.frame) }
    ensures sheet { IfOk result (λ c. c.sheet ≡ unordered_root task.now tables.now bound) }
    ensures marks { IfOk result (λ c. c.marks ≡ []) }
    ensures bounds { OnOk result (InBounds task.now) }
{
    let mut cells = bare(alloc, task, tables, bound)?;
    let first = gap(task, tables, Kind::Start, Kind::End);
    add(alloc, &mut cells, task, Kind::Start, 0, 0, steps)?;
    add(
        alloc,
        &mut cells,
        task,
        Kind::End,
        number_of_span(first),
        bound,
        steps,
    )?;
    Ok(cells)
}

/// The root sheet of a bound, with a counter that nobody reads.
fn rooted<L: Ledger>(
    alloc: Global,
    task: &Task,
    tables: &Tables,
    bound: u64,
    blank: Blank,
) -> Result<Cells, Memory>
    requires name { blank.name ≡ L.name }
    requires parts { blank.parts ≡ L.parts }
    requires some { 0 < L.parts }
    requires tables { FitsTask task.now tables.now }
    requires bound { bound ≤ 1000000 }
    ensures frame { IfOk result (λ c. IsFrameOf task.now c.frame) }
    ensures sheet { IfOk result (λ c. c.sheet ≡ root_of task.now tables.now bound) }
    ensures formed { IfOk result (λ c. IsFormed task.now c.sheet) }
    ensures marks { IfOk result (λ c. c.marks ≡ []) }
{
    let mut steps = Steps::<L>::new(blank);
    let mut cells = two_tokens(alloc, task, tables, bound, &mut steps)?;
    cells.decide_before(0, 1, &mut steps);
    Ok(cells)
}

impl Cells {
    /// The root sheet of a bound, and no mark.
    pub fn root(alloc: Global, task: &Task, tables: &Tables, bound: u64) -> Result<Cells, Memory>
        requires tables { FitsTask task.now tables.now }
        requires bound { bound ≤ 1000000 }
        ensures frame { IfOk result (λ c. IsFrameOf task.now c.frame) }
        ensures sheet { IfOk result (λ c. c.sheet ≡ root_of task.now tables.now bound) }
        ensures formed { IfOk result (λ c. IsFormed task.now c.sheet) }
        ensures marks { IfOk result (λ c. c.marks ≡ []) }
    {
        rooted::<Brand>(alloc, task, tables, bound, Blank::new(1))
    }
}
