//! Decisions.

ghost use Rattle.std.specs.Prelude.{◌≡◌, ◌<◌, ◌≤◌, ◌^◌, ◌∷◌, [], true, length, IfOk, OnOk};
ghost use Rattle.cpt_sheet.specs.Edits.{with_posted};
ghost use Rattle.cpt_sheet.specs.Formed.{IsFormed};
ghost use Rattle.cpt_sheet.specs.View.{cands, has};
ghost use Rattle.cpt_calculus.specs.Decisions.{Fits, applied};
ghost use Rattle.cpt_layout.specs.Places.{extended};
ghost use Rattle.cpt_block.specs.Blocks.{IsFrameOf};
ghost use Rattle.cpt_cells.specs.Decided.{IsReadyFor, IsReadyToBring};
ghost use Rattle.cpt_cells.specs.Shapes.{KeepsMarks};

use crate::cells::Cells;
use crate::rows::numbers;
use crate::spans::number_of_span;
use cpt_sheet::{Cand, Decision, Kind};
use cpt_task::{Memory, Steps, Task};
use std::alloc::Global;
use std::sync::ledger::Ledger;

/// Room for the decision that brings a token of this action, and the numbers of the token.
fn prepare_bring(alloc: Global, cells: &mut Cells, task: &Task, a: u32) -> Result<Vec<u64>, Memory>
    requires few { length cells.old.sheet.tokens < 2 ^ 32 }
    requires frame { IsFrameOf task.now cells.old.frame }
    ensures frame { cells.new.frame ≡ cells.old.frame }
    ensures sheet { cells.new.sheet ≡ cells.old.sheet }
    ensures marks { cells.new.marks ≡ cells.old.marks }
    ensures ready { IfOk result (λ v. IsReadyToBring task.now cells.new a v.items) }
    ensures room { OnOk result (0 < cells.new.mark_room) }
    ensures entries { OnOk result (cells.new.cells ≤ cells.new.entry_room) }
{
    let span = cells.out_at(a);
    let kind = Kind::Act(a);
    let numbers = numbers(alloc, cells, task, kind, number_of_span(span.lo), span.hi)?;
    cells.room_for(task, kind, numbers.len())?;
    Ok(numbers)
}

/// The three orders of a new token: after the start, before the end, and before the token that it is brought for.
fn order_new<L: Ledger>(cells: &mut Cells, n: u32, x: u32, steps: &mut Steps<L>)
    requires two { 2 ≤ n }
    requires user { x < n }
    requires there { n < length cells.old.sheet.tokens }
    ensures frame { cells.new.frame ≡ cells.old.frame }
    ensures sheet { cells.new.sheet ≡ with_posted (with_posted (with_posted cells.old.sheet 0 n) n 1) n x }
    ensures marks { KeepsMarks cells.old.marks cells.new.marks }
{
    cells.decide_before(0, n, steps);
    cells.decide_before(n, 1, steps);
    cells.decide_before(n, x, steps);
}

/// Brings the token of an outside action for a token and an atom.
fn bring<L: Ledger>(
    cells: &mut Cells,
    task: &Task,
    x: u32,
    p: u32,
    a: u32,
    numbers: &[u64],
    steps: &mut Steps<L>,
)
    requires frame { IsFrameOf task.now cells.old.frame }
    requires formed { IsFormed task.now cells.old.sheet }
    requires fits { has (Cand.Out a) (cands cells.old.sheet x p) ≡ true }
    requires ready { IsReadyToBring task.now cells.old a numbers.now }
    ensures frame { cells.new.frame ≡ extended cells.old.frame (Kind.Act a ∷ []) }
    ensures sheet { cells.new.sheet ≡ applied task.now cells.old.sheet (Decision.Bring x p a) }
    ensures marks { KeepsMarks cells.old.marks cells.new.marks }
{
    let _ = task;
    let n = cells.tokens() as u32;
    cells.grow(Kind::Act(a), numbers, steps);
    cells.leave(x, p, n, steps);
    order_new(cells, n, x, steps);
}

impl Cells {
    /// Room for a decision, for an entry of each cell that is there, and for one mark. The answer is the numbers of the
    /// token that the decision brings, if it brings one.
    pub fn prepare(
        &mut self,
        alloc: Global,
        task: &Task,
        decision: &Decision,
    ) -> Result<Vec<u64>, Memory>
        requires few { length self.old.sheet.tokens < 2 ^ 32 }
        requires frame { IsFrameOf task.now self.old.frame }
        ensures frame { self.new.frame ≡ self.old.frame }
        ensures sheet { self.new.sheet ≡ self.old.sheet }
        ensures marks { self.new.marks ≡ self.old.marks }
        ensures ready { IfOk result (λ v. IsReadyFor task.now self.new decision.now v.items) }
        ensures room { OnOk result (0 < self.new.mark_room) }
        ensures entries { OnOk result (self.new.cells ≤ self.new.entry_room) }
    {
        if let Decision::Bring { act, .. } = *decision {
            return prepare_bring(alloc, self, task, act);
        }
        self.reserve(0, 0, 0)?;
        Ok(Vec::new(alloc))
    }

    /// Makes a decision for which there is room. It takes no memory.
    pub fn apply<L: Ledger>(
        &mut self,
        task: &Task,
        decision: &Decision,
        numbers: &[u64],
        steps: &mut Steps<L>,
    )
        requires frame { IsFrameOf task.now self.old.frame }
        requires formed { IsFormed task.now self.old.sheet }
        requires fits { Fits self.old.sheet decision.now }
        requires ready { IsReadyFor task.now self.old decision.now numbers.now }
        ensures frame { IsFrameOf task.now self.new.frame }
        ensures sheet { self.new.sheet ≡ applied task.now self.old.sheet decision.now }
        ensures marks { KeepsMarks self.old.marks self.new.marks }
    {
        match *decision {
            Decision::Join { tok, pre, by } => self.leave(tok, pre, by, steps),
            Decision::Bring { tok, pre, act } => bring(self, task, tok, pre, act, numbers, steps),
            Decision::Before { first, second } => self.decide_before(first, second, steps),
        }
    }
}
