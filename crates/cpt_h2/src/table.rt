//! The table, lowered until all rules are met.

ghost use Rattle.std.specs.Prelude.{◌≡◌, ◌≤◌, true, IfOk, length, All, replicate};
ghost use Rattle.cpt_tables.specs.Shapes.{FitsPairs, pairs_of};
ghost use Rattle.cpt_tables.specs.Greatest.{IsGreatestPairs};
ghost use Rattle.cpt_task.specs.declared.span.Span.{Span};
ghost use Rattle.cpt_h2.specs.Board.{IsGood, IsWithin};
ghost use Rattle.cpt_h2.specs.Rounds.{AllSettled, EndsRound, Relaxes};
ghost use Rattle.cpt_h2.specs.Rows.{IsRoom};

use crate::board::Board;
use crate::marks::Marks;
use crate::rules::apply_all;
use cpt_tables::PairTable;
use cpt_task::{Action, Memory, Span, Task};
use std::alloc::Global;

/// Looks at each rule whose atoms have a mark, and marks what changes. The marks that it looked by are left in `looked`.
fn round(
    board: &mut Board,
    looked: &mut Marks,
    actions: &[Action],
    spans: &mut [Span],
    reach: &mut [Span],
    tops: &mut [Span],
)
    requires good { IsGood board.old }
    requires size { length looked.old.atoms ≡ board.old.pairs.atoms }
    requires actions { All (IsWithin board.old.pairs.atoms) actions.now }
    requires room { IsRoom (length actions.now) board.old.pairs.atoms spans.old reach.old tops.old }
    requires settled { AllSettled actions.now board.old }
    ensures round { EndsRound actions.now board.old board.new }
    ensures size { length looked.new.atoms ≡ board.new.pairs.atoms }
    ensures room { IsRoom (length actions.now) board.new.pairs.atoms spans.new reach.new tops.new }
{
    board.start_round(looked);
    apply_all(board, looked, actions, spans, reach, tops);
}

/// Lowers the table until all rules are met.
fn relax(
    board: &mut Board,
    looked: &mut Marks,
    actions: &[Action],
    spans: &mut [Span],
    reach: &mut [Span],
    tops: &mut [Span],
)
    requires good { IsGood board.old }
    requires size { length looked.old.atoms ≡ board.old.pairs.atoms }
    requires actions { All (IsWithin board.old.pairs.atoms) actions.now }
    requires room { IsRoom (length actions.now) board.old.pairs.atoms spans.old reach.old tops.old }
    requires marks { board.old.marks.every ≡ true }
    ensures { Relaxes actions.now board.old board.new }
{
    let mut going = true;
    while going {
        round(board, looked, actions, spans, reach, tops);
        going = board.has_moved();
    }
}

/// Marks for `n` atoms.
fn new_marks(alloc: Global, n: u32) -> Result<Marks, Memory>
    ensures every { IfOk result (λ marks. marks.every ≡ true) }
    ensures size { IfOk result (λ marks. length marks.atoms ≡ n) }
{
    let mut atoms = Vec::new(alloc);
    atoms.resize(n as usize, false)?;
    Ok(Marks::from_vec(atoms))
}

/// Room for so many spans.
fn new_spans(alloc: Global, n: usize) -> Result<Vec<Span>, Memory>
    ensures { IfOk result (λ spans. length spans.items ≡ n) }
{
    let mut spans = Vec::new(alloc);
    spans.resize(n, Span::Never)?;
    Ok(spans)
}

/// Lowers the values of a board without values to those of the task.
fn solve(
    board: &mut Board,
    looked: &mut Marks,
    task: &Task,
    spans: &mut [Span],
    reach: &mut [Span],
    tops: &mut [Span],
)
    requires few { length task.now.atoms ≤ 2048 }
    requires pairs { board.old.pairs ≡ pairs_of (length task.now.atoms) Span.Never }
    requires marks { board.old.marks.every ≡ true }
    requires marks_size { length board.old.marks.atoms ≡ length task.now.atoms }
    requires size { length looked.old.atoms ≡ length task.now.atoms }
    requires room { IsRoom (length task.now.actions) (length task.now.atoms) spans.old reach.old tops.old }
    ensures greatest { IsGreatestPairs task.now board.new.pairs }
    ensures fits { FitsPairs task.now board.new.pairs }
{
    let actions = task.actions();
    let init = task.init();
    board.lower_all(init, init, Span::At(0));
    relax(board, looked, actions, spans, reach, tops);
}

/// The greatest admissible pair table of the task.
pub fn pair_table(alloc: Global, task: &Task) -> Result<PairTable, Memory>
    requires few_atoms { length task.now.atoms ≤ 2048 }
    requires few_actions { length task.now.actions ≤ 4096 }
    ensures greatest { IfOk result (λ pairs. IsGreatestPairs task.now pairs) }
    ensures fits { IfOk result (λ pairs. FitsPairs task.now pairs) }
{
    let n = task.atoms().len() as u32;
    let pairs = PairTable::filled(alloc, n, Span::Never)?;
    let mut board = Board::new(pairs, new_marks(alloc, n)?);
    let mut looked = new_marks(alloc, n)?;
    let mut spans = new_spans(alloc, task.actions().len())?;
    let mut reach = new_spans(alloc, n as usize)?;
    let mut tops = new_spans(alloc, n as usize)?;
    solve(
        &mut board,
        &mut looked,
        task,
        &mut spans,
        &mut reach,
        &mut tops,
    );
    Ok(board.into_pairs())
}
