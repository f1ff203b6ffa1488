//! The limits of rules, by a table.

ghost use Rattle.std.specs.Prelude.{◌≡◌, ◌<◌, ◌≤◌, ◌+◌, ◌*◌, ◌++◌, ◌∷◌, [], All};
ghost use Rattle.cpt_task.specs.Shape.{HasAtomsBelow, IsDuration};
ghost use Rattle.cpt_task.specs.declared.span.Span.{Span};
ghost use Rattle.cpt_tables.specs.Spans.{◌+ˢ◌, span_max, IsBelow};
ghost use Rattle.cpt_tables.specs.Shapes.{set_span_of};
ghost use Rattle.cpt_tables.specs.Admissible.{limit_by_one, limit_beside};
ghost use Rattle.cpt_tables.specs.Weights.{IsNextTo, reached};
ghost use Rattle.cpt_h2.specs.Board.{IsGood, IsWithin};
ghost use Rattle.cpt_h2.specs.Rows.{limit_of_parts};

use crate::board::Board;
use cpt_tables::{add_spans, greater_span, set_span, span_with};
use cpt_task::{Action, Span};

/// When all of the atoms can hold together at the earliest.
pub fn span_of(board: &Board, atoms: &[u32]) -> Span
    requires good { IsGood board.now }
    requires atoms { All (λ p. p < board.now.pairs.atoms) atoms.now }
    ensures value { result ≡ set_span_of board.now.pairs atoms.now }
    ensures small { IsBelow (100000 * reached board.now.pairs.values + 1) result }
{
    set_span(board.pairs(), atoms)
}

/// When all of the atoms and one more can hold together at the earliest.
fn span_beside(board: &Board, atoms: &[u32], q: u32) -> Span
    requires good { IsGood board.now }
    requires atoms { All (λ p. p < board.now.pairs.atoms) atoms.now }
    requires atom { q < board.now.pairs.atoms }
    ensures value { result ≡ set_span_of board.now.pairs (atoms.now ++ q ∷ []) }
    ensures small { IsBelow (100000 * reached board.now.pairs.values + 1) result }
{
    let pairs = board.pairs();
    let more = greater_span(span_with(pairs, q, atoms), pairs.get(q, q));
    greater_span(set_span(pairs, atoms), more)
}

/// The span and a duration after it.
fn after(board: &Board, span: Span, dur: u32) -> Span
    requires good { IsGood board.now }
    requires small { IsBelow (100000 * reached board.now.pairs.values + 1) span }
    requires duration { dur ≤ 100000 }
    ensures value { result ≡ span +ˢ Span.At dur }
    ensures next { IsNextTo board.now.pairs.values result }
{
    add_spans(span, Span::At(dur as u64))
}

/// When the action can end at the earliest.
pub fn limit_by_one(board: &Board, action: &Action) -> Span
    requires good { IsGood board.now }
    requires action { IsWithin board.now.pairs.atoms action.now }
    ensures value { result ≡ limit_by_one board.now.pairs action.now }
    ensures next { IsNextTo board.now.pairs.values result }
{
    let begin = span_of(board, action.pre.as_slice());
    after(board, begin, action.dur)
}

/// When the action can end at the earliest beside an atom that stays.
pub fn limit_beside(board: &Board, action: &Action, q: u32) -> Span
    requires good { IsGood board.now }
    requires action { IsWithin board.now.pairs.atoms action.now }
    requires atom { q < board.now.pairs.atoms }
    ensures value { result ≡ limit_beside board.now.pairs action.now q }
    ensures next { IsNextTo board.now.pairs.values result }
{
    let begin = span_beside(board, action.pre.as_slice(), q);
    after(board, begin, action.dur)
}

/// At least when the action can end beside an atom that stays, by what was read of the action; `near` is the row's
/// value at the atom.
pub fn least_beside(board: &Board, action: &Action, own: Span, near: Span) -> Span
    requires good { IsGood board.now }
    requires action { IsWithin board.now.pairs.atoms action.now }
    requires own { IsBelow (100000 * reached board.now.pairs.values + 1) own }
    requires near { IsBelow (100000 * reached board.now.pairs.values + 1) near }
    ensures { result ≡ span_max own near +ˢ Span.At action.now.dur }
{
    after(board, greater_span(own, near), action.dur)
}

/// When two actions that run side by side can both have ended, by the spans of their preconditions and the greatest
/// value across them.
pub fn limit_of_parts(
    board: &Board,
    first: &Action,
    second: &Action,
    own: Span,
    other: Span,
    across: Span,
) -> Span
    requires good { IsGood board.now }
    requires first { IsWithin board.now.pairs.atoms first.now }
    requires second { IsWithin board.now.pairs.atoms second.now }
    requires own { IsBelow (100000 * reached board.now.pairs.values + 1) own }
    requires other { IsBelow (100000 * reached board.now.pairs.values + 1) other }
    requires across { IsBelow (100000 * reached board.now.pairs.values + 1) across }
    ensures value { result ≡ limit_of_parts first.now second.now own other across }
    ensures next { IsNextTo board.now.pairs.values result }
{
    let begin = greater_span(own, greater_span(other, across));
    let both = after(board, begin, first.dur.min(second.dur));
    let more = greater_span(after(board, other, second.dur), both);
    greater_span(after(board, own, first.dur), more)
}
