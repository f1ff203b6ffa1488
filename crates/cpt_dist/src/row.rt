//! The row of an action, lowered until each adder's limit is met.

ghost use Rattle.std.specs.Prelude.{◌≡◌, ℕ, ◌<◌, ◌≤◌, false, All, Contains, length, slice_get};
ghost use Rattle.cpt_task.specs.Shape.{HasAtomsBelow, IsDuration};
ghost use Rattle.cpt_task.specs.declared.span.Span.{Span};
ghost use Rattle.cpt_task.specs.declared.task.Action.{Action};
ghost use Rattle.cpt_tables.specs.Spans.{◌≤ˢ◌, IsBelow};
ghost use Rattle.cpt_tables.specs.Shapes.{most_over};
ghost use Rattle.cpt_tables.specs.Weights.{value_at, IsSmall, IsNextTo};
ghost use Rattle.cpt_dist.specs.Moving.{IsUnder, Falls, Moves, LowersAt};
ghost use Rattle.cpt_dist.specs.Rows.{row_limit, IsMetBy, IsClosed, IsLowered};

use cpt_tables::{add_spans, exceeds, greater_span};
use cpt_task::{Action, Span};

/// The greatest value of the row at one of the atoms, and 0 for none.
fn farthest(row: &[Span], atoms: &[u32]) -> Span
    requires { All (λ p. p < length row.now) atoms.now }
    ensures { result ≡ most_over (value_at row.now) atoms.now }
{
    let mut most = Span::At(0);
    for p in atoms {
        most = greater_span(most, row[*p as usize]);
    }
    most
}

/// Lowers the value at the place to this one where it is greater, and says whether it was.
fn lower_one(row: &mut [Span], place: usize, value: Span) -> bool
    requires { place < length row.old }
    ensures { LowersAt row.old row.new place value result }
{
    let lower = exceeds(row[place], value);
    if lower {
        row[place] = value;
    }
    lower
}

/// Lowers the values at the atoms to this one where they are greater, and says whether one was.
fn lower_all(row: &mut [Span], atoms: &[u32], value: Span) -> bool
    requires few { length row.old ≤ 8388608 }
    requires small { IsSmall row.old }
    requires next { IsNextTo row.old value }
    requires atoms { All (λ p. p < length row.old) atoms.now }
    ensures falls { Falls (λ g. All (λ p. g p ≤ˢ value) atoms.now) row.old row.new }
    ensures moves { Moves row.old row.new result }
    ensures met { All (λ p. value_at row.new p ≤ˢ value) atoms.now }
{
    let mut moved = false;
    for p in atoms {
        let lower = lower_one(row, *p as usize, value);
        moved = moved | lower;
    }
    moved
}

/// When the action can end at the earliest, by the row.
fn limit_of(row: &[Span], action: &Action) -> Span
    requires few { length row.now ≤ 8388608 }
    requires small { IsSmall row.now }
    requires atoms { HasAtomsBelow (length row.now) action.now }
    requires duration { IsDuration action.now.dur }
    ensures value { result ≡ row_limit (value_at row.now) action.now }
    ensures next { IsNextTo row.now result }
{
    let begin = farthest(row, action.pre.as_slice());
    add_spans(begin, Span::At(action.dur as u64))
}

/// Lowers what the action adds to the action's limit, and says whether something was greater.
fn lower_by(row: &mut [Span], action: &Action) -> bool
    requires few { length row.old ≤ 8388608 }
    requires small { IsSmall row.old }
    requires atoms { HasAtomsBelow (length row.old) action.now }
    requires duration { IsDuration action.now.dur }
    ensures falls { Falls (λ g. IsMetBy g action.now) row.old row.new }
    ensures moves { Moves row.old row.new result }
    ensures met { result ≡ false → IsMetBy (value_at row.new) action.now }
{
    let limit = limit_of(row, action);
    lower_all(row, action.add.as_slice(), limit)
}

/// Lowers by each action once, and says whether something was greater.
fn sweep(row: &mut [Span], actions: &[Action]) -> bool
    requires few { length row.old ≤ 8388608 }
    requires small { IsSmall row.old }
    requires atoms { All (HasAtomsBelow (length row.old)) actions.now }
    requires durations { All (λ c. IsDuration c.dur) actions.now }
    ensures falls { Falls (IsClosed actions.now) row.old row.new }
    ensures moves { Moves row.old row.new result }
    ensures met { result ≡ false → IsClosed actions.now (value_at row.new) }
{
    let mut moved = false;
    for c in actions {
        let lower = lower_by(row, c);
        moved = moved | lower;
    }
    moved
}

/// Lowers the row until nothing is greater than the limit of an action.
pub fn lower(row: &mut [Span], actions: &[Action])
    requires few { length row.old ≤ 8388608 }
    requires small { IsSmall row.old }
    requires atoms { All (HasAtomsBelow (length row.old)) actions.now }
    requires durations { All (λ c. IsDuration c.dur) actions.now }
    ensures { IsLowered actions.now row.old row.new }
{
    let mut moved = true;
    while moved {
        moved = sweep(row, actions);
    }
}
