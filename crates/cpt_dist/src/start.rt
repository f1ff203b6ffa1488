//! The first values of a row.

ghost use Rattle.std.specs.Prelude.{◌≡◌, ℕ, ◌<◌, ◌≤◌, All, Contains, MatchBool, length};
ghost use Rattle.cpt_tables.specs.Spans.{IsFinite};
ghost use Rattle.cpt_tables.specs.Shapes.{pair_at};
ghost use Rattle.cpt_tables.specs.Admissible.{IsAtOnce};
ghost use Rattle.cpt_dist.specs.Rows.{IsStart, IsStarted, HasFinite, LacksFinite};

use cpt_tables::PairTable;
use cpt_task::{Action, Span};

/// Whether the span is not `Never`.
fn is_finite(span: Span) -> bool
    ensures { MatchBool result (IsFinite span) (IsFinite span → ⊥) }
{
    match span {
        Span::At(_) => true,
        Span::Never => false,
    }
}

/// Whether the atom has a finite value with each of the atoms.
fn can_stand_with(pairs: &PairTable, p: u32, atoms: &[u32]) -> bool
    requires atom { p < pairs.now.atoms }
    requires atoms { All (λ r. r < pairs.now.atoms) atoms.now }
    ensures { MatchBool result (HasFinite pairs.now p atoms.now) (LacksFinite pairs.now p atoms.now) }
{
    for r in atoms {
        if !is_finite(pairs.get(p, *r)) {
            return false;
        }
    }
    true
}

/// Whether the distance of the action to the atom is to be 0.
fn is_at_once(pairs: &PairTable, action: &Action, p: u32) -> bool
    requires atom { p < pairs.now.atoms }
    requires atoms { All (λ r. r < pairs.now.atoms) action.now.add }
    ensures { MatchBool result (IsAtOnce pairs.now action.now p) (IsAtOnce pairs.now action.now p → ⊥) }
{
    let add = action.add.as_slice();
    let dele = action.dele.as_slice();
    add.contains(&p) || !dele.contains(&p) && can_stand_with(pairs, p, add)
}

/// The first value of the action and the atom: 0 where the distance is to be 0, and `Never` elsewhere.
fn first_value(pairs: &PairTable, action: &Action, p: u32) -> Span
    requires atom { p < pairs.now.atoms }
    requires atoms { All (λ r. r < pairs.now.atoms) action.now.add }
    ensures { IsStart pairs.now action.now p result }
{
    if is_at_once(pairs, action, p) {
        Span::At(0)
    } else {
        Span::Never
    }
}

/// Writes the first values of the action.
pub fn start(row: &mut [Span], pairs: &PairTable, action: &Action)
    requires size { length row.old ≡ pairs.now.atoms }
    requires few { length row.old ≤ 2048 }
    requires atoms { All (λ r. r < pairs.now.atoms) action.now.add }
    ensures { IsStarted pairs.now action.now (length row.new) row.new }
{
    for p in 0..row.len() {
        row[p] = first_value(pairs, action, p as u32);
    }
}
