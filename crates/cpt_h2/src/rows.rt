//! Rows: the greatest value of each atom with one of a list, read from the table once for many questions.

ghost use Rattle.std.specs.Prelude.{◌≡◌, ℕ, ◌<◌, true, length, All};
ghost use Rattle.cpt_task.specs.declared.span.Span.{Span};
ghost use Rattle.cpt_tables.specs.Spans.{◌≤ˢ◌};
ghost use Rattle.cpt_tables.specs.Shapes.{most_over};
ghost use Rattle.cpt_tables.specs.Weights.{value_at};
ghost use Rattle.cpt_h2.specs.Rows.{IsRowOf, Raises};

use cpt_tables::{PairTable, exceeds, greater_span};
use cpt_task::Span;

fn clear(row: &mut [Span])
    ensures { (q : ℕ) → q < length row.old → value_at row.new q ≡ Span.At 0 }
{
    for value in row.iter_mut() {
        *value = Span::At(0);
    }
}

/// Raises each value to that of the atom with `p`.
fn raise(row: &mut [Span], pairs: &PairTable, p: u32)
    requires size { length row.old ≡ pairs.now.atoms }
    requires atom { p < pairs.now.atoms }
    ensures { Raises pairs.now p row.old row.new }
{
    for q in 0..pairs.atoms() {
        row[q as usize] = greater_span(row[q as usize], pairs.get(p, q));
    }
}

/// Writes the row of the atoms.
pub fn fill(row: &mut [Span], pairs: &PairTable, ps: &[u32])
    requires size { length row.old ≡ pairs.now.atoms }
    requires atoms { All (λ p. p < pairs.now.atoms) ps.now }
    ensures { IsRowOf pairs.now ps.now row.new }
{
    clear(row);
    for p in ps {
        raise(row, pairs, *p);
    }
}

/// The value at the place.
pub fn value_of(row: &[Span], place: usize) -> Span
    requires { place < length row.now }
    ensures { result ≡ value_at row.now place }
{
    row[place]
}

/// The greatest value of the row at one of the atoms, and 0 for none.
pub fn farthest(row: &[Span], atoms: &[u32]) -> Span
    requires { All (λ p. p < length row.now) atoms.now }
    ensures { result ≡ most_over (value_at row.now) atoms.now }
{
    let mut most = Span::At(0);
    for p in atoms {
        most = greater_span(most, row[*p as usize]);
    }
    most
}

/// Whether no value of the row at one of the atoms is above this one.
pub fn is_below(row: &[Span], atoms: &[u32], value: Span) -> bool
    requires { All (λ p. p < length row.now) atoms.now }
    ensures { result ≡ true → All (λ p. value_at row.now p ≤ˢ value) atoms.now }
{
    for p in atoms {
        if exceeds(row[*p as usize], value) {
            return false;
        }
    }
    true
}
