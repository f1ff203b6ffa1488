//! The greatest values over sets of atoms.

ghost use Rattle.std.specs.Prelude.{◌≡◌, ◌<◌, All};
ghost use Rattle.cpt_tables.specs.Shapes.{most_with, most_across, set_span_of, most_dist};

use crate::dist_table::DistTable;
use crate::pair_table::PairTable;
use crate::spans::greater_span;
use cpt_task::Span;

/// The greatest value of the atom with one of the list, and 0 for none.
pub fn span_with(pairs: &PairTable, p: u32, atoms: &[u32]) -> Span
    requires atom { p < pairs.now.atoms }
    requires atoms { All (λ q. q < pairs.now.atoms) atoms.now }
    ensures { result ≡ most_with pairs.now atoms.now p }
{
    let mut most = Span::At(0);
    for q in atoms {
        most = greater_span(most, pairs.get(p, *q));
    }
    most
}

/// The greatest value of an atom of the first list with one of the second, and 0 for none.
pub fn span_across(pairs: &PairTable, first: &[u32], second: &[u32]) -> Span
    requires first { All (λ p. p < pairs.now.atoms) first.now }
    requires second { All (λ p. p < pairs.now.atoms) second.now }
    ensures { result ≡ most_across pairs.now first.now second.now }
{
    let mut most = Span::At(0);
    for p in first {
        most = greater_span(most, span_with(pairs, *p, second));
    }
    most
}

/// The greatest value over all pairs of the atoms, an atom with itself included, and 0 for none.
pub fn set_span(pairs: &PairTable, atoms: &[u32]) -> Span
    requires { All (λ p. p < pairs.now.atoms) atoms.now }
    ensures { result ≡ set_span_of pairs.now atoms.now }
{
    span_across(pairs, atoms, atoms)
}

/// The greatest distance of the action to one of the atoms, and 0 for none.
pub fn dist_to(dists: &DistTable, act: u32, atoms: &[u32]) -> Span
    requires act { act < dists.now.actions }
    requires atoms { All (λ p. p < dists.now.atoms) atoms.now }
    ensures { result ≡ most_dist dists.now act atoms.now }
{
    let mut most = Span::At(0);
    for p in atoms {
        most = greater_span(most, dists.get(act, *p));
    }
    most
}
