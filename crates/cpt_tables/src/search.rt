//! The search for the least pair of atoms whose value is too great.

ghost use Rattle.std.specs.Prelude.{◌≡◌, ◌<◌, All};
ghost use Rattle.cpt_tables.specs.Scans.{sorted, IsEarlier, ScansPairs, IsOne, IsWithOne, IsAmongBoth};
ghost use Rattle.cpt_tables.specs.declared.search.Pair.{Pair};

use crate::pair_table::PairTable;
use crate::spans::exceeds;
use cpt_task::Span;

/// Two atoms, the lesser first.
#[derive(Clone, Copy, Debug, PartialEq, Eq)]
pub struct Pair {
    pub p: u32,
    pub q: u32,
}

fn sorted(p: u32, q: u32) -> Pair
    ensures { result ≡ sorted p q }
{
    Pair {
        p: p.min(q),
        q: p.max(q),
    }
}

fn earlier(best: Option<Pair>, pair: Pair) -> Option<Pair>
    ensures { IsEarlier best pair result }
{
    match best {
        Some(b) => {
            if b.p < pair.p || (b.p == pair.p && b.q <= pair.q) {
                Some(b)
            } else {
                Some(pair)
            }
        }
        None => Some(pair),
    }
}

fn check_pair(pairs: &PairTable, best: Option<Pair>, p: u32, q: u32, most: Span) -> Option<Pair>
    requires first { p < pairs.now.atoms }
    requires second { q < pairs.now.atoms }
    ensures { ScansPairs pairs.now (IsOne p q most) best result }
{
    if exceeds(pairs.get(p, q), most) {
        earlier(best, sorted(p, q))
    } else {
        best
    }
}

/// Goes on over an atom with each of the list.
pub fn check_row(
    pairs: &PairTable,
    mut best: Option<Pair>,
    p: u32,
    qs: &[u32],
    most: Span,
) -> Option<Pair>
    requires atom { p < pairs.now.atoms }
    requires atoms { All (λ q. q < pairs.now.atoms) qs.now }
    ensures { ScansPairs pairs.now (IsWithOne p qs.now most) best result }
{
    for q in qs {
        best = check_pair(pairs, best, p, *q, most);
    }
    best
}

/// Goes on over each atom of the first list with each of the second.
pub fn check_product(
    pairs: &PairTable,
    mut best: Option<Pair>,
    ps: &[u32],
    qs: &[u32],
    most: Span,
) -> Option<Pair>
    requires first { All (λ p. p < pairs.now.atoms) ps.now }
    requires second { All (λ q. q < pairs.now.atoms) qs.now }
    ensures { ScansPairs pairs.now (IsAmongBoth ps.now qs.now most) best result }
{
    for p in ps {
        best = check_row(pairs, best, *p, qs, most);
    }
    best
}
