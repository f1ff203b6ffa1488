//! Whether a distance table is admissible.

ghost use Rattle.std.specs.Prelude.{◌≡◌, ◌<◌, ℕ, length, All, MatchBool, MatchOption, IfNone, None};
ghost use Rattle.cpt_task.specs.Shape.{InBounds};
ghost use Rattle.cpt_tables.specs.Spans.{◌≤ˢ◌, ◌+ˢ◌, IsFinite};
ghost use Rattle.cpt_tables.specs.Shapes.{FitsPairs, FitsDists, IsSmallDists, most_dist, dist_at, pair_at};
ghost use Rattle.cpt_tables.specs.Admissible.{nth_action, IsAtOnce, Stays, CanHoldWith, IsDistLimit, IsLimitAfter, IsLeast, IsAdmissiblePairs, IsAdmissibleDists, IsDistFault, limit_after};
ghost use Rattle.cpt_tables.specs.Bounds.{BoundsDists};
ghost use Rattle.cpt_tables.specs.Scans.{IsEarlierAtom, IsLate, IsFineBefore, ScansAtoms, IsZeroHere, IsAfterHere, IsOfDist, IsAtomOne, IsAtomAmong, Lessens};
ghost use Rattle.cpt_tables.specs.Serving.{IsServed, IsReached};

use crate::dist_table::DistTable;
use crate::faults::DistFault;
use crate::pair_table::PairTable;
use crate::sets::dist_to;
use crate::sides::{after, has, served_action};
use crate::spans::{exceeds, lesser_span};
use cpt_task::{Action, Span, Task};

fn is_finite(span: Span) -> bool
    ensures { MatchBool result (IsFinite span) (IsFinite span → ⊥) }
{
    match span {
        Span::At(_) => true,
        Span::Never => false,
    }
}

fn can_hold_with(pairs: &PairTable, p: u32, atoms: &[u32]) -> bool
    requires atom { p < pairs.now.atoms }
    requires atoms { All (λ r. r < pairs.now.atoms) atoms.now }
    ensures { MatchBool result (CanHoldWith pairs.now p atoms.now) (CanHoldWith pairs.now p atoms.now → ⊥) }
{
    for r in atoms {
        if !is_finite(pairs.get(p, *r)) {
            return false;
        }
    }
    true
}

fn stays(pairs: &PairTable, a: &Action, p: u32) -> bool
    requires served { IsServed pairs.now a.now }
    requires atom { p < pairs.now.atoms }
    ensures { MatchBool result (Stays pairs.now a.now p) (Stays pairs.now a.now p → ⊥) }
{
    !has(&a.dele, p) && can_hold_with(pairs, p, a.add.as_slice())
}

/// Whether the distance of the action to the atom is to be 0.
pub fn is_at_once(pairs: &PairTable, a: &Action, p: u32) -> bool
    requires served { IsServed pairs.now a.now }
    requires atom { p < pairs.now.atoms }
    ensures { MatchBool result (IsAtOnce pairs.now a.now p) (IsAtOnce pairs.now a.now p → ⊥) }
{
    has(&a.add, p) || stays(pairs, a, p)
}

/// The right side that action `c` gives the distance of action `act` to an atom that `c` adds.
pub fn limit_after(dists: &DistTable, act: u32, c: &Action) -> Span
    requires small { IsSmallDists dists.now }
    requires act { act < dists.now.actions }
    requires reached { IsReached dists.now c.now }
    ensures { result ≡ limit_after dists.now act c.now }
{
    after(dist_to(dists, act, c.pre.as_slice()), c.dur)
}

fn earlier_atom(best: Option<u32>, p: u32) -> u32
    ensures { IsEarlierAtom best p result }
{
    match best {
        Some(b) => b.min(p),
        None => p,
    }
}

fn check_atom(dists: &DistTable, best: Option<u32>, act: u32, p: u32, most: Span) -> Option<u32>
    requires act { act < dists.now.actions }
    requires atom { p < dists.now.atoms }
    ensures { ScansAtoms dists.now act (IsAtomOne p most) best result }
{
    if exceeds(dists.get(act, p), most) {
        Some(earlier_atom(best, p))
    } else {
        best
    }
}

fn check_atoms(
    dists: &DistTable,
    mut best: Option<u32>,
    act: u32,
    ps: &[u32],
    most: Span,
) -> Option<u32>
    requires act { act < dists.now.actions }
    requires atoms { All (λ p. p < dists.now.atoms) ps.now }
    ensures { ScansAtoms dists.now act (IsAtomAmong ps.now most) best result }
{
    for p in ps {
        best = check_atom(dists, best, act, *p, most);
    }
    best
}

fn is_late(pairs: &PairTable, dists: &DistTable, act: u32, a: &Action, p: u32) -> bool
    requires served { IsServed pairs.now a.now }
    requires act { act < dists.now.actions }
    requires atom { p < dists.now.atoms }
    requires same { dists.now.atoms ≡ pairs.now.atoms }
    ensures { MatchBool result (IsLate pairs.now dists.now act a.now p) (IsLate pairs.now dists.now act a.now p → ⊥) }
{
    exceeds(dists.get(act, p), Span::At(0)) && is_at_once(pairs, a, p)
}

fn first_late(pairs: &PairTable, dists: &DistTable, act: u32, a: &Action) -> Option<u32>
    requires served { IsServed pairs.now a.now }
    requires act { act < dists.now.actions }
    requires same { dists.now.atoms ≡ pairs.now.atoms }
    ensures { ScansAtoms dists.now act (IsZeroHere pairs.now a.now) None result }
{
    for p in 0..dists.atoms() {
        if is_late(pairs, dists, act, a, p) {
            return Some(p);
        }
    }
    None
}

fn first_atom(task: &Task, pairs: &PairTable, dists: &DistTable, act: u32) -> Option<u32>
    requires pairs { FitsPairs task.now pairs.now }
    requires dists { FitsDists task.now dists.now }
    requires act { act < dists.now.actions }
    ensures bounds { InBounds task.now }
    ensures found { ScansAtoms dists.now act (IsOfDist task.now pairs.now dists.now act) None result }
{
    let count = task.actions().len();
    let mut best = first_late(pairs, dists, act, served_action(task, pairs, act as usize));
    for j in 0..count {
        let c = served_action(task, pairs, j);
        best = check_atoms(
            dists,
            best,
            act,
            c.add.as_slice(),
            limit_after(dists, act, c),
        );
    }
    best
}

fn lessen_after(dists: &DistTable, least: Span, act: u32, c: &Action, p: u32) -> Span
    requires small { IsSmallDists dists.now }
    requires act { act < dists.now.actions }
    requires reached { IsReached dists.now c.now }
    ensures { Lessens (IsAfterHere dists.now act c.now p) least result }
{
    if has(&c.add, p) {
        lesser_span(least, limit_after(dists, act, c))
    } else {
        least
    }
}

fn least_after(task: &Task, pairs: &PairTable, dists: &DistTable, act: u32, p: u32) -> Span
    requires pairs { FitsPairs task.now pairs.now }
    requires dists { FitsDists task.now dists.now }
    requires act { act < dists.now.actions }
    ensures { Lessens (IsLimitAfter task.now dists.now act p) Span.Never result }
{
    let mut least = Span::Never;
    for j in 0..task.actions().len() {
        least = lessen_after(dists, least, act, served_action(task, pairs, j), p);
    }
    least
}

fn least_distance(task: &Task, pairs: &PairTable, dists: &DistTable, act: u32, p: u32) -> Span
    requires pairs { FitsPairs task.now pairs.now }
    requires dists { FitsDists task.now dists.now }
    requires act { act < dists.now.actions }
    requires atom { p < dists.now.atoms }
    ensures least { IsLeast (IsDistLimit task.now pairs.now dists.now act p) result }
    ensures within { (v : Span) → IsOfDist task.now pairs.now dists.now act p v → result ≤ˢ v }
{
    if is_at_once(pairs, served_action(task, pairs, act as usize), p) {
        Span::At(0)
    } else {
        least_after(task, pairs, dists, act, p)
    }
}

/// Where the table is not admissible over the pair table: the least action and atom whose distance is too great, and
/// the most that it may be. It takes no memory.
pub fn admissible_dists(task: &Task, pairs: &PairTable, dists: &DistTable) -> Option<DistFault>
    requires pairs { FitsPairs task.now pairs.now }
    requires dists { FitsDists task.now dists.now }
    ensures answer { MatchOption result (IsAdmissibleDists task.now pairs.now dists.now) (IsDistFault task.now pairs.now dists.now) }
    // A table that is admissible over an admissible pair table bounds the moments of plans.
    ensures bounds { IfNone result (IsAdmissiblePairs task.now pairs.now → BoundsDists task.now dists.now) }
{
    let count = task.actions().len() as u32;
    for act in 0..count {
        if let Some(atom) = first_atom(task, pairs, dists, act) {
            return Some(DistFault {
                act,
                atom,
                most: least_distance(task, pairs, dists, act, atom),
            });
        }
    }
    None
}
