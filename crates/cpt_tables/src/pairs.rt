//! Whether a pair table is admissible.

ghost use Rattle.std.specs.Prelude.{◌≡◌, ◌<◌, true, length, MatchOption, IfNone, None};
ghost use Rattle.cpt_task.specs.Shape.{InBounds};
ghost use Rattle.cpt_tables.specs.Shapes.{FitsPairs, IsSmallPairs, set_span_of};
ghost use Rattle.cpt_tables.specs.Admissible.{IsAdmissiblePairs, IsPairFault};
ghost use Rattle.cpt_tables.specs.Bounds.{BoundsPairs};
ghost use Rattle.cpt_tables.specs.Scans.{AreMet, ScansPairs, IsAmongBoth, IsBesideOne, IsBesideAny, IsOfTwo, IsOfPartner, IsOfAction, IsOfTask};
ghost use Rattle.cpt_tables.specs.Serving.{IsServed};

use crate::faults::PairFault;
use crate::least::least_limit;
use crate::pair_table::PairTable;
use crate::search::{Pair, check_product, check_row};
use crate::sets::set_span;
use crate::sides::{after, leaves, limit_of_one, limit_of_two, limit_with, served_action};
use cpt_task::{Action, Span, Task, interfere};

fn check_beside_one(
    pairs: &PairTable,
    best: Option<Pair>,
    c: &Action,
    own: Span,
    q: u32,
) -> Option<Pair>
    requires small { IsSmallPairs pairs.now }
    requires served { IsServed pairs.now c.now }
    requires own { own ≡ set_span_of pairs.now c.now.pre }
    requires atom { q < pairs.now.atoms }
    ensures { ScansPairs pairs.now (IsBesideOne pairs.now c.now q) best result }
{
    if leaves(c, q) {
        check_row(
            pairs,
            best,
            q,
            c.add.as_slice(),
            limit_with(pairs, c, own, q),
        )
    } else {
        best
    }
}

fn check_beside(pairs: &PairTable, mut best: Option<Pair>, c: &Action) -> Option<Pair>
    requires small { IsSmallPairs pairs.now }
    requires served { IsServed pairs.now c.now }
    ensures { ScansPairs pairs.now (IsBesideAny pairs.now c.now) best result }
{
    let own = set_span(pairs, c.pre.as_slice());
    for q in 0..pairs.atoms() {
        best = check_beside_one(pairs, best, c, own, q);
    }
    best
}

/// Whether no value of what the one action adds with what the other adds is above this one.
fn are_met(pairs: &PairTable, c: &Action, d: &Action, most: Span) -> bool
    requires first { IsServed pairs.now c.now }
    requires second { IsServed pairs.now d.now }
    ensures { result ≡ true → AreMet pairs.now c.now.add d.now.add most }
{
    match check_product(pairs, None, c.add.as_slice(), d.add.as_slice(), most) {
        None => true,
        Some(_) => false,
    }
}

/// Goes on over what two actions give. In an admissible table most pairs are met by when the first action ends, and
/// all others by when both do: so whether the two interfere, which takes longer, is asked last.
fn check_two(
    pairs: &PairTable,
    best: Option<Pair>,
    c: &Action,
    own: Span,
    d: &Action,
) -> Option<Pair>
    requires small { IsSmallPairs pairs.now }
    requires first { IsServed pairs.now c.now }
    requires own { own ≡ set_span_of pairs.now c.now.pre }
    requires second { IsServed pairs.now d.now }
    ensures { ScansPairs pairs.now (IsOfTwo pairs.now c.now d.now) best result }
{
    let early = are_met(pairs, c, d, after(own, c.dur));
    if early {
        return best;
    }
    let limit = limit_of_two(pairs, c, own, d);
    let late = are_met(pairs, c, d, limit);
    if late {
        return best;
    }
    if interfere(c, d) {
        return best;
    }
    check_product(pairs, best, c.add.as_slice(), d.add.as_slice(), limit)
}

fn check_partners(
    task: &Task,
    pairs: &PairTable,
    mut best: Option<Pair>,
    act: usize,
) -> Option<Pair>
    requires fits { FitsPairs task.now pairs.now }
    requires act { act < length task.now.actions }
    ensures { ScansPairs pairs.now (IsOfPartner task.now pairs.now act) best result }
{
    let c = served_action(task, pairs, act);
    let own = set_span(pairs, c.pre.as_slice());
    for j in act..task.actions().len() {
        best = check_two(pairs, best, c, own, served_action(task, pairs, j));
    }
    best
}

fn check_action(task: &Task, pairs: &PairTable, best: Option<Pair>, act: usize) -> Option<Pair>
    requires fits { FitsPairs task.now pairs.now }
    requires act { act < length task.now.actions }
    ensures { ScansPairs pairs.now (IsOfAction task.now pairs.now act) best result }
{
    let c = served_action(task, pairs, act);
    let adds = c.add.as_slice();
    let first = check_product(pairs, best, adds, adds, limit_of_one(pairs, c));
    let second = check_beside(pairs, first, c);
    check_partners(task, pairs, second, act)
}

fn check_init(task: &Task, pairs: &PairTable) -> Option<Pair>
    requires bounds { InBounds task.now }
    requires fits { FitsPairs task.now pairs.now }
    ensures { ScansPairs pairs.now (IsAmongBoth task.now.init task.now.init (Span.At 0)) None result }
{
    check_product(pairs, None, task.init(), task.init(), Span::At(0))
}

fn first_pair(task: &Task, pairs: &PairTable) -> Option<Pair>
    requires fits { FitsPairs task.now pairs.now }
    ensures bounds { InBounds task.now }
    ensures found { ScansPairs pairs.now (IsOfTask task.now pairs.now) None result }
{
    let count = task.actions().len();
    let mut best = check_init(task, pairs);
    for act in 0..count {
        best = check_action(task, pairs, best, act);
    }
    best
}

/// Where the table is not admissible: the least pair of atoms whose value is too great, and the most that it may be.
/// It takes no memory.
pub fn admissible_pairs(task: &Task, pairs: &PairTable) -> Option<PairFault>
    requires fits { FitsPairs task.now pairs.now }
    ensures answer { MatchOption result (IsAdmissiblePairs task.now pairs.now) (IsPairFault task.now pairs.now) }
    // An admissible table bounds the moments of plans.
    ensures bounds { IfNone result (BoundsPairs task.now pairs.now) }
{
    let fault = first_pair(task, pairs);
    match fault {
        None => None,
        Some(Pair { p, q }) => Some(PairFault {
            p,
            q,
            most: least_limit(task, pairs, p, q),
        }),
    }
}
