//! The least right side of a pair of atoms.

ghost use Rattle.std.specs.Prelude.{◌≡◌, ◌<◌, length, Contains, MatchBool};
ghost use Rattle.cpt_tables.specs.Shapes.{FitsPairs, IsSmallPairs};
ghost use Rattle.cpt_tables.specs.Admissible.{nth_action, IsPairLimit, IsLeast, IsLimitAtStart};
ghost use Rattle.cpt_tables.specs.Scans.{Lessens, IsOneHere, IsBesideHere, AddBoth, AddApart, IsTwoHere, IsPartnerHere, IsActionHere};
ghost use Rattle.cpt_tables.specs.Serving.{IsServed};

use crate::pair_table::PairTable;
use crate::sets::set_span;
use crate::sides::{has, leaves, limit_of_one, limit_of_two, limit_with, served_action};
use crate::spans::lesser_span;
use cpt_task::{Action, Span, Task, interfere};

fn lessen_by_one(pairs: &PairTable, least: Span, c: &Action, p: u32, q: u32) -> Span
    requires small { IsSmallPairs pairs.now }
    requires served { IsServed pairs.now c.now }
    ensures { Lessens (IsOneHere pairs.now c.now p q) least result }
{
    if has(&c.add, p) && has(&c.add, q) {
        lesser_span(least, limit_of_one(pairs, c))
    } else {
        least
    }
}

fn lessen_beside(pairs: &PairTable, least: Span, c: &Action, p: u32, q: u32) -> Span
    requires small { IsSmallPairs pairs.now }
    requires served { IsServed pairs.now c.now }
    requires atom { q < pairs.now.atoms }
    ensures { Lessens (IsBesideHere pairs.now c.now p q) least result }
{
    if has(&c.add, p) && leaves(c, q) {
        let own = set_span(pairs, c.pre.as_slice());
        lesser_span(least, limit_with(pairs, c, own, q))
    } else {
        least
    }
}

fn add_both(c: &Action, d: &Action, p: u32, q: u32) -> bool
    ensures { MatchBool result (AddBoth c.now d.now p q) (AddBoth c.now d.now p q → ⊥) }
{
    has(&c.add, p) && has(&d.add, q)
}

fn add_apart(c: &Action, d: &Action, p: u32, q: u32) -> bool
    ensures { MatchBool result (AddApart c.now d.now p q) (AddApart c.now d.now p q → ⊥) }
{
    add_both(c, d, p, q) && !interfere(c, d)
}

fn lessen_by_two(pairs: &PairTable, least: Span, c: &Action, d: &Action, p: u32, q: u32) -> Span
    requires small { IsSmallPairs pairs.now }
    requires first { IsServed pairs.now c.now }
    requires second { IsServed pairs.now d.now }
    ensures { Lessens (IsTwoHere pairs.now c.now d.now p q) least result }
{
    if add_apart(c, d, p, q) {
        let own = set_span(pairs, c.pre.as_slice());
        lesser_span(least, limit_of_two(pairs, c, own, d))
    } else {
        least
    }
}

fn lessen_by_partners(
    task: &Task,
    pairs: &PairTable,
    mut least: Span,
    act: usize,
    p: u32,
    q: u32,
) -> Span
    requires fits { FitsPairs task.now pairs.now }
    requires act { act < length task.now.actions }
    ensures { Lessens (IsPartnerHere task.now pairs.now act p q) least result }
{
    let c = served_action(task, pairs, act);
    for j in 0..task.actions().len() {
        least = lessen_by_two(pairs, least, c, served_action(task, pairs, j), p, q);
    }
    least
}

fn lessen_by_action(task: &Task, pairs: &PairTable, least: Span, act: usize, p: u32, q: u32) -> Span
    requires fits { FitsPairs task.now pairs.now }
    requires act { act < length task.now.actions }
    requires first { p < pairs.now.atoms }
    requires second { q < pairs.now.atoms }
    ensures { Lessens (IsActionHere task.now pairs.now act p q) least result }
{
    let c = served_action(task, pairs, act);
    let one = lessen_by_one(pairs, least, c, p, q);
    let beside = lessen_beside(pairs, one, c, p, q);
    let exchanged = lessen_beside(pairs, beside, c, q, p);
    lessen_by_partners(task, pairs, exchanged, act, p, q)
}

fn limit_at_start(task: &Task, p: u32, q: u32) -> Span
    ensures { Lessens (IsLimitAtStart task.now p q) Span.Never result }
{
    if task.init().contains(&p) && task.init().contains(&q) {
        Span::At(0)
    } else {
        Span::Never
    }
}

/// The least right side that the two atoms have, and `Never` where they have none.
pub fn least_limit(task: &Task, pairs: &PairTable, p: u32, q: u32) -> Span
    requires fits { FitsPairs task.now pairs.now }
    requires first { p < pairs.now.atoms }
    requires second { q < pairs.now.atoms }
    ensures { IsLeast (IsPairLimit task.now pairs.now p q) result }
{
    let mut least = limit_at_start(task, p, q);
    for act in 0..task.actions().len() {
        least = lessen_by_action(task, pairs, least, act, p, q);
    }
    least
}
