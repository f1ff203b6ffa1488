//! The right sides of pairs.

ghost use Rattle.std.specs.Prelude.{◌≡◌, ◌<◌, ◌↔◌, length, Contains, IsTrue, MatchBool};
ghost use Rattle.cpt_task.specs.Shape.{IsDuration};
ghost use Rattle.cpt_tables.specs.Spans.{◌+ˢ◌, IsBelow};
ghost use Rattle.cpt_tables.specs.Shapes.{FitsPairs, IsSmallPairs, set_span_of};
ghost use Rattle.cpt_tables.specs.Admissible.{nth_action, limit_by_one, limit_beside, limit_by_two, Leaves};
ghost use Rattle.cpt_tables.specs.Serving.{IsServed};

use crate::pair_table::PairTable;
use crate::sets::{set_span, span_across, span_with};
use crate::spans::{add_spans, greater_span};
use cpt_task::{Action, Ids, Span, Task};

/// The action of a number.
pub fn served_action<'a>(task: &'a Task, pairs: &PairTable, act: usize) -> &'a Action
    requires fits { FitsPairs task.now pairs.now }
    requires act { act < length task.now.actions }
    ensures action { result.now ≡ nth_action task.now act }
    ensures served { IsServed pairs.now result.now }
{
    &task.actions()[act]
}

/// Whether the atom is in the set.
pub fn has(ids: &Ids, p: u32) -> bool
    ensures { IsTrue result ↔ Contains ids.now p }
{
    ids.as_slice().contains(&p)
}

/// Whether the action neither adds nor deletes the atom.
pub fn leaves(c: &Action, q: u32) -> bool
    ensures { MatchBool result (Leaves c.now q) (Leaves c.now q → ⊥) }
{
    !has(&c.add, q) && !has(&c.dele, q)
}

/// The span and then so long.
pub fn after(span: Span, dur: u32) -> Span
    requires small { IsBelow 1000000000000000 span }
    requires duration { IsDuration dur }
    ensures { result ≡ span +ˢ Span.At dur }
{
    add_spans(span, Span::At(u64::from(dur)))
}

/// The right side that an action gives two atoms that it adds.
pub fn limit_of_one(pairs: &PairTable, c: &Action) -> Span
    requires small { IsSmallPairs pairs.now }
    requires served { IsServed pairs.now c.now }
    ensures { result ≡ limit_by_one pairs.now c.now }
{
    after(set_span(pairs, c.pre.as_slice()), c.dur)
}

/// The right side that an action gives an atom that it adds with one that it leaves; `own` is the span of its
/// preconditions.
pub fn limit_with(pairs: &PairTable, c: &Action, own: Span, q: u32) -> Span
    requires small { IsSmallPairs pairs.now }
    requires served { IsServed pairs.now c.now }
    requires own { own ≡ set_span_of pairs.now c.now.pre }
    requires atom { q < pairs.now.atoms }
    ensures { result ≡ limit_beside pairs.now c.now q }
{
    let beside = greater_span(span_with(pairs, q, c.pre.as_slice()), pairs.get(q, q));
    after(greater_span(own, beside), c.dur)
}

/// The right side that two actions give an atom that the one adds with one that the other adds; `own` is the span
/// of the first one's preconditions.
pub fn limit_of_two(pairs: &PairTable, c: &Action, own: Span, d: &Action) -> Span
    requires small { IsSmallPairs pairs.now }
    requires first { IsServed pairs.now c.now }
    requires own { own ≡ set_span_of pairs.now c.now.pre }
    requires second { IsServed pairs.now d.now }
    ensures { result ≡ limit_by_two pairs.now c.now d.now }
{
    let other = set_span(pairs, d.pre.as_slice());
    let across = span_across(pairs, c.pre.as_slice(), d.pre.as_slice());
    let both = greater_span(own, greater_span(other, across));
    let together = after(both, c.dur.min(d.dur));
    greater_span(
        after(own, c.dur),
        greater_span(after(other, d.dur), together),
    )
}
