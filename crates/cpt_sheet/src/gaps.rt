//! How far apart tokens and outside actions are, and which can precede which.

ghost use Rattle.std.specs.Prelude.{◌≡◌, ◌<◌, ◌^◌, MatchBool, All, length};
ghost use Rattle.cpt_tables.specs.Shapes.{most_dist, set_span_of};
ghost use Rattle.cpt_tables.specs.Admissible.{nth_action};
ghost use Rattle.cpt_tables.specs.Spans.{◌≤ˢ◌, ◌<ˢ◌, ◌+ˢ◌, IsBelow};
ghost use Rattle.cpt_sheet.specs.Formed.{IsFormed};
ghost use Rattle.cpt_sheet.specs.Gaps.{FitsTask, gap, back, arrival, deadline, ordered, CanPrecede, IsStuck, DeleteEachOther, Exclude, reach, IsImpossibleBeside};
ghost use Rattle.cpt_sheet.specs.Roles.{IsKindOf, needs_of, Deletes, Clash};
ghost use Rattle.cpt_sheet.specs.View.{kind_of, lo, hi, same, span_of};

use crate::data::{Cand, Interval, Kind, Sheet};
use crate::read::{is_ordered, is_same, kind, span};
use crate::roles::{action_at, clash, deletes, needs_of};
use cpt_tables::{Tables, add_spans, dist_to, exceeds, set_span};
use cpt_task::{Span, Task};

#[tactic(auto, using(crate::proofs::GapLemmas::dist_below_more, crate::proofs::GapLemmas::after_below))]
fn reach_after(task: &Task, tables: &Tables, act: u32, atoms: &[u32]) -> Span
    requires tables { FitsTask task.now tables.now }
    requires act { act < length task.now.actions }
    requires atoms { All (λ p. p < length task.now.atoms) atoms.now }
    ensures value { result ≡ Span.At (nth_action task.now act).dur +ˢ most_dist tables.now.dists act atoms.now }
    ensures small { IsBelow 2000000000000000 result }
{
    let action = action_at(task, act);
    let dist = dist_to(&tables.dists, act, atoms);
    add_spans(Span::At(u64::from(action.dur)), dist)
}

#[tactic(auto, using(crate::proofs::GapLemmas::set_below_more))]
fn reach_from_start(task: &Task, tables: &Tables, atoms: &[u32]) -> Span
    requires tables { FitsTask task.now tables.now }
    requires atoms { All (λ p. p < length task.now.atoms) atoms.now }
    ensures value { result ≡ set_span_of tables.now.pairs atoms.now }
    ensures small { IsBelow 2000000000000000 result }
{
    let _ = task;
    set_span(&tables.pairs, atoms)
}

fn reach_from_action(task: &Task, tables: &Tables, act: u32, atoms: &[u32]) -> Span
    requires tables { FitsTask task.now tables.now }
    requires atoms { All (λ p. p < length task.now.atoms) atoms.now }
    ensures value { result ≡ reach task.now tables.now (Kind.Act act) atoms.now }
    ensures small { IsBelow 2000000000000000 result }
{
    if (act as usize) < task.actions().len() {
        reach_after(task, tables, act, atoms)
    } else {
        Span::Never
    }
}

fn reach_of(task: &Task, tables: &Tables, first: Kind, atoms: &[u32]) -> Span
    requires tables { FitsTask task.now tables.now }
    requires atoms { All (λ p. p < length task.now.atoms) atoms.now }
    ensures value { result ≡ reach task.now tables.now first atoms.now }
    ensures small { IsBelow 2000000000000000 result }
{
    match first {
        Kind::Start => reach_from_start(task, tables, atoms),
        Kind::End => Span::Never,
        Kind::Act(a) => reach_from_action(task, tables, a, atoms),
    }
}

/// How long after the beginning of the first the second may begin, where the first comes before it.
pub fn gap(task: &Task, tables: &Tables, first: Kind, second: Kind) -> Span
    requires tables { FitsTask task.now tables.now }
    ensures value { result ≡ gap task.now tables.now first second }
    ensures small { IsBelow 2000000000000000 result }
{
    let atoms = needs_of(task, second);
    match second {
        Kind::Start => Span::Never,
        Kind::End => reach_of(task, tables, first, atoms),
        Kind::Act(_) => reach_of(task, tables, first, atoms),
    }
}

/// The first moment at which the second may begin, where the first comes before it.
#[tactic(auto, using(crate::proofs::FormedLemmas::lo_below_more, crate::proofs::FormedLemmas::gap_below_more))]
pub fn arrives(task: &Task, tables: &Tables, sheet: &Sheet, c: Cand, d: Cand) -> Span
    requires tables { FitsTask task.now tables.now }
    requires formed { IsFormed task.now sheet.now }
    ensures { result ≡ arrival task.now tables.now sheet.now c d }
{
    let apart = gap(task, tables, kind(sheet, c), kind(sheet, d));
    add_spans(span(sheet, c).lo, apart)
}

/// Whether the first span is earlier than the second.
pub fn is_sooner(a: Span, b: Span) -> bool
    ensures { MatchBool result (a <ˢ b) (a <ˢ b → ⊥) }
{
    match (a, b) {
        (Span::At(x), Span::At(y)) => x < y,
        (Span::At(_), Span::Never) => true,
        (Span::Never, Span::At(_)) => false,
        (Span::Never, Span::Never) => false,
    }
}

fn back_by(moment: u64, gap: Span) -> u64
    ensures { result ≡ back moment gap }
{
    match gap {
        Span::At(n) => moment.saturating_sub(n),
        Span::Never => 0,
    }
}

/// The last moment at which the first may begin, where it comes before the second.
pub fn must_begin_by(task: &Task, tables: &Tables, sheet: &Sheet, c: Cand, d: Cand) -> Span
    requires tables { FitsTask task.now tables.now }
    ensures { result ≡ deadline task.now tables.now sheet.now c d }
{
    let apart = gap(task, tables, kind(sheet, c), kind(sheet, d));
    Span::At(back_by(span(sheet, d).hi, apart))
}

fn is_late(arrival: Span, span: Interval) -> bool
    ensures { MatchBool result (arrival ≤ˢ Span.At span.hi → ⊥) (arrival ≤ˢ Span.At span.hi) }
{
    exceeds(arrival, Span::At(span.hi))
}

/// Whether the first can precede the second.
pub fn can_precede(task: &Task, tables: &Tables, sheet: &Sheet, c: Cand, d: Cand) -> bool
    requires tables { FitsTask task.now tables.now }
    requires formed { IsFormed task.now sheet.now }
    ensures { MatchBool result (CanPrecede task.now tables.now sheet.now c d) (CanPrecede task.now tables.now sheet.now c d → ⊥) }
{
    !is_late(arrives(task, tables, sheet, c, d), span(sheet, d)) && !is_ordered(sheet, d, c)
}

fn is_stuck(task: &Task, tables: &Tables, sheet: &Sheet, c: Cand, d: Cand) -> bool
    requires tables { FitsTask task.now tables.now }
    requires formed { IsFormed task.now sheet.now }
    ensures { MatchBool result (IsStuck task.now tables.now sheet.now c d) (IsStuck task.now tables.now sheet.now c d → ⊥) }
{
    clash(task, kind(sheet, c), kind(sheet, d))
        && !can_precede(task, tables, sheet, c, d)
        && !can_precede(task, tables, sheet, d, c)
}

fn delete_each_other(task: &Task, sheet: &Sheet, p: u32, q: u32, c: Cand, d: Cand) -> bool
    ensures { MatchBool result (DeleteEachOther task.now sheet.now p q c d) (DeleteEachOther task.now sheet.now p q c d → ⊥) }
{
    deletes(task, kind(sheet, c), q) && deletes(task, kind(sheet, d), p)
}

fn exclude(task: &Task, tables: &Tables, sheet: &Sheet, p: u32, q: u32, c: Cand, d: Cand) -> bool
    requires tables { FitsTask task.now tables.now }
    requires formed { IsFormed task.now sheet.now }
    ensures { MatchBool result (Exclude task.now tables.now sheet.now p q c d) (Exclude task.now tables.now sheet.now p q c d → ⊥) }
{
    is_stuck(task, tables, sheet, c, d) || delete_each_other(task, sheet, p, q, c, d)
}

/// Whether `d`, as the one that adds `q`, is impossible beside `c`, as the one that adds `p`.
pub fn is_impossible_beside(
    task: &Task,
    tables: &Tables,
    sheet: &Sheet,
    p: u32,
    q: u32,
    c: Cand,
    d: Cand,
) -> bool
    requires tables { FitsTask task.now tables.now }
    requires formed { IsFormed task.now sheet.now }
    ensures { MatchBool result (IsImpossibleBeside task.now tables.now sheet.now p q c d) (IsImpossibleBeside task.now tables.now sheet.now p q c d → ⊥) }
{
    !is_same(d, c) && exclude(task, tables, sheet, p, q, c, d)
}
