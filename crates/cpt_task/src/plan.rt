//! Plans, and whether they are valid.

ghost use Rattle.std.specs.Prelude.{◌≡◌, ◌↔◌, ◌<◌, ◌≤◌, ◌^◌, ◌+◌, ℕ, false, IsTrue, MatchBool, IfOk, MatchOption, MatchResult, All, Contains, length};
ghost use Rattle.std.specs.List.Sorted.{IsStrictlyIncreasing};
ghost use Rattle.cpt_task.specs.Interference.{Shares, Disturbs, Interferes};
ghost use Rattle.cpt_task.specs.Judging.{NoClashUpTo, IsFirstClashOf, IsFirstClash, IsFirstNeed, IsFirstUnmet, IsFirstMissingOf, Judges};
ghost use Rattle.cpt_task.specs.Register.{IsTimetable};
ghost use Rattle.cpt_task.specs.Judgeable.{IsJudgeable, IsJudgeableAt};
ghost use Rattle.cpt_task.specs.Timeline.{Overlaps, ClashBetween, Clashes, IsApart, HoldsThen, IsMet, IsValid, makespan, occurrence_at};

use crate::memory::Memory;
use crate::register::{Role, Timetable, holds_then, some_has_company, timetable_of};
use crate::task::{Action, Task};
use crate::timeline::{action_at, end_at, makespan_of};
use std::alloc::Global;

/// An occurrence in a plan: the number of an action of the task, and the moment at which it starts.
#[derive(Clone, Copy, Debug, PartialEq, Eq)]
pub struct Occ {
    pub act: u32,
    pub start: u64,
}

/// Whether a plan is valid, or the first cause against it. The causes are tested in the order of the variants.
#[derive(Clone, Copy, Debug, PartialEq, Eq)]
pub enum Verdict {
    /// Valid, with this makespan.
    Valid(u64),
    /// The occurrences at these two places interfere and overlap.
    Overlap(u32, u32),
    /// The occurrence at this place lacks this atom at this moment.
    Unmet(u32, u32, u64),
    /// This atom of the goal does not hold at the makespan.
    GoalMissing(u32),
}

fn shares(xs: &[u32], ys: &[u32]) -> bool
    ensures { IsTrue result ↔ Shares xs.now ys.now }
{
    xs.iter().any(|x| ys.contains(x))
}

fn disturbs(a: &Action, b: &Action) -> bool
    ensures { IsTrue result ↔ Disturbs a.now b.now }
{
    shares(a.dele.as_slice(), b.pre.as_slice()) || shares(a.dele.as_slice(), b.add.as_slice())
}

/// Whether one of the actions deletes an atom that the other needs or adds. The two may be one action.
pub fn interfere(a: &Action, b: &Action) -> bool
    ensures { IsTrue result ↔ Interferes a.now b.now }
{
    disturbs(a, b) || disturbs(b, a)
}

fn overlap(task: &Task, o: &Occ, q: &Occ) -> bool
    requires first { IsJudgeableAt task.now o.now }
    requires second { IsJudgeableAt task.now q.now }
    ensures { MatchBool result (Overlaps task.now o.now q.now) (Overlaps task.now o.now q.now → ⊥) }
{
    o.start < end_at(task, q) && q.start < end_at(task, o)
}

fn clash_between(task: &Task, o: &Occ, q: &Occ) -> bool
    requires first { IsJudgeableAt task.now o.now }
    requires second { IsJudgeableAt task.now q.now }
    ensures { MatchBool result (ClashBetween task.now o.now q.now) (ClashBetween task.now o.now q.now → ⊥) }
{
    overlap(task, o, q) && interfere(action_at(task, o), action_at(task, q))
}

fn clash(task: &Task, plan: &[Occ], i: usize, j: usize) -> bool
    requires plan { IsJudgeable task.now plan.now }
    requires first { i < length plan.now }
    requires second { j < length plan.now }
    ensures { MatchBool result (Clashes task.now plan.now i j) (Clashes task.now plan.now i j → ⊥) }
{
    clash_between(task, &plan[i], &plan[j])
}

fn first_clash_of(task: &Task, plan: &[Occ], i: usize) -> Option<usize>
    requires plan { IsJudgeable task.now plan.now }
    requires within { i < length plan.now }
    ensures { MatchOption result (NoClashUpTo task.now plan.now i (length plan.now)) (IsFirstClashOf task.now plan.now i) }
{
    for j in i + 1..plan.len() {
        if clash(task, plan, i, j) {
            return Some(j);
        }
    }
    None
}

/// Whether the occurrence at the place may clash with another. Where it does not, the answer is no.
fn may_clash(task: &Task, plan: &[Occ], times: &Timetable, i: usize) -> bool
    requires plan { IsJudgeable task.now plan.now }
    requires within { i < length plan.now }
    requires times { IsTimetable task.now plan.now times.now }
    ensures { result ≡ false → NoClashUpTo task.now plan.now i (length plan.now) }
{
    let action = action_at(task, &plan[i]);
    let dele = action.dele.as_slice();
    if some_has_company(task, plan, &times.pre, Role::Pre, i, dele) {
        return true;
    }
    if some_has_company(task, plan, &times.add, Role::Add, i, dele) {
        return true;
    }
    if some_has_company(
        task,
        plan,
        &times.dele,
        Role::Dele,
        i,
        action.pre.as_slice(),
    ) {
        return true;
    }
    some_has_company(
        task,
        plan,
        &times.dele,
        Role::Dele,
        i,
        action.add.as_slice(),
    )
}

fn first_clash_at(task: &Task, plan: &[Occ], times: &Timetable, i: usize) -> Option<usize>
    requires plan { IsJudgeable task.now plan.now }
    requires within { i < length plan.now }
    requires times { IsTimetable task.now plan.now times.now }
    ensures { MatchOption result (NoClashUpTo task.now plan.now i (length plan.now)) (IsFirstClashOf task.now plan.now i) }
{
    if may_clash(task, plan, times, i) {
        first_clash_of(task, plan, i)
    } else {
        None
    }
}

fn first_clash(task: &Task, plan: &[Occ], times: &Timetable) -> Option<(usize, usize)>
    requires plan { IsJudgeable task.now plan.now }
    requires times { IsTimetable task.now plan.now times.now }
    ensures { MatchOption result (IsApart task.now plan.now) (λ places. IsFirstClash task.now plan.now places.0 places.1) }
{
    for i in 0..plan.len() {
        if let Some(j) = first_clash_at(task, plan, times, i) {
            return Some((i, j));
        }
    }
    None
}

fn first_lack(task: &Task, plan: &[Occ], times: &Timetable, atoms: &[u32], time: u64) -> Option<u32>
    requires plan { IsJudgeable task.now plan.now }
    requires times { IsTimetable task.now plan.now times.now }
    requires short { time < 2 ^ 63 }
    requires increasing { IsStrictlyIncreasing atoms.now }
    ensures { MatchOption result (All (HoldsThen task.now plan.now time) atoms.now) (IsFirstMissingOf task.now plan.now atoms.now time) }
{
    for p in atoms {
        if !holds_then(task, plan, times, time, *p) {
            return Some(*p);
        }
    }
    None
}

/// Where no occurrences clash, a need that is met at the start is met to the end.
fn first_need(task: &Task, plan: &[Occ], times: &Timetable, i: usize) -> Option<u32>
    requires plan { IsJudgeable task.now plan.now }
    requires within { i < length plan.now }
    requires times { IsTimetable task.now plan.now times.now }
    requires apart { IsApart task.now plan.now }
    ensures { MatchOption result (IsMet task.now plan.now (occurrence_at plan.now i)) (λ p. IsFirstNeed task.now plan.now (occurrence_at plan.now i) p (occurrence_at plan.now i).start) }
{
    let o = &plan[i];
    first_lack(
        task,
        plan,
        times,
        action_at(task, o).pre.as_slice(),
        o.start,
    )
}

fn first_unmet(task: &Task, plan: &[Occ], times: &Timetable) -> Option<(usize, u32, u64)>
    requires plan { IsJudgeable task.now plan.now }
    requires times { IsTimetable task.now plan.now times.now }
    requires apart { IsApart task.now plan.now }
    ensures { MatchOption result (All (IsMet task.now plan.now) plan.now) (λ need. IsFirstUnmet task.now plan.now need.0 need.1 need.2) }
{
    for (i, o) in plan.iter().enumerate() {
        if let Some(p) = first_need(task, plan, times, i) {
            return Some((i, p, o.start));
        }
    }
    None
}

fn verdict_of(task: &Task, plan: &[Occ], times: &Timetable) -> Verdict
    requires plan { IsJudgeable task.now plan.now }
    requires short { length plan.now < 2 ^ 32 }
    requires times { IsTimetable task.now plan.now times.now }
    ensures { Judges task.now plan.now result }
{
    if let Some((i, j)) = first_clash(task, plan, times) {
        return Verdict::Overlap(i as u32, j as u32);
    }
    if let Some((i, p, time)) = first_unmet(task, plan, times) {
        return Verdict::Unmet(i as u32, p, time);
    }
    let makespan = makespan_of(task, plan);
    if let Some(p) = first_lack(task, plan, times, task.goal(), makespan) {
        return Verdict::GoalMissing(p);
    }
    Verdict::Valid(makespan)
}

/// Whether the plan is valid, and else the first cause against it. It looks only at the moments at which an
/// occurrence starts or ends, and takes a time that grows little more than the atoms that the plan touches.
pub fn judge(alloc: Global, task: &Task, plan: &[Occ]) -> Result<Verdict, Memory>
    requires plan { IsJudgeable task.now plan.now }
    requires short { length plan.now < 2 ^ 32 }
    // Valid comes exactly where the plan is valid, with its makespan.
    ensures valid { IfOk result (λ verdict. (m : ℕ) → (verdict ≡ Verdict.Valid m) ↔ (IsValid task.now plan.now × (m ≡ makespan task.now plan.now))) }
    // Another answer is the first cause.
    ensures cause { IfOk result (Judges task.now plan.now) }
{
    let times = timetable_of(alloc, task, plan)?;
    Ok(verdict_of(task, plan, &times))
}
