//! Each fault of a plan.

ghost use Rattle.std.specs.Prelude.{◌≡◌, ◌↔◌, ◌<◌, ◌≤◌, ◌+◌, [], length, IfOk, MatchBool, OnOk};
ghost use Rattle.std.specs.List.Sorted.{IsStrictlyIncreasing};
ghost use Rattle.cpt_task.specs.Judgeable.{IsJudgeable, IsJudgeableAt};
ghost use Rattle.cpt_task.specs.Timeline.{action_of, makespan, occurrence_at, ClashBetween, Clashes, IsValid, Overlaps};
ghost use Rattle.cpt_explain.specs.Faults.{AreFaults};
ghost use Rattle.cpt_explain.specs.Stages.{AreMetBy, goals, needs, pairs};

use crate::gaps::first_gap;
use cpt_task::{
    List, Memory, Occ, Task, Verdict, action_at, end_at, holds, interfere, makespan_of,
};
use std::alloc::Global;

fn overlap(task: &Task, o: &Occ, q: &Occ) -> bool
    requires first { IsJudgeableAt task.now o.now }
    requires second { IsJudgeableAt task.now q.now }
    ensures { MatchBool result (Overlaps task.now o.now q.now) (Overlaps task.now o.now q.now → ⊥) }
{
    o.start < end_at(task, q) && q.start < end_at(task, o)
}

fn clash_between(task: &Task, o: &Occ, q: &Occ) -> bool
    requires first { IsJudgeableAt task.now o.now }
    requires second { IsJudgeableAt task.now q.now }
    ensures { MatchBool result (ClashBetween task.now o.now q.now) (ClashBetween task.now o.now q.now → ⊥) }
{
    overlap(task, o, q) && interfere(action_at(task, o), action_at(task, q))
}

fn clash(task: &Task, plan: &[Occ], i: usize, j: usize) -> bool
    requires plan { IsJudgeable task.now plan.now }
    requires first { i < length plan.now }
    requires second { j < length plan.now }
    ensures { MatchBool result (Clashes task.now plan.now i j) (Clashes task.now plan.now i j → ⊥) }
{
    clash_between(task, &plan[i], &plan[j])
}

/// Appends that the occurrences at the two places overlap, where they do.
fn overlap_at(
    faults: &mut Vec<Verdict>,
    task: &Task,
    plan: &[Occ],
    i: usize,
    j: usize,
) -> Result<(), Memory>
    requires plan { IsJudgeable task.now plan.now }
    requires few { length plan.now ≤ 1024 }
    requires ordered { i < j }
    requires within { j < length plan.now }
    requires before { AreMetBy task.now plan.now (pairs i j) faults.old.items }
    ensures { OnOk result (AreMetBy task.now plan.now (pairs i (j + 1)) faults.new.items) }
{
    if !clash(task, plan, i, j) {
        return Ok(());
    }
    faults.push(Verdict::Overlap(i as u32, j as u32))?;
    Ok(())
}

/// Appends the overlaps of the occurrence at the place with later ones.
fn overlaps_of(faults: &mut Vec<Verdict>, task: &Task, plan: &[Occ], i: usize) -> Result<(), Memory>
    requires plan { IsJudgeable task.now plan.now }
    requires few { length plan.now ≤ 1024 }
    requires within { i < length plan.now }
    requires before { AreMetBy task.now plan.now (pairs i 0) faults.old.items }
    ensures { OnOk result (AreMetBy task.now plan.now (pairs (i + 1) 0) faults.new.items) }
{
    for j in i + 1..plan.len() {
        overlap_at(faults, task, plan, i, j)?;
    }
    Ok(())
}

fn overlaps(faults: &mut Vec<Verdict>, task: &Task, plan: &[Occ]) -> Result<(), Memory>
    requires plan { IsJudgeable task.now plan.now }
    requires few { length plan.now ≤ 1024 }
    requires before { faults.old.items ≡ [] }
    ensures { OnOk result (AreMetBy task.now plan.now (needs 0 0) faults.new.items) }
{
    for i in 0..plan.len() {
        overlaps_of(faults, task, plan, i)?;
    }
    Ok(())
}

/// Appends that the occurrence at the place lacks its precondition number n, where it does.
fn lack_at(
    faults: &mut Vec<Verdict>,
    task: &Task,
    plan: &[Occ],
    i: usize,
    pre: &[u32],
    n: usize,
) -> Result<(), Memory>
    requires plan { IsJudgeable task.now plan.now }
    requires few { length plan.now ≤ 1024 }
    requires within { i < length plan.now }
    requires pre { pre.now ≡ (action_of task.now (occurrence_at plan.now i)).pre }
    requires increasing { IsStrictlyIncreasing pre.now }
    requires number { n < length pre.now }
    requires before { AreMetBy task.now plan.now (needs i n) faults.old.items }
    ensures { OnOk result (AreMetBy task.now plan.now (needs i (n + 1)) faults.new.items) }
{
    let p = pre[n];
    let Some(time) = first_gap(task, plan, &plan[i], p) else {
        return Ok(());
    };
    faults.push(Verdict::Unmet(i as u32, p, time))?;
    Ok(())
}

/// Appends what the occurrence at the place lacks.
fn lacks_of(faults: &mut Vec<Verdict>, task: &Task, plan: &[Occ], i: usize) -> Result<(), Memory>
    requires plan { IsJudgeable task.now plan.now }
    requires few { length plan.now ≤ 1024 }
    requires within { i < length plan.now }
    requires before { AreMetBy task.now plan.now (needs i 0) faults.old.items }
    ensures { OnOk result (AreMetBy task.now plan.now (needs (i + 1) 0) faults.new.items) }
{
    let pre = action_at(task, &plan[i]).pre.as_slice();
    for n in 0..pre.len() {
        lack_at(faults, task, plan, i, pre, n)?;
    }
    Ok(())
}

fn lacks(faults: &mut Vec<Verdict>, task: &Task, plan: &[Occ]) -> Result<(), Memory>
    requires plan { IsJudgeable task.now plan.now }
    requires few { length plan.now ≤ 1024 }
    requires before { AreMetBy task.now plan.now (needs 0 0) faults.old.items }
    ensures { OnOk result (AreMetBy task.now plan.now (goals 0) faults.new.items) }
{
    for i in 0..plan.len() {
        lacks_of(faults, task, plan, i)?;
    }
    Ok(())
}

/// Appends that goal atom number n is missing at the end, where it is.
fn missing_at(
    faults: &mut Vec<Verdict>,
    task: &Task,
    plan: &[Occ],
    end: u64,
    n: usize,
) -> Result<(), Memory>
    requires plan { IsJudgeable task.now plan.now }
    requires end { end ≡ makespan task.now plan.now }
    requires number { n < length task.now.goal }
    requires before { AreMetBy task.now plan.now (goals n) faults.old.items }
    ensures { OnOk result (AreMetBy task.now plan.now (goals (n + 1)) faults.new.items) }
{
    let p = task.goal()[n];
    if holds(task, plan, end, p) {
        return Ok(());
    }
    faults.push(Verdict::GoalMissing(p))?;
    Ok(())
}

fn missing(faults: &mut Vec<Verdict>, task: &Task, plan: &[Occ]) -> Result<(), Memory>
    requires plan { IsJudgeable task.now plan.now }
    requires before { AreMetBy task.now plan.now (goals 0) faults.old.items }
    ensures { OnOk result (AreFaults task.now plan.now faults.new.items) }
{
    let end = makespan_of(task, plan);
    for n in 0..task.goal().len() {
        missing_at(faults, task, plan, end, n)?;
    }
    Ok(())
}

/// Each fault of the plan: the pairs of occurrences that interfere and overlap, then each precondition that an occurrence lacks, with the
/// least moment, then each goal atom that is missing. It compares each occurrence with each.
pub fn faults(alloc: Global, task: &Task, plan: &[Occ]) -> Result<List<Verdict>, Memory>
    requires plan { IsJudgeable task.now plan.now }
    requires few { length plan.now ≤ 1024 }
    ensures faults { IfOk result (AreFaults task.now plan.now) }
    ensures none { IfOk result (λ faults. (faults ≡ []) ↔ IsValid task.now plan.now) }
{
    let mut faults = Vec::new(alloc);
    overlaps(&mut faults, task, plan)?;
    lacks(&mut faults, task, plan)?;
    missing(&mut faults, task, plan)?;
    Ok(List::from_vec(faults))
}
