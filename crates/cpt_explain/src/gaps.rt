//! When an occurrence first lacks an atom.

ghost use Rattle.std.specs.Prelude.{◌≡◌, ◌<◌, ◌+◌, ℕ, length, MatchOption};
ghost use Rattle.cpt_task.specs.Judgeable.{IsJudgeable, IsJudgeableAt};
ghost use Rattle.cpt_task.specs.Judging.{IsFirstGap};
ghost use Rattle.cpt_task.specs.Timeline.{end_of, HoldsFrom};
ghost use Rattle.cpt_explain.specs.Losses.{is_lost, IsFirstLoss};

use cpt_task::{Occ, Task, action_at, contains, end_at, holds, is_added_at};

/// Whether the atom is deleted and not added where the occurrence ends.
fn is_lost(task: &Task, plan: &[Occ], o: &Occ, p: u32) -> bool
    requires plan { IsJudgeable task.now plan.now }
    requires o { IsJudgeableAt task.now o.now }
    ensures { result ≡ is_lost task.now plan.now o.now p }
{
    contains(&action_at(task, o).dele, p) && !is_added_at(task, plan, end_at(task, o), p)
}

/// The earlier of the moment and the end of the occurrence at the place, where that comes behind `from` and the atom is lost then.
fn sooner(task: &Task, plan: &[Occ], from: u64, first: u64, k: usize, p: u32) -> u64
    requires plan { IsJudgeable task.now plan.now }
    requires within { k < length plan.now }
    ensures { (to : ℕ) → IsFirstLoss task.now plan.now from to p k first → IsFirstLoss task.now plan.now from to p (k + 1) result }
{
    let o = &plan[k];
    let end = end_at(task, o);
    if from < end && end < first && is_lost(task, plan, o, p) {
        end
    } else {
        first
    }
}

/// The first moment between the two at which the atom is deleted and not added, and else the second.
fn first_loss(task: &Task, plan: &[Occ], from: u64, to: u64, p: u32) -> u64
    requires plan { IsJudgeable task.now plan.now }
    requires ordered { from < to }
    ensures { IsFirstLoss task.now plan.now from to p (length plan.now) result }
{
    let mut first = to;
    for k in 0..plan.len() {
        first = sooner(task, plan, from, first, k, p);
    }
    first
}

/// The first moment while the occurrence runs at which the atom does not hold.
pub fn first_gap(task: &Task, plan: &[Occ], o: &Occ, p: u32) -> Option<u64>
    requires plan { IsJudgeable task.now plan.now }
    requires o { IsJudgeableAt task.now o.now }
    ensures { MatchOption result (HoldsFrom task.now plan.now o.now.start (end_of task.now o.now) p) (IsFirstGap task.now plan.now o.now.start (end_of task.now o.now) p) }
{
    let end = end_at(task, o);
    if !holds(task, plan, o.start, p) {
        return Some(o.start);
    }
    let first = first_loss(task, plan, o.start, end, p);
    if first < end { Some(first) } else { None }
}
