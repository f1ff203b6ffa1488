//! The moments of a plan.

ghost use Rattle.std.specs.Prelude.{◌≡◌, ◌↔◌, ◌<◌, ◌≤◌, IsTrue, MatchOption, All, Contains, length, max, if◌then◌else◌, nat_le, ◌&&◌};
ghost use Rattle.cpt_task.specs.Changes.{touches, last_touch};
ghost use Rattle.cpt_task.specs.Shape.{IsDuration};
ghost use Rattle.cpt_task.specs.Judgeable.{IsJudgeable, IsJudgeableAt};
ghost use Rattle.cpt_task.specs.Timeline.{action_of, end_of, makespan, is_in, adds_at, holds_at, HoldsFrom};

use crate::ids::Ids;
use crate::plan::Occ;
use crate::task::{Action, Task};

/// The action of an occurrence.
pub fn action_at<'a>(task: &'a Task, o: &Occ) -> &'a Action
    requires { IsJudgeableAt task.now o.now }
    ensures action { result.now ≡ action_of task.now o.now }
    ensures duration { IsDuration (action_of task.now o.now).dur }
{
    &task.actions()[o.act as usize]
}

/// The moment at which the occurrence ends.
pub fn end_at(task: &Task, o: &Occ) -> u64
    requires { IsJudgeableAt task.now o.now }
    ensures end { result ≡ end_of task.now o.now }
    ensures lasting { o.now.start < result }
    ensures small { result ≤ 1000000100000 }
{
    o.start + u64::from(action_at(task, o).dur)
}

fn is_among(xs: &[u32], p: u32) -> bool
    ensures { result ≡ is_in p xs.now }
{
    xs.contains(&p)
}

/// Whether the number is among these.
pub fn contains(ids: &Ids, p: u32) -> bool
    ensures { result ≡ is_in p ids.now }
{
    is_among(ids.as_slice(), p)
}

/// The greatest end of the plan, and 0 where it is empty.
pub fn makespan_of(task: &Task, plan: &[Occ]) -> u64
    requires { IsJudgeable task.now plan.now }
    ensures makespan { result ≡ makespan task.now plan.now }
    ensures small { result ≤ 1000000100000 }
{
    let mut most = 0u64;
    for o in plan {
        most = most.max(end_at(task, o));
    }
    most
}

/// Whether an occurrence that ends at the moment adds the atom.
pub fn is_added_at(task: &Task, plan: &[Occ], time: u64, p: u32) -> bool
    requires { IsJudgeable task.now plan.now }
    ensures { result ≡ adds_at task.now plan.now time p }
{
    for o in plan {
        if end_at(task, o) == time && contains(&action_at(task, o).add, p) {
            return true;
        }
    }
    false
}

fn touch_of(task: &Task, o: &Occ, time: u64, p: u32) -> u64
    requires { IsJudgeableAt task.now o.now }
    ensures { result ≡ (if nat_le (end_of task.now o.now) time && touches task.now p o.now then end_of task.now o.now else 0) }
{
    let end = end_at(task, o);
    let action = action_at(task, o);
    if end <= time && (contains(&action.add, p) || contains(&action.dele, p)) {
        end
    } else {
        0
    }
}

fn last_touch_of(task: &Task, plan: &[Occ], time: u64, p: u32) -> u64
    requires { IsJudgeable task.now plan.now }
    ensures { result ≡ last_touch task.now plan.now time p }
{
    let mut last = 0u64;
    for o in plan {
        last = last.max(touch_of(task, o, time, p));
    }
    last
}

/// Whether the atom holds at that moment.
pub fn holds(task: &Task, plan: &[Occ], time: u64, p: u32) -> bool
    requires { IsJudgeable task.now plan.now }
    ensures { result ≡ holds_at task.now plan.now time p }
{
    let last = last_touch_of(task, plan, time, p);
    if last == 0 {
        is_among(task.init(), p)
    } else {
        is_added_at(task, plan, last, p)
    }
}
