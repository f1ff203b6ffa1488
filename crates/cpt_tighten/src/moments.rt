//! When occurrences end, and which ends later.

ghost use Rattle.std.specs.Prelude.{◌≡◌, ◌<◌, length};
ghost use Rattle.cpt_task.specs.Judgeable.{IsJudgeable, IsJudgeableAt};
ghost use Rattle.cpt_task.specs.Shape.{HasAtomsBelow, InBounds, IsDuration};
ghost use Rattle.cpt_task.specs.Timeline.{action_of, end_of};
ghost use Rattle.cpt_tighten.specs.Best.{ends_later, finish_of, later_of};

use cpt_task::{Action, Occ, Task};

/// When the occurrence at a place ends.
#[derive(Clone, Copy)]
pub struct Finish {
    pub end: u64,
    pub place: u32,
}

/// The action of an occurrence.
pub fn action_at<'a>(task: &'a Task, o: &Occ) -> &'a Action
    requires { IsJudgeableAt task.now o.now }
    ensures action { result.now ≡ action_of task.now o.now }
    ensures duration { IsDuration (action_of task.now o.now).dur }
    ensures atoms { HasAtomsBelow (length task.now.atoms) (action_of task.now o.now) }
    ensures bounds { InBounds task.now }
{
    &task.actions()[o.act as usize]
}

/// When an occurrence ends.
pub fn end_at(task: &Task, o: &Occ) -> u64
    requires { IsJudgeableAt task.now o.now }
    ensures { result ≡ end_of task.now o.now }
{
    o.start + u64::from(action_at(task, o).dur)
}

/// When the occurrence at the place ends.
pub fn finish_at(task: &Task, plan: &[Occ], place: u32) -> Finish
    requires plan { IsJudgeable task.now plan.now }
    requires within { place < length plan.now }
    ensures { result ≡ finish_of task.now plan.now place }
{
    Finish {
        end: end_at(task, &plan[place as usize]),
        place,
    }
}

/// Whether the first ends after the second, or with it and stands before it.
fn ends_later(f: Finish, g: Finish) -> bool
    ensures { result ≡ ends_later f g }
{
    g.end < f.end || (f.end == g.end && f.place < g.place)
}

/// Of the two, the one that ends later.
pub fn later_of(former: Option<Finish>, f: Finish) -> Finish
    ensures { result ≡ later_of former f }
{
    match former {
        None => f,
        Some(g) => { if ends_later(f, g) { f } else { g } }
    }
}
