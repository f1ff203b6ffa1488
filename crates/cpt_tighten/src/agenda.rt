//! The starts and the ends of a plan, in the order of time.

ghost use Rattle.std.specs.Prelude.{◌≡◌, ◌<◌, ◌^◌, length, IfOk};
ghost use Rattle.cpt_task.specs.Judgeable.{IsJudgeable};
ghost use Rattle.cpt_tighten.specs.Agenda.{HasEvents, IsAgenda};

use crate::moments::end_at;
use cpt_task::{Memory, Occ, Task};
use std::alloc::Global;

/// An occurrence starts or ends. Events are ordered by time, and ends come before starts.
#[derive(Clone, Copy, PartialEq, Eq, PartialOrd, Ord)]
pub struct Event {
    pub time: u64,
    pub starts: bool,
    pub place: u32,
}

fn all_events(alloc: Global, task: &Task, plan: &[Occ]) -> Result<Vec<Event>, Memory>
    requires plan { IsJudgeable task.now plan.now }
    requires short { length plan.now < 2 ^ 32 }
    ensures { IfOk result (λ events. HasEvents task.now plan.now (length plan.now) events.items) }
{
    let mut events = Vec::new(alloc);
    for place in 0..plan.len() {
        let o = &plan[place];
        events.push(Event {
            time: o.start,
            starts: true,
            place: place as u32,
        })?;
        events.push(Event {
            time: end_at(task, o),
            starts: false,
            place: place as u32,
        })?;
    }
    Ok(events)
}

/// Each start and each end of the plan, in the order of time.
pub fn agenda_of(alloc: Global, task: &Task, plan: &[Occ]) -> Result<Vec<Event>, Memory>
    requires plan { IsJudgeable task.now plan.now }
    requires short { length plan.now < 2 ^ 32 }
    ensures { IfOk result (λ events. IsAgenda task.now plan.now events.items) }
{
    let mut events = all_events(alloc, task, plan)?;
    events.sort()?;
    Ok(events)
}
