//! A valid plan at its earliest.

ghost use Rattle.std.specs.Prelude.{◌≡◌, ◌<◌, ◌+◌, ◌^◌, length, slice_set, IfOk};
ghost use Rattle.cpt_task.specs.Judgeable.{IsJudgeable};
ghost use Rattle.cpt_task.specs.Shape.{InBounds};
ghost use Rattle.cpt_task.specs.Timeline.{makespan, occurrence_at, IsValid};
ghost use Rattle.cpt_tighten.specs.Agenda.{IsAgenda};
ghost use Rattle.cpt_tighten.specs.Chains.{IsChain};
ghost use Rattle.cpt_tighten.specs.Links.{start_of, waiting, IsTightened, IsUnderway};
ghost use Rattle.cpt_tighten.specs.Schedules.{IsEarliest};

use crate::agenda::{Event, agenda_of};
use crate::chain::{chain_to, last_finish};
use crate::moments::{Finish, action_at, finish_at};
use crate::records::{Records, best_of, no_records, none_for, take_end};
use cpt_task::{List, Memory, Occ, Task};
use std::alloc::Global;

/// A plan with its occurrences in the given order at their earliest starts, the places of the chain from first to last, and the makespan.
#[derive(Debug, Drop)]
pub struct Tight {
    pub plan: List<Occ>,
    pub chain: List<u32>,
    pub makespan: u64,
}

fn start_of(best: Option<Finish>) -> u64
    ensures { result ≡ start_of best }
{
    match best {
        None => 0,
        Some(f) => f.end,
    }
}

/// Lets the occurrence at the place wait for the end.
fn wait_for(tight: &mut [Occ], links: &mut [Option<Finish>], place: usize, best: Option<Finish>)
    requires tight { place < length tight.old }
    requires links { place < length links.old }
    ensures tight { tight.new ≡ slice_set tight.old place (waiting (occurrence_at tight.old place) best) }
    ensures links { links.new ≡ slice_set links.old place best }
{
    let o = tight[place];
    tight[place] = Occ {
        act: o.act,
        start: start_of(best),
    };
    links[place] = best;
}

/// Lets the event at place k pass: an occurrence starts once those that are needed before it have ended, and it is recorded when it ends.
fn pass(
    task: &Task,
    plan: &[Occ],
    events: &[Event],
    k: usize,
    tight: &mut [Occ],
    links: &mut [Option<Finish>],
    records: &mut Records,
)
    requires plan { IsJudgeable task.now plan.now }
    requires within { k < length events.now }
    requires underway { IsUnderway task.now plan.now events.now k tight.old links.old records.old }
    ensures { IsUnderway task.now plan.now events.now (k + 1) tight.new links.new records.new }
{
    let event = events[k];
    let place = event.place as usize;
    let action = action_at(task, &plan[place]);
    if event.starts {
        let best = best_of(task, tight, records, action);
        wait_for(tight, links, place, best);
    } else {
        let now = finish_at(task, tight, event.place);
        let before = finish_at(task, plan, event.place);
        take_end(records, action, now, before);
    }
}

/// Lets all events pass.
fn pass_all(
    task: &Task,
    plan: &[Occ],
    events: &[Event],
    tight: &mut [Occ],
    links: &mut [Option<Finish>],
    records: &mut Records,
)
    requires plan { IsJudgeable task.now plan.now }
    requires underway { IsUnderway task.now plan.now events.now 0 tight.old links.old records.old }
    ensures { IsTightened task.now plan.now tight.new links.new }
{
    for k in 0..events.len() {
        pass(task, plan, events, k, tight, links, records);
    }
}

/// The answer, from the schedule and the links.
fn with_chain(
    alloc: Global,
    task: &Task,
    plan: &[Occ],
    tight: Vec<Occ>,
    links: &[Option<Finish>],
) -> Result<Tight, Memory>
    requires plan { IsJudgeable task.now plan.now }
    requires short { length plan.now < 2 ^ 32 }
    requires bounds { InBounds task.now }
    requires tightened { IsTightened task.now plan.now tight.items links.now }
    ensures plan { IfOk result (λ r. IsEarliest task.now plan.now r.plan) }
    ensures makespan { IfOk result (λ r. r.makespan ≡ makespan task.now r.plan) }
    ensures chain { IfOk result (λ r. IsChain task.now plan.now r.plan r.chain) }
{
    match last_finish(task, &tight) {
        None => Ok(Tight {
            plan: List::from_vec(tight),
            chain: List::from_vec(Vec::new(alloc)),
            makespan: 0,
        }),
        Some(last) => {
            let chain = chain_to(alloc, &tight, links, last.place)?;
            Ok(Tight {
                plan: List::from_vec(tight),
                chain: List::from_vec(chain),
                makespan: last.end,
            })
        }
    }
}

/// The valid plan with each occurrence as early as what is needed before it allows, and the chain of occurrences that shows that it
/// cannot end earlier so. It takes a time that grows little more than the atoms that the plan touches.
pub fn tighten(alloc: Global, task: &Task, plan: &[Occ]) -> Result<Tight, Memory>
    requires plan { IsJudgeable task.now plan.now }
    requires short { length plan.now < 2 ^ 32 }
    requires valid { IsValid task.now plan.now }
    // Each start is the least of all schedules that keep the needs, and the schedule is one of them.
    ensures plan { IfOk result (λ r. IsEarliest task.now plan.now r.plan) }
    ensures valid { IfOk result (λ r. IsValid task.now r.plan) }
    ensures makespan { IfOk result (λ r. r.makespan ≡ makespan task.now r.plan) }
    ensures chain { IfOk result (λ r. IsChain task.now plan.now r.plan r.chain) }
{
    let events = agenda_of(alloc, task, plan)?;
    let mut tight = Vec::from_slice(alloc, plan)?;
    let mut links = none_for(alloc, plan.len())?;
    let mut records = no_records(alloc, task.atoms().len())?;
    pass_all(task, plan, &events, &mut tight, &mut links, &mut records);
    with_chain(alloc, task, plan, tight, &links)
}
