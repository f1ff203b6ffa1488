//! The chain that leads to the end of a schedule.

ghost use Rattle.std.specs.Prelude.{◌≡◌, ◌<◌, ◌^◌, length, IfOk, MatchOption};
ghost use Rattle.cpt_task.specs.Judgeable.{IsJudgeable};
ghost use Rattle.cpt_task.specs.Timeline.{occurrence_at};
ghost use Rattle.cpt_tighten.specs.Best.{IsBest};
ghost use Rattle.cpt_tighten.specs.Links.{Descends, IsTrail, LinksBack};

use crate::moments::{Finish, finish_at, later_of};
use cpt_task::{Memory, Occ, Task};
use std::alloc::Global;

/// The end of the occurrence that ends last.
pub fn last_finish(task: &Task, tight: &[Occ]) -> Option<Finish>
    requires tight { IsJudgeable task.now tight.now }
    requires short { length tight.now < 2 ^ 32 }
    ensures { IsBest task.now tight.now (λ k. k < length tight.now) result }
{
    let mut best = None;
    for place in 0..tight.len() {
        best = Some(later_of(best, finish_at(task, tight, place as u32)));
    }
    best
}

/// The place that the one at the place waits for.
fn before(tight: &[Occ], links: &[Option<Finish>], place: u32) -> Option<u32>
    requires within { place < length tight.now }
    requires count { length links.now ≡ length tight.now }
    requires links { Descends tight.now links.now }
    ensures { MatchOption result ((occurrence_at tight.now place).start ≡ 0) (λ i. LinksBack links.now place i × (i < length tight.now) × ((occurrence_at tight.now i).start < (occurrence_at tight.now place).start)) }
{
    let o = tight[place as usize];
    if o.start == 0 {
        return None;
    }
    match links[place as usize] {
        None => None,
        Some(f) => Some(f.place),
    }
}

/// The places by which the links lead to the last one.
pub fn chain_to(
    alloc: Global,
    tight: &[Occ],
    links: &[Option<Finish>],
    last: u32,
) -> Result<Vec<u32>, Memory>
    requires within { last < length tight.now }
    requires count { length links.now ≡ length tight.now }
    requires links { Descends tight.now links.now }
    ensures { IfOk result (λ chain. IsTrail tight.now links.now last chain.items) }
{
    let mut chain = Vec::new(alloc);
    chain.push(last)?;
    let mut place = last;
    while let Some(i) = before(tight, links, place) {
        chain.push(i)?;
        place = i;
    }
    chain.reverse();
    Ok(chain)
}
