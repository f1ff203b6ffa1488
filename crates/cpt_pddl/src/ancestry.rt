//! Which types are above which.

ghost use Rattle.std.specs.Prelude.{◌≡◌, ◌<◌, ◌^◌, ◌&&◌, ◌==◌, length, slice_index, IfOk};
ghost use Rattle.cpt_pddl.specs.Ancestries.{IsLadder, LadderOf};
ghost use Rattle.cpt_pddl.specs.Kinds.{is_below, is_rooted};

use crate::kinds::{is_below, kind_at};
use crate::ladder::{Ladder, heights_of, is_rooted, rows_of};
use cpt_task::Memory;
use std::alloc::Global;
use std::marker::Model;

/// The parents of types by their numbers, fewer than 2^32, and a ladder exactly where type 0 is above all types.
#[derive(Drop)]
pub struct Ancestry {
    parents: Vec<u32>,
    ladder: Option<Ladder>,
}

impl Model for Ancestry {
    ghost use Rattle.std.specs.Prelude.{ℕ, List, ◌<◌, ◌^◌, length};
    ghost use Rattle.std.specs.Coded.{coded_list, coded_ℕ};
    ghost use Rattle.cpt_pddl.specs.Ancestries.{LadderOf};

    ghost Value = { List ℕ };

    ghost coded = { coded_list coded_ℕ };

    ghost view = { λ a. a.parents.items };

    ghost invariant = { λ a. (length a.parents.items < 2 ^ 32) × LadderOf a.parents.items a.ladder };
}

/// The ladder of types whose first is its own parent.
fn ladder_of(alloc: Global, parents: &[u32]) -> Result<Option<Ladder>, Memory>
    requires few { length parents.now < 2 ^ 32 }
    requires root { slice_index parents.now 0 ≡ 0 }
    ensures { IfOk result (LadderOf parents.now) }
{
    let rows = rows_of(alloc, parents)?;
    if !is_rooted(rows.as_slice(), parents) {
        return Ok(None);
    }
    let heights = heights_of(alloc, parents, rows.as_slice())?;
    Ok(Some(Ladder { rows, heights }))
}

#[tactic(auto, unfolding(crate::specs::Kinds::is_rooted))]
fn ladder_if_rooted(alloc: Global, parents: &[u32]) -> Result<Option<Ladder>, Memory>
    requires { length parents.now < 2 ^ 32 }
    ensures { IfOk result (LadderOf parents.now) }
{
    if kind_at(parents, 0) == 0 {
        ladder_of(alloc, parents)
    } else {
        Ok(None)
    }
}

impl Ancestry {
    /// The types with these parents.
    pub fn new(parents: Vec<u32>) -> Result<Ancestry, Memory>
        ensures { IfOk result (λ ancestry. ancestry ≡ parents.items) }
    {
        if parents.len() >= 4_294_967_296 {
            return Err(Memory);
        }
        let ladder = ladder_if_rooted(*parents.allocator(), parents.as_slice())?;
        Ok(Ancestry { parents, ladder })
    }

    /// Whether type 0 is its own parent and above each type.
    pub fn is_rooted(&self) -> bool
        ensures { result ≡ is_rooted self.now }
    {
        self.ladder.is_some()
    }

    /// Whether the type is the wanted one or below it.
    pub fn is_below(&self, kind: u32, wanted: u32) -> bool
        ensures { result ≡ is_below self.now kind wanted }
    {
        let parents = self.parents.as_slice();
        match &self.ladder {
            None => is_below(parents, kind, wanted),
            Some(ladder) => ladder.is_below(parents, kind, wanted),
        }
    }

    /// The parents of the types, given back.
    pub fn into_vec(self) -> Vec<u32>
        ensures { result.items ≡ self }
    {
        let Ancestry {
            parents,
            ladder: _ladder,
        } = self;
        parents
    }
}
