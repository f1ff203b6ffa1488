//! Steps up from types, many at a time.

ghost use Rattle.std.specs.Prelude.{◌≡◌, ◌≢◌, ℕ, ◌+◌, ◌-◌, ◌/◌, ◌%◌, ◌^◌, ◌<◌, ◌==◌, ◌&&◌, nat_le, true, if◌then◌else◌, length, map, slice_index, IfOk};
ghost use Rattle.std.specs.List.{list_all};
ghost use Rattle.cpt_pddl.specs.Ancestries.{IsLadder};
ghost use Rattle.cpt_pddl.specs.Kinds.{is_below, is_rooted};
ghost use Rattle.cpt_pddl.specs.Ladders.{AreHeights, AreRows, lifted};

use crate::kinds::kind_at;
use cpt_task::{List, Memory};
use std::alloc::Global;

/// What tells in few steps whether a type is below another, where type 0 is above all types.
#[derive(Drop)]
pub struct Ladder {
    /// For each type, by rows, the types that are 1, 2, 4, 8 .. steps above it.
    pub rows: Vec<List<u32>>,
    /// For each type, how many types but type 0 are above it.
    pub heights: List<u32>,
}

fn copied(alloc: Global, parents: &[u32]) -> Result<List<u32>, Memory>
    ensures { IfOk result (λ copy. copy ≡ parents.now) }
{
    let mut copy = Vec::new(alloc);
    copy.extend_from_slice(parents)?;
    Ok(List::from_vec(copy))
}

/// The types twice as many steps up as those of the row.
fn doubled(alloc: Global, row: &[u32]) -> Result<List<u32>, Memory>
    ensures { IfOk result (λ next. next ≡ map (λ kind. slice_index row.now kind) row.now) }
{
    let next: Vec<u32> = row.iter().map(|kind| kind_at(row, *kind)).collect(alloc)?;
    Ok(List::from_vec(next))
}

/// Rows that go up 1, 2, 4, 8 .. steps, together more than there are types.
pub fn rows_of(alloc: Global, parents: &[u32]) -> Result<Vec<List<u32>>, Memory>
    requires { slice_index parents.now 0 ≡ 0 }
    ensures rows { IfOk result (λ rows. AreRows parents.now 1 rows.items) }
    ensures enough { IfOk result (λ rows. length parents.now < 2 ^ length rows.items) }
{
    let mut rows = Vec::new(alloc);
    let mut row = copied(alloc, parents)?;
    let mut left = parents.len();
    while left > 0 {
        let next = doubled(alloc, row.as_slice())?;
        rows.push(row)?;
        row = next;
        left /= 2;
    }
    Ok(rows)
}

fn stepped(row: &[u32], steps: u32, kind: u32) -> u32
    ensures { result ≡ (if steps % 2 == 0 then kind else slice_index row.now kind) }
{
    if steps % 2 == 0 {
        kind
    } else {
        kind_at(row, kind)
    }
}

/// The type that is so many steps above one.
fn lifted(rows: &[List<u32>], steps: u32, kind: u32) -> u32
    ensures { result ≡ lifted rows.now steps kind }
{
    match rows {
        [] => kind,
        [row, others @ ..] => {
            let next = stepped(row.as_slice(), steps, kind);
            lifted(others, steps / 2, next)
        }
    }
}

/// Whether each parent comes to type 0 in so many steps as there are types.
fn all_rise(rows: &[List<u32>], parents: &[u32]) -> bool
    requires { length parents.now < 2 ^ 32 }
    ensures { result ≡ list_all (λ parent. lifted rows.now (length parents.now) parent == 0) parents.now }
{
    let steps = parents.len() as u32;
    parents
        .iter()
        .all(|parent| lifted(rows, steps, *parent) == 0)
}

/// Whether type 0, which is its own parent, is above each type.
#[tactic(auto, using(crate::proofs::LadderLemmas::root_by_rows))]
pub fn is_rooted(rows: &[List<u32>], parents: &[u32]) -> bool
    requires few { length parents.now < 2 ^ 32 }
    requires root { slice_index parents.now 0 ≡ 0 }
    requires rows { AreRows parents.now 1 rows.now }
    requires enough { length parents.now < 2 ^ length rows.now }
    ensures { result ≡ is_rooted parents.now }
{
    all_rise(rows, parents)
}

fn first_height(parent: u32) -> u32
    ensures { result ≡ (if parent == 0 then 0 else 1) }
{
    if parent == 0 { 0 } else { 1 }
}

/// The heights in one step.
fn first_heights(alloc: Global, parents: &[u32]) -> Result<List<u32>, Memory>
    ensures { IfOk result (λ heights. heights ≡ map (λ parent. if parent == 0 then 0 else 1) parents.now) }
{
    let heights: Vec<u32> = parents.iter().map(|p| first_height(*p)).collect(alloc)?;
    Ok(List::from_vec(heights))
}

fn height_at(heights: &[u32], place: usize) -> u32
    ensures { result ≡ slice_index heights.now place }
{
    match heights.get(place) {
        None => 0,
        Some(height) => *height,
    }
}

fn next_height(row: &[u32], heights: &[u32], place: usize) -> u32
    requires { slice_index heights.now place + slice_index heights.now (slice_index row.now place) < 2 ^ 32 }
    ensures { result ≡ slice_index heights.now place + slice_index heights.now (slice_index row.now place) }
{
    height_at(heights, place) + kind_at(heights, height_at(row, place))
}

/// The heights in twice as many steps as the row goes up.
fn raised(alloc: Global, row: &[u32], heights: &[u32]) -> Result<List<u32>, Memory>
    requires { (kind : ℕ) → slice_index heights.now kind + slice_index heights.now (slice_index row.now kind) < 2 ^ 32 }
    ensures long { IfOk result (λ next. length next ≡ length heights.now) }
    ensures value { IfOk result (λ next. (kind : ℕ) → kind < length heights.now → slice_index next kind ≡ slice_index heights.now kind + slice_index heights.now (slice_index row.now kind)) }
{
    let mut next = Vec::new(alloc);
    for place in 0..heights.len() {
        next.push(next_height(row, heights, place))?;
    }
    Ok(List::from_vec(next))
}

/// The heights in so many steps as all rows together go up, and one.
pub fn heights_of(alloc: Global, parents: &[u32], rows: &[List<u32>]) -> Result<List<u32>, Memory>
    requires few { length parents.now < 2 ^ 32 }
    requires root { is_rooted parents.now ≡ true }
    requires rows { AreRows parents.now 1 rows.now }
    ensures { IfOk result (λ heights. AreHeights parents.now (2 ^ length rows.now) heights) }
{
    let mut heights = first_heights(alloc, parents)?;
    for row in rows {
        heights = raised(alloc, row.as_slice(), heights.as_slice())?;
    }
    Ok(heights)
}

/// Whether the steps between two heights lead from one type to the other.
fn leads(rows: &[List<u32>], low: u32, high: u32, kind: u32, wanted: u32) -> bool
    ensures { result ≡ (nat_le low high && (lifted rows.now (high - low) kind == wanted)) }
{
    low <= high && lifted(rows, high - low, kind) == wanted
}

impl Ladder {
    #[tactic(auto, using(crate::proofs::LadderLemmas::below_zero))]
    fn is_below_zero(&self, parents: &[u32], kind: u32) -> bool
        requires few { length parents.now < 2 ^ 32 }
        requires ladder { IsLadder parents.now self.now }
        ensures { result ≡ is_below parents.now kind 0 }
    {
        lifted(self.rows.as_slice(), parents.len() as u32, kind) == 0
    }

    #[tactic(auto, using(crate::proofs::LadderLemmas::below_other))]
    fn is_below_other(&self, parents: &[u32], kind: u32, wanted: u32) -> bool
        requires other { wanted ≢ 0 }
        requires ladder { IsLadder parents.now self.now }
        ensures { result ≡ is_below parents.now kind wanted }
    {
        let high = kind_at(self.heights.as_slice(), kind);
        let low = kind_at(self.heights.as_slice(), wanted);
        leads(self.rows.as_slice(), low, high, kind, wanted)
    }

    /// Whether the type is the wanted one or below it, by the ladder of the parents.
    pub fn is_below(&self, parents: &[u32], kind: u32, wanted: u32) -> bool
        requires few { length parents.now < 2 ^ 32 }
        requires ladder { IsLadder parents.now self.now }
        ensures { result ≡ is_below parents.now kind wanted }
    {
        if wanted == 0 {
            self.is_below_zero(parents, kind)
        } else {
            self.is_below_other(parents, kind, wanted)
        }
    }
}
