//! Plan texts, read.

ghost use Rattle.std.specs.Prelude.{◌≡◌, ℕ, ◌≤◌, ◌<◌, ◌+◌, ◌^◌, length, All, IfOk};
ghost use Rattle.std.specs.List.Sorted.{IsStrictlyIncreasing};
ghost use Rattle.cpt_task.specs.Judgeable.{IsJudgeable};
ghost use Rattle.cpt_plan_text.specs.declared.reading.PlanTextError.TheVariants.{Memory};
ghost use Rattle.cpt_plan_text.specs.Knowing.{KnowsActions};
ghost use Rattle.cpt_plan_text.specs.Meaning.{Gives, duration_of, is_wrong, item_at, items_in, lines_of, looked_up, occ_at, occs_of, plan_of, reachable, timed, with_item};

use crate::line::{Entry, LineError, line_of};
use crate::roster::{Found, Roster};
use cpt_line::first_line;
use cpt_task::{Limit, List, Occ, Task};
use std::alloc::{AllocError, AllocFailed, Global};

/// Why a text is no plan. Lines are counted from 1. First the least line with one of the first three causes is
/// answered, by the first of them that it has. Only where no line has one, it is the least line with one of the
/// next two, by the first of them that it has.
#[derive(Clone, Copy, Debug, PartialEq, Eq)]
pub enum PlanTextError {
    /// This line is not in the grammar.
    Line(u32),
    /// This line has the name of no action.
    Unknown(u32),
    /// A line passes this limit.
    Limit(Limit),
    /// This line has a wrong duration; the right one.
    Duration(u32, u32),
    /// This line's action can never start.
    Unreachable(u32),
    /// Want of memory.
    Memory,
}

impl From<AllocError> for PlanTextError {
    ghost from_gives = { λ _ e. e ≡ Memory };

    fn from(_: AllocError) -> Self {
        PlanTextError::Memory
    }
}

impl<T: Drop> From<AllocFailed<T>> for PlanTextError {
    ghost from_gives = { λ _ e. e ≡ Memory };

    fn from(_: AllocFailed<T>) -> Self {
        PlanTextError::Memory
    }
}

/// The occurrences in the order of the text, and the line of each, from 1.
#[derive(Debug, Drop)]
pub struct PlanText {
    pub occs: List<Occ>,
    pub lines: List<u32>,
}

/// An entry whose name is known: its line and start, its action where it is reachable, the duration that it
/// has to have, and the duration that is written.
#[derive(Clone, Copy, Debug)]
pub struct Item {
    pub line: u32,
    pub start: u64,
    pub act: Option<u32>,
    pub right: u32,
    pub dur: Option<u64>,
}

fn duration_of(task: &Task, act: u32) -> u32
    requires { act < length task.now.actions }
    ensures { result ≡ duration_of task.now act }
{
    task.actions()[act as usize].dur
}

fn timed(number: u32, entry: &Entry, act: Option<u32>, right: u32) -> Result<Item, PlanTextError>
    ensures { Gives (λ item. item) result (timed number entry.now act right) }
{
    if entry.start > 1_000_000_000 {
        return Err(PlanTextError::Limit(Limit::Start));
    }
    Ok(Item {
        line: number,
        start: entry.start,
        act,
        right,
        dur: entry.dur,
    })
}

fn looked_up(task: &Task, number: u32, entry: &Entry, found: Found) -> Result<Item, PlanTextError>
    requires { (act : ℕ) → found ≡ Found.Known act → act < length task.now.actions }
    ensures { Gives (λ item. item) result (looked_up task.now number entry.now found) }
{
    match found {
        Found::Known(act) => timed(number, entry, Some(act), duration_of(task, act)),
        Found::Unreachable(dur) => timed(number, entry, None, dur),
        Found::Unknown => Err(PlanTextError::Unknown(number)),
    }
}

#[tactic(auto, unfolding(crate::specs::Meaning::item_at))]
fn item_of<R: Roster>(
    alloc: Global,
    task: &Task,
    roster: &R,
    number: u32,
    line: &[u8],
) -> Result<Option<Item>, PlanTextError>
    requires { KnowsActions (R.finds roster.now) (length task.now.actions) }
    ensures { Gives (λ item. item) result (item_at (R.finds roster.now) task.now number line.now) }
{
    match line_of(alloc, line) {
        Ok(Some(entry)) => {
            let found = roster.find(entry.name.as_slice());
            let item = looked_up(task, number, &entry, found)?;
            Ok(Some(item))
        }
        Ok(None) => Ok(None),
        Err(LineError::Form) => Err(PlanTextError::Line(number)),
        Err(LineError::Memory) => Err(PlanTextError::Memory),
    }
}

/// Adds the entry of the line, where it has one.
fn add_item<R: Roster>(
    items: &mut Vec<Item>,
    task: &Task,
    roster: &R,
    number: u32,
    line: &[u8],
) -> Result<(), PlanTextError>
    requires { KnowsActions (R.finds roster.now) (length task.now.actions) }
    ensures exact { Gives (λ _. items.new.items) result (with_item items.old.items (item_at (R.finds roster.now) task.now number line.now)) }
    ensures count { length items.new.items ≤ length items.old.items + 1 }
{
    if let Some(item) = item_of(*items.allocator(), task, roster, number, line)? {
        items.push(item)?;
    }
    Ok(())
}

/// The entries of the text.
fn items_of<R: Roster>(
    alloc: Global,
    task: &Task,
    roster: &R,
    text: &[u8],
) -> Result<Vec<Item>, PlanTextError>
    requires known { KnowsActions (R.finds roster.now) (length task.now.actions) }
    requires small { length text.now ≤ 16777216 }
    ensures exact { Gives (λ items. items.items) result (items_in (R.finds roster.now) task.now 1 (lines_of text.now)) }
    ensures count { IfOk result (λ items. length items.items ≤ length text.now + 1) }
{
    let mut items = Vec::new(alloc);
    let mut rest = text;
    let mut number = 1u32;
    while let Some((line, after)) = first_line(rest) {
        add_item(&mut items, task, roster, number, line)?;
        number += 1;
        rest = after;
    }
    add_item(&mut items, task, roster, number, rest)?;
    Ok(items)
}

fn reachable(number: u32, start: u64, act: Option<u32>) -> Result<Occ, PlanTextError>
    ensures { Gives (λ o. o) result (reachable number start act) }
{
    match act {
        Some(act) => Ok(Occ { act, start }),
        None => Err(PlanTextError::Unreachable(number)),
    }
}

fn is_wrong(dur: Option<u64>, right: u32) -> bool
    ensures { result ≡ is_wrong dur right }
{
    match dur {
        Some(dur) => dur != u64::from(right),
        None => false,
    }
}

#[tactic(auto, unfolding(crate::specs::Meaning::occ_at))]
fn occ_of(item: &Item) -> Result<Occ, PlanTextError>
    ensures { Gives (λ o. o) result (occ_at item.now) }
{
    if is_wrong(item.dur, item.right) {
        return Err(PlanTextError::Duration(item.line, item.right));
    }
    reachable(item.line, item.start, item.act)
}

/// The plan of the entries.
fn plan_of_items(alloc: Global, items: &[Item]) -> Result<PlanText, PlanTextError>
    ensures { Gives (λ plan. plan) result (occs_of items.now) }
{
    let mut occs = Vec::new(alloc);
    let mut lines = Vec::new(alloc);
    for item in items {
        let occ = occ_of(item)?;
        occs.push(occ)?;
        lines.push(item.line)?;
    }
    Ok(PlanText {
        occs: List::from_vec(occs),
        lines: List::from_vec(lines),
    })
}

#[tactic(auto, unfolding(crate::specs::Meaning::plan_of))]
fn plan_in<R: Roster>(
    alloc: Global,
    task: &Task,
    roster: &R,
    text: &[u8],
) -> Result<PlanText, PlanTextError>
    requires known { KnowsActions (R.finds roster.now) (length task.now.actions) }
    requires small { length text.now ≤ 16777216 }
    ensures { Gives (λ plan. plan) result (plan_of (R.finds roster.now) task.now text.now) }
{
    let items = items_of(alloc, task, roster, text)?;
    plan_of_items(alloc, &items)
}

/// The plan that the text spells. The text is read leniently: letter case is ignored, spaces, tabs and carriage
/// returns may stand between the parts of a line, a duration may be absent, lines may be blank or comments, and
/// the last line may lack its line feed.
pub fn read_plan<R: Roster>(
    alloc: Global,
    task: &Task,
    roster: &R,
    text: &[u8],
) -> Result<PlanText, PlanTextError>
    requires known { KnowsActions (R.finds roster.now) (length task.now.actions) }
    requires small { length text.now ≤ 16777216 }
    // Which plan it is, and which fault.
    ensures exact { Gives (λ plan. plan) result (plan_of (R.finds roster.now) task.now text.now) }
    // The occurrences can be judged, and start at 1,000,000,000 at the latest.
    ensures plan { IfOk result (λ plan. IsJudgeable task.now plan.occs) }
    ensures early { IfOk result (λ plan. All (λ o. o.start ≤ 1000000000) plan.occs) }
    ensures short { IfOk result (λ plan. length plan.occs < 2 ^ 32) }
    // Each occurrence has its line, in the order of the text.
    ensures lines { IfOk result (λ plan. length plan.lines ≡ length plan.occs) }
    ensures from_one { IfOk result (λ plan. All (λ n. 1 ≤ n) plan.lines) }
    ensures increasing { IfOk result (λ plan. IsStrictlyIncreasing plan.lines) }
{
    plan_in(alloc, task, roster, text)
}
