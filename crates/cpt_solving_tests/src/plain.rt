//! The search as a plain recursion over whole sheets, each of them copied, changed and closed afresh.

ghost use Rattle.std.specs.Prelude.{IfSome};
ghost use Rattle.cpt_sheet.specs.Formed.{IsFormed};
ghost use Rattle.cpt_sheet.specs.Gaps.{FitsTask};

use crate::closing::close;
use crate::found::{Ending, Found};
use cpt_calculus::{apply, copy_sheet, fits, flaw_children, is_flaw, root};
use cpt_sheet::{Decision, Flaw, Kind, NodeLine, Sheet, is_dead, list};
use cpt_tables::Tables;
use cpt_task::{Occ, Span, Task};
use std::alloc::Global;

/// The first threat to what a list's one token supplies.
fn threat_to_list(task: &Task, sheet: &Sheet, tok: u32, pre: u32) -> Option<Flaw> {
    for foe in 0..10 {
        let flaw = Flaw::Threat { tok, pre, foe };
        if is_flaw(task, sheet, &flaw) {
            return Some(flaw);
        }
    }
    None
}

fn threat_to_token(task: &Task, sheet: &Sheet, tok: u32) -> Option<Flaw> {
    for pre in 0..20 {
        let found = threat_to_list(task, sheet, tok, pre);
        if found.is_some() {
            return found;
        }
    }
    None
}

/// The threat with the least numbers.
fn first_threat(task: &Task, sheet: &Sheet) -> Option<Flaw> {
    for tok in 0..10 {
        let found = threat_to_token(task, sheet, tok);
        if found.is_some() {
            return found;
        }
    }
    None
}

/// The first open need of a token with so many candidates.
fn need_of_token(task: &Task, sheet: &Sheet, count: usize, tok: u32) -> Option<Flaw> {
    for pre in 0..20 {
        let flaw = Flaw::OpenNeed { tok, pre };
        if list(sheet, tok, pre).len() == count && is_flaw(task, sheet, &flaw) {
            return Some(flaw);
        }
    }
    None
}

fn need_of_count(task: &Task, sheet: &Sheet, count: usize) -> Option<Flaw> {
    for tok in 0..10 {
        let found = need_of_token(task, sheet, count, tok);
        if found.is_some() {
            return found;
        }
    }
    None
}

/// The open need with the fewest candidates, and of these the one with the least numbers.
fn first_need(task: &Task, sheet: &Sheet) -> Option<Flaw> {
    for count in 1..40 {
        let found = need_of_count(task, sheet, count);
        if found.is_some() {
            return found;
        }
    }
    None
}

fn clash_of_token(task: &Task, sheet: &Sheet, first: u32) -> Option<Flaw> {
    for second in 0..10 {
        let flaw = Flaw::Clash { first, second };
        if is_flaw(task, sheet, &flaw) {
            return Some(flaw);
        }
    }
    None
}

/// The clash with the least numbers.
fn first_clash(task: &Task, sheet: &Sheet) -> Option<Flaw> {
    for first in 0..10 {
        let found = clash_of_token(task, sheet, first);
        if found.is_some() {
            return found;
        }
    }
    None
}

fn first_flaw(task: &Task, sheet: &Sheet) -> Option<Flaw> {
    first_threat(task, sheet)
        .or(first_need(task, sheet))
        .or(first_clash(task, sheet))
}

/// Pushes an occurrence for each token of the action whose first moment is this one.
fn push_action(plan: &mut Vec<Occ>, sheet: &Sheet, start: u64, act: u32) -> Option<()> {
    for token in sheet.tokens.as_slice() {
        if token.kind == Kind::Act(act) && token.span.lo == Span::At(start) {
            plan.push(Occ { act, start }).ok()?;
        }
    }
    Some(())
}

fn push_moment(plan: &mut Vec<Occ>, sheet: &Sheet, start: u64) -> Option<()> {
    for act in 0..40 {
        push_action(plan, sheet, start, act)?;
    }
    Some(())
}

/// The actions of the tokens with their first moments, by start and then by action number.
fn plan_of(alloc: Global, sheet: &Sheet) -> Option<Vec<Occ>> {
    let mut plan = Vec::new(alloc);
    for start in 0..=sheet.bound {
        push_moment(&mut plan, sheet, start)?;
    }
    Some(plan)
}

/// A tree that is being searched: its lines, how many more nodes may be visited, whether one was left open, and the
/// plan of the first leaf.
#[derive(Drop)]
struct Walk {
    lines: Vec<NodeLine>,
    nodes: u64,
    open: bool,
    plan: Vec<Occ>,
}

fn copied(alloc: Global, task: &Task, sheet: &Sheet) -> Option<Sheet>
    requires formed { IsFormed task.now sheet.now }
    ensures { IfSome result (IsFormed task.now) }
{
    let _ = task;
    match copy_sheet(alloc, sheet) {
        Ok(copy) => Some(copy),
        Err(_) => None,
    }
}

/// Takes the decision; None where it does not fit, or there are many tokens.
fn take_decision(task: &Task, sheet: &mut Sheet, decision: &Decision) -> Option<()>
    requires formed { IsFormed task.now sheet.old }
    ensures { IfSome result (λ u. IsFormed task.now sheet.new) }
{
    if sheet.tokens.as_slice().len() > 9 || !fits(task, sheet, decision) {
        return None;
    }
    match apply(task, sheet, decision) {
        Ok(()) => Some(()),
        Err(_) => None,
    }
}

/// The sheet after the decision.
fn decided(alloc: Global, task: &Task, sheet: &Sheet, decision: &Decision) -> Option<Sheet>
    requires formed { IsFormed task.now sheet.now }
    ensures { IfSome result (IsFormed task.now) }
{
    let mut child = copied(alloc, task, sheet)?;
    take_decision(task, &mut child, decision)?;
    Some(child)
}

/// The children of the flaw.
fn children_of(alloc: Global, task: &Task, sheet: &Sheet, flaw: &Flaw) -> Option<Vec<Decision>> {
    if !is_flaw(task, sheet, flaw) {
        return None;
    }
    flaw_children(alloc, task, sheet, flaw).ok()
}

/// What a node is: a leaf, or not, with the children that it has.
#[derive(Drop)]
enum Seen {
    Leaf,
    Below(Vec<Decision>),
}

/// The node of a closed sheet that is not dead.
fn branch(alloc: Global, task: &Task, sheet: &Sheet, walk: &mut Walk) -> Option<Seen> {
    let Some(flaw) = first_flaw(task, sheet) else {
        walk.plan = plan_of(alloc, sheet)?;
        return Some(Seen::Leaf);
    };
    walk.lines.push(NodeLine::Branch(flaw)).ok()?;
    Some(Seen::Below(children_of(alloc, task, sheet, &flaw)?))
}

/// Looks at the node of the sheet, and closes the sheet; leaves the node open where none may be visited any more.
fn look(
    alloc: Global,
    task: &Task,
    tables: &Tables,
    sheet: &mut Sheet,
    walk: &mut Walk,
) -> Option<Seen>
    requires tables { FitsTask task.now tables.now }
    requires formed { IsFormed task.now sheet.old }
    ensures { IfSome result (λ seen. IsFormed task.now sheet.new) }
{
    if walk.nodes == 0 {
        walk.open = true;
        walk.lines.push(NodeLine::OpenNode).ok()?;
        return Some(Seen::Below(Vec::new(alloc)));
    }
    walk.nodes -= 1;
    close(alloc, task, tables, sheet)?;
    if is_dead(sheet) {
        walk.lines.push(NodeLine::Close).ok()?;
        return Some(Seen::Below(Vec::new(alloc)));
    }
    branch(alloc, task, sheet, walk)
}

/// Visits the node of the sheet and the nodes below it, up to the first leaf, and says whether there is one; None where the
/// tree is deeper.
fn visit(
    alloc: Global,
    task: &Task,
    tables: &Tables,
    sheet: &mut Sheet,
    walk: &mut Walk,
    depth: u32,
) -> Option<bool>
    requires tables { FitsTask task.now tables.now }
    requires formed { IsFormed task.now sheet.old }
{
    if depth == 0 {
        return None;
    }
    let Seen::Below(decisions) = look(alloc, task, tables, sheet, walk)? else {
        return Some(true);
    };
    'children: for decision in decisions.as_slice() {
        walk.lines.push(NodeLine::Child(*decision)).ok()?;
        let mut child = decided(alloc, task, sheet, decision)?;
        if visit(alloc, task, tables, &mut child, walk, depth - 1)? {
            return Some(true);
        }
    }
    Some(false)
}

/// The tree of a bound.
fn walk_of(
    alloc: Global,
    task: &Task,
    tables: &Tables,
    bound: u64,
    nodes: u64,
) -> Option<(bool, Walk)>
    requires { FitsTask task.now tables.now }
{
    let mut walk = Walk {
        lines: Vec::new(alloc),
        nodes,
        open: false,
        plan: Vec::new(alloc),
    };
    if bound > 1_000_000 {
        return None;
    }
    let mut sheet = root(alloc, task, tables, bound).ok()?;
    let leaf = visit(alloc, task, tables, &mut sheet, &mut walk, 50)?;
    Some((leaf, walk))
}

/// Searches the tree of the bound, and says whether the search ends there.
fn search_bound(
    alloc: Global,
    task: &Task,
    tables: &Tables,
    bound: u64,
    nodes: u64,
    found: &mut Found,
) -> Option<bool>
    requires { FitsTask task.now tables.now }
{
    let (leaf, walk) = walk_of(alloc, task, tables, bound, nodes)?;
    found.visited = found
        .visited
        .saturating_add(nodes.saturating_sub(walk.nodes));
    if leaf {
        found.ending = Ending::Optimal;
        found.number = bound;
        found.plan = walk.plan;
        return Some(true);
    }
    if walk.open {
        found.ending = Ending::Spent;
        found.number = bound.saturating_sub(1);
        found.partial = walk.lines;
        return Some(true);
    }
    found.full = walk.lines;
    Some(false)
}

/// Nothing found yet, with the tree of a bound at which the root is dead.
fn nothing(alloc: Global) -> Option<Found> {
    let mut full = Vec::new(alloc);
    full.push(NodeLine::Close).ok()?;
    Some(Found {
        ending: Ending::NoneUpTo,
        number: 0,
        plan: Vec::new(alloc),
        full,
        partial: Vec::new(alloc),
        visited: 0,
    })
}

/// The outcome of the search from the first bound, which is positive, to the greatest one.
pub fn searched(
    alloc: Global,
    task: &Task,
    tables: &Tables,
    first: u64,
    max: u64,
    nodes: u64,
) -> Option<Found>
    requires { FitsTask task.now tables.now }
{
    let mut found = nothing(alloc)?;
    for bound in first..=max {
        if search_bound(alloc, task, tables, bound, nodes, &mut found)? {
            return Some(found);
        }
    }
    Some(found)
}
