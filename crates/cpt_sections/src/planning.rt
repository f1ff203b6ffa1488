//! Plans, line by line.

ghost use Rattle.std.specs.Prelude.{◌≡◌, ◌≤◌, ◌<◌, ◌^◌, ℕ, length, MatchBool, IfOk};
ghost use Rattle.cpt_task.specs.Judgeable.{IsJudgeable};
ghost use Rattle.cpt_cert_form.specs.declared.forms.Version.{Version};
ghost use Rattle.cpt_cert_accept.specs.Accepting.{IsPlanOf, is_no_sooner};
ghost use Rattle.cpt_sections.specs.Plans.{IsKept, KeepsAlso, EndsPlan, after_plan, MayEnd, IsFirstItems, TakesItem};
ghost use Rattle.cpt_sections.specs.Proceeding.{Proceeds};
ghost use Rattle.cpt_sections.specs.Sections.{Left, IsSection, IsLine, Moves};

use crate::section::{Aim, Items, Next, Section, Trees};
use cpt_cert_accept::Why;
use cpt_cert_read::CertLine;
use cpt_task::{Memory, Occ, Task, Verdict, judge};
use std::alloc::Global;

/// The occurrences are a valid plan with this makespan.
fn is_plan(alloc: Global, task: &Task, makespan: u64, plan: &[Occ]) -> Result<bool, Memory>
    requires plan { IsJudgeable task.now plan.now }
    requires short { length plan.now < 2 ^ 32 }
    ensures { IfOk result (λ good. MatchBool good (IsPlanOf task.now makespan plan.now) (IsPlanOf task.now makespan plan.now → ⊥)) }
{
    match judge(alloc, task, plan)? {
        Verdict::Valid(found) => Ok(found == makespan),
        _ => Ok(false),
    }
}

/// What is read behind a plan with this makespan.
fn after_plan(makespan: u64) -> Section
    ensures { result ≡ after_plan makespan }
{
    if makespan == 0 {
        Section::End
    } else {
        Section::Pairs(Aim::Trees(Trees::Closed(makespan - 1)))
    }
}

/// What a plan leads to whose lines are read: its head is at fault where it is no valid plan with this makespan.
fn behind_plan(
    alloc: Global,
    task: &Task,
    makespan: u64,
    head: u64,
    plan: Option<Vec<Occ>>,
) -> Result<Next, Memory>
    requires makespan { makespan ≤ 1000000 }
    requires plan { IsKept task.now makespan plan }
    ensures { IfOk result (EndsPlan task.now makespan head plan) }
{
    if let Some(occs) = &plan
        && is_plan(alloc, task, makespan, occs)?
    {
        return Ok(Next::On(after_plan(makespan)));
    }
    Ok(Next::Fault {
        line: head,
        why: Why::Plan,
    })
}

/// What comes where so many lines of a plan are left. With none the plan is judged.
fn at_items(alloc: Global, task: &Task, items: Items) -> Result<Next, Memory>
    requires { MayEnd task.now items }
    ensures { IfOk result (λ next. (v : Version) (n : ℕ) → items.head < n → Proceeds task.now v (Left task.now v (Section.Items items)) n next) }
{
    if items.left == 0 {
        behind_plan(alloc, task, items.makespan, items.head, items.plan)
    } else {
        Ok(Next::On(Section::Items(items)))
    }
}

/// The lines of a plan, of which none is read.
fn first_items(alloc: Global, makespan: u64, head: u64, left: u64) -> Items
    ensures { IsFirstItems makespan head left result }
{
    Items {
        makespan,
        head,
        left,
        start: 0,
        act: 0,
        plan: Some(Vec::new(alloc)),
    }
}

/// The head of a plan.
pub(crate) fn at_plan(
    alloc: Global,
    task: &Task,
    makespan: u64,
    line_number: u64,
    line: &CertLine,
) -> Result<Next, Memory>
    requires section { IsSection task.now line_number (Section.Plan makespan) }
    requires line { IsLine line.now }
    ensures { IfOk result (λ next. (v : Version) → Moves task.now v (Section.Plan makespan) line_number line.now next) }
{
    match line {
        CertLine::Plan(left) => {
            let items = first_items(alloc, makespan, line_number, *left);
            at_items(alloc, task, items)
        }
        _ => Ok(Next::Fault {
            line: line_number,
            why: Why::Grammar,
        }),
    }
}

/// An occurrence of this start and action is no sooner than the last one that is read.
fn is_in_turn(items: &Items, start: u64, act: u64) -> bool
    ensures { result ≡ is_no_sooner (record { act = items.now.act; start = items.now.start }) (record { act = act; start = start }) }
{
    items.start < start || (items.start == start && items.act <= act)
}

/// What is kept with one occurrence more.
fn with_occurrence(
    task: &Task,
    makespan: u64,
    plan: Option<Vec<Occ>>,
    start: u64,
    act: u64,
) -> Result<Option<Vec<Occ>>, Memory>
    ensures { IfOk result (KeepsAlso task.now makespan (record { act = act; start = start }) plan) }
{
    let Some(mut occs) = plan else {
        return Ok(None);
    };
    let actions = task.actions().len() as u64;
    if act >= actions || start > makespan {
        return Ok(None);
    }
    occs.push(Occ {
        act: act as u32,
        start,
    })?;
    Ok(Some(occs))
}

/// The lines of a plan that are left behind that of an occurrence.
fn with_item(task: &Task, items: Items, start: u64, act: u64) -> Result<Items, Memory>
    requires { 1 ≤ items.left }
    ensures { IfOk result (TakesItem task.now items (record { act = act; start = start })) }
{
    let Items {
        makespan,
        head,
        left,
        start: _,
        act: _,
        plan,
    } = items;
    let plan = with_occurrence(task, makespan, plan, start, act)?;
    Ok(Items {
        makespan,
        head,
        left: left - 1,
        start,
        act,
        plan,
    })
}

/// A line of a plan.
pub(crate) fn at_item(
    alloc: Global,
    task: &Task,
    items: Items,
    line_number: u64,
    line: &CertLine,
) -> Result<Next, Memory>
    requires section { IsSection task.now line_number (Section.Items items) }
    ensures { IfOk result (λ next. (v : Version) → Moves task.now v (Section.Items items) line_number line.now next) }
{
    match line {
        CertLine::Item { start, act } if is_in_turn(&items, *start, *act) => {
            let items = with_item(task, items, *start, *act)?;
            at_items(alloc, task, items)
        }
        _ => Ok(Next::Fault {
            line: line_number,
            why: Why::Grammar,
        }),
    }
}
