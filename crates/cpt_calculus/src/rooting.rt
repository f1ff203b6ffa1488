//! The root sheet of a bound.

ghost use Rattle.std.specs.Prelude.{◌≡◌, ◌<◌, ◌≤◌, ◌^◌, ◌∷◌, [], map, IfOk, OnOk, length};
ghost use Rattle.cpt_task.specs.Shape.{InBounds};
ghost use Rattle.cpt_sheet.specs.Formed.{IsFormed};
ghost use Rattle.cpt_sheet.specs.Gaps.{FitsTask, gap};
ghost use Rattle.cpt_tables.specs.Shapes.{set_span_of};
ghost use Rattle.cpt_tables.specs.Admissible.{nth_action};
ghost use Rattle.cpt_calculus.specs.Decisions.{need_for};
ghost use Rattle.cpt_calculus.specs.Root.{window, out_at_root, outs_at_root, start_token, end_token, bare_root, root_of};

use crate::build::needs_for;
use cpt_sheet::{Interval, Kind, Need, Sheet, Token, gap};
use cpt_tables::Tables;
use cpt_task::{List, Memory, Span, Task};
use std::alloc::Global;

fn window_of(first: Span, left: Span, bound: u64) -> Interval
    ensures { result ≡ window first left bound }
{
    match left {
        Span::At(n) if n <= bound => Interval {
            lo: first,
            hi: bound - n,
        },
        _ => Interval {
            lo: Span::Never,
            hi: 0,
        },
    }
}

fn out_of(task: &Task, tables: &Tables, bound: u64, act: u32) -> Interval
    requires tables { FitsTask task.now tables.now }
    requires act { act < length task.now.actions }
    ensures { result ≡ out_at_root task.now tables.now bound act }
{
    let first = gap(task, tables, Kind::Start, Kind::Act(act));
    let left = gap(task, tables, Kind::Act(act), Kind::End);
    window_of(first, left, bound)
}

fn outs_of(alloc: Global, task: &Task, tables: &Tables, bound: u64) -> Result<Vec<Interval>, Memory>
    requires { FitsTask task.now tables.now }
    ensures outs { IfOk result (λ v. v.items ≡ outs_at_root task.now tables.now bound (length task.now.actions)) }
    ensures bounds { OnOk result (InBounds task.now) }
{
    let mut outs = Vec::new(alloc);
    for a in 0..task.actions().len() {
        outs.push(out_of(task, tables, bound, a as u32))?;
    }
    Ok(outs)
}

fn start(alloc: Global) -> Token
    ensures { result ≡ start_token }
{
    Token {
        kind: Kind::Start,
        span: Interval {
            lo: Span::At(0),
            hi: 0,
        },
        lists: List::from_vec(Vec::new(alloc)),
    }
}

fn end(alloc: Global, task: &Task, tables: &Tables, bound: u64) -> Token
    requires { FitsTask task.now tables.now }
    ensures { result ≡ end_token task.now tables.now bound }
{
    Token {
        kind: Kind::End,
        span: Interval {
            lo: gap(task, tables, Kind::Start, Kind::End),
            hi: bound,
        },
        lists: List::from_vec(Vec::new(alloc)),
    }
}

fn two_tokens(alloc: Global, first: Token, second: Token) -> Result<List<Token>, Memory>
    ensures { IfOk result (λ l. l ≡ first ∷ second ∷ []) }
{
    let mut tokens = Vec::new(alloc);
    tokens.push(first)?;
    tokens.push(second)?;
    Ok(List::from_vec(tokens))
}

fn first_order(alloc: Global) -> Result<List<(u32, u32)>, Memory>
    ensures { IfOk result (λ l. l ≡ (0, 1) ∷ []) }
{
    let mut orders = Vec::new(alloc);
    orders.push((0u32, 1u32))?;
    Ok(List::from_vec(orders))
}

fn bare(alloc: Global, task: &Task, tables: &Tables, bound: u64) -> Result<Sheet, Memory>
    requires { FitsTask task.now tables.now }
    ensures sheet { IfOk result (λ s. s ≡ bare_root task.now tables.now bound) }
    ensures bounds { OnOk result (InBounds task.now) }
{
    let tokens = two_tokens(alloc, start(alloc), end(alloc, task, tables, bound))?;
    let outs = outs_of(alloc, task, tables, bound)?;
    let orders = first_order(alloc)?;
    Ok(Sheet {
        bound,
        tokens,
        outs: List::from_vec(outs),
        orders,
    })
}

fn goal_lists(alloc: Global, task: &Task, sheet: &Sheet) -> Result<List<Need>, Memory>
    requires { length sheet.now.tokens < 2 ^ 32 }
    ensures { IfOk result (λ l. l ≡ map (need_for task.now sheet.now) task.now.goal) }
{
    needs_for(alloc, task, sheet, task.goal())
}

fn root_sheet(alloc: Global, task: &Task, tables: &Tables, bound: u64) -> Result<Sheet, Memory>
    requires { FitsTask task.now tables.now }
    ensures sheet { IfOk result (λ s. s ≡ root_of task.now tables.now bound) }
    ensures bounds { OnOk result (InBounds task.now) }
{
    let sheet = bare(alloc, task, tables, bound)?;
    let lists = goal_lists(alloc, task, &sheet)?;
    let Sheet { outs, orders, .. } = sheet;
    let end = Token {
        lists,
        ..end(alloc, task, tables, bound)
    };
    Ok(Sheet {
        bound,
        tokens: two_tokens(alloc, start(alloc), end)?,
        outs,
        orders,
    })
}

/// The root sheet of a bound: the start, the end and the outside intervals, with all that may add an atom of the goal.
pub fn root(alloc: Global, task: &Task, tables: &Tables, bound: u64) -> Result<Sheet, Memory>
    requires tables { FitsTask task.now tables.now }
    requires bound { bound ≤ 1000000 }
    ensures sheet { IfOk result (λ s. s ≡ root_of task.now tables.now bound) }
    ensures formed { IfOk result (IsFormed task.now) }
{
    root_sheet(alloc, task, tables, bound)
}
