//! The values of a sheet that a line of a tree rests on.
//!
//! What a step, a branch or the end of a node needs of a sheet: moments that an interval keeps to, whole candidate
//! lists, and orders. Nothing else of the sheet is asked for: what is not said is looser than what stands in the sheet.

ghost use Rattle.cpt_sheet.specs.Gaps.{FitsTask};

use cpt_sheet::{
    Cand, Flaw, Kind, Need, Sheet, Step, Token, adds, deletes, gap, is_shut, kind, list, lists,
    needs_of, span, stands,
};
use cpt_tables::Tables;
use cpt_task::{Memory, Span, Task};

/// What a line needs of a sheet.
#[derive(Clone, Copy)]
pub enum Value {
    /// The interval begins no earlier.
    From { at: Cand, least: Span },
    /// The interval ends no later.
    Until { at: Cand, most: u64 },
    /// The candidates of a list are these and no more.
    Listed { tok: u32, pre: u32 },
    /// The first token comes before the second.
    Ordered { first: u32, second: u32 },
}

/// The number of a token or of an action, which are fewer than 2^32.
pub fn number_of(place: usize) -> u32 {
    place.min(4_294_967_295) as u32
}

fn earlier(to: Span, by: u64) -> Span {
    match to {
        Span::At(moment) => Span::At(moment.saturating_sub(by)),
        Span::Never => Span::Never,
    }
}

/// What is a gap behind the beginning of the interval comes no earlier than at the moment.
fn add_from(values: &mut Vec<Value>, at: Cand, apart: Span, to: Span) -> Result<(), Memory> {
    if let Span::At(by) = apart {
        values.push(Value::From {
            at,
            least: earlier(to, by),
        })?;
    }
    Ok(())
}

/// What is a gap ahead of the end of the interval comes no later than at the moment.
fn add_until(values: &mut Vec<Value>, at: Cand, apart: Span, to: Span) -> Result<(), Memory> {
    if let (Span::At(by), Span::At(moment)) = (apart, to) {
        values.push(Value::Until {
            at,
            most: moment.saturating_add(by),
        })?;
    }
    Ok(())
}

/// The interval has no moment.
fn add_shut(values: &mut Vec<Value>, sheet: &Sheet, at: Cand) -> Result<(), Memory> {
    let hi = span(sheet, at).hi;
    values.push(Value::From {
        at,
        least: Span::At(hi.saturating_add(1)),
    })?;
    values.push(Value::Until { at, most: hi })?;
    Ok(())
}

fn add_list(values: &mut Vec<Value>, tok: u32, pre: u32) -> Result<(), Memory> {
    values.push(Value::Listed { tok, pre })?;
    Ok(())
}

fn add_order(values: &mut Vec<Value>, first: u32, second: u32) -> Result<(), Memory> {
    values.push(Value::Ordered { first, second })?;
    Ok(())
}

/// The order of two tokens that stands, where it does.
fn order_of(sheet: &Sheet, c: Cand, d: Cand) -> Option<(u32, u32)> {
    match (c, d) {
        (Cand::Tok(x), Cand::Tok(y)) => {
            if stands(sheet, x, y) {
                Some((x, y))
            } else {
                None
            }
        }
        _ => None,
    }
}

/// The first comes too late for the second.
fn add_late(
    values: &mut Vec<Value>,
    task: &Task,
    tables: &Tables,
    sheet: &Sheet,
    c: Cand,
    d: Cand,
) -> Result<(), Memory>
    requires tables { FitsTask task.now tables.now }
{
    let apart = gap(task, tables, kind(sheet, c), kind(sheet, d));
    if let Span::At(by) = apart {
        let hi = span(sheet, d).hi;
        let after = Span::At(hi.saturating_add(1));
        values.push(Value::From {
            at: c,
            least: earlier(after, by),
        })?;
        values.push(Value::Until { at: d, most: hi })?;
    }
    Ok(())
}

/// The first cannot precede the second.
fn add_hindered(
    values: &mut Vec<Value>,
    task: &Task,
    tables: &Tables,
    sheet: &Sheet,
    c: Cand,
    d: Cand,
) -> Result<(), Memory>
    requires tables { FitsTask task.now tables.now }
{
    match order_of(sheet, d, c) {
        Some((first, second)) => add_order(values, first, second),
        None => add_late(values, task, tables, sheet, c, d),
    }
}

/// The first arrives at the second no earlier than at the moment.
fn add_arrival(
    values: &mut Vec<Value>,
    task: &Task,
    tables: &Tables,
    sheet: &Sheet,
    c: Cand,
    d: Cand,
    to: Span,
) -> Result<(), Memory>
    requires tables { FitsTask task.now tables.now }
{
    let apart = gap(task, tables, kind(sheet, c), kind(sheet, d));
    add_from(values, c, apart, to)
}

/// The first must begin by the moment, to come before the second.
fn add_deadline(
    values: &mut Vec<Value>,
    task: &Task,
    tables: &Tables,
    sheet: &Sheet,
    c: Cand,
    d: Cand,
    to: Span,
) -> Result<(), Memory>
    requires tables { FitsTask task.now tables.now }
{
    let apart = gap(task, tables, kind(sheet, c), kind(sheet, d));
    add_until(values, d, apart, to)
}

/// Each candidate of the list arrives at the token no earlier than at the moment.
fn add_arrivals(
    values: &mut Vec<Value>,
    task: &Task,
    tables: &Tables,
    sheet: &Sheet,
    tok: u32,
    pre: u32,
    to: Span,
) -> Result<(), Memory>
    requires tables { FitsTask task.now tables.now }
{
    add_list(values, tok, pre)?;
    for c in list(sheet, tok, pre) {
        add_arrival(values, task, tables, sheet, *c, Cand::Tok(tok), to)?;
    }
    Ok(())
}

/// Each token that adds the atom arrives at the outside action no earlier than at the moment.
fn add_tokens(
    values: &mut Vec<Value>,
    task: &Task,
    tables: &Tables,
    sheet: &Sheet,
    act: u32,
    pre: u32,
    to: Span,
) -> Result<(), Memory>
    requires tables { FitsTask task.now tables.now }
{
    for y in 0..sheet.tokens.as_slice().len() {
        let c = Cand::Tok(number_of(y));
        if adds(task, kind(sheet, c), pre) {
            add_arrival(values, task, tables, sheet, c, Cand::Out(act), to)?;
        }
    }
    Ok(())
}

/// The outside action has no moment, or arrives at the other no earlier than at the moment.
fn add_out(
    values: &mut Vec<Value>,
    task: &Task,
    tables: &Tables,
    sheet: &Sheet,
    out: u32,
    act: u32,
    to: Span,
) -> Result<(), Memory>
    requires tables { FitsTask task.now tables.now }
{
    let c = Cand::Out(out);
    if is_shut(span(sheet, c)) {
        return add_shut(values, sheet, c);
    }
    add_arrival(values, task, tables, sheet, c, Cand::Out(act), to)
}

/// As `add_out`, of each outside action that adds the atom.
fn add_outs(
    values: &mut Vec<Value>,
    task: &Task,
    tables: &Tables,
    sheet: &Sheet,
    act: u32,
    pre: u32,
    to: Span,
) -> Result<(), Memory>
    requires tables { FitsTask task.now tables.now }
{
    for o in 0..task.actions().len() {
        if adds(task, Kind::Act(number_of(o)), pre) {
            add_out(values, task, tables, sheet, number_of(o), act, to)?;
        }
    }
    Ok(())
}

/// The first, as the one that adds `pre`, goes not with the second, as the one that adds `other`.
fn add_apart(
    values: &mut Vec<Value>,
    task: &Task,
    tables: &Tables,
    sheet: &Sheet,
    pre: u32,
    other: u32,
    c: Cand,
    d: Cand,
) -> Result<(), Memory>
    requires tables { FitsTask task.now tables.now }
{
    if deletes(task, kind(sheet, c), other) && deletes(task, kind(sheet, d), pre) {
        return Ok(());
    }
    add_hindered(values, task, tables, sheet, c, d)?;
    add_hindered(values, task, tables, sheet, d, c)
}

/// The candidate for `pre` goes with no candidate for `other`.
fn add_none_beside(
    values: &mut Vec<Value>,
    task: &Task,
    tables: &Tables,
    sheet: &Sheet,
    tok: u32,
    pre: u32,
    cand: Cand,
    other: u32,
) -> Result<(), Memory>
    requires tables { FitsTask task.now tables.now }
{
    add_list(values, tok, other)?;
    for d in list(sheet, tok, other) {
        add_apart(values, task, tables, sheet, pre, other, cand, *d)?;
    }
    Ok(())
}

fn first_of(sheet: &Sheet, tok: u32, pre: u32) -> Cand {
    match list(sheet, tok, pre).first() {
        Some(c) => *c,
        None => Cand::Tok(tok),
    }
}

/// What a step of the last four rules rests on.
fn add_late_step(
    values: &mut Vec<Value>,
    task: &Task,
    tables: &Tables,
    sheet: &Sheet,
    step: Step,
) -> Result<(), Memory>
    requires tables { FitsTask task.now tables.now }
{
    match step {
        Step::R11After { tok, pre, act, to } => {
            let (x, a) = (Cand::Tok(tok), Cand::Out(act));
            add_list(values, tok, pre)?;
            let y = first_of(sheet, tok, pre);
            add_hindered(values, task, tables, sheet, a, y)?;
            add_arrival(values, task, tables, sheet, x, a, to)
        }
        Step::R11Ahead { tok, pre, act, to } => {
            let (x, a) = (Cand::Tok(tok), Cand::Out(act));
            add_list(values, tok, pre)?;
            let y = first_of(sheet, tok, pre);
            add_hindered(values, task, tables, sheet, x, a)?;
            add_deadline(values, task, tables, sheet, a, y, to)
        }
        Step::R12After { tok, act, to } => {
            let (x, a) = (Cand::Tok(tok), Cand::Out(act));
            add_hindered(values, task, tables, sheet, a, x)?;
            add_arrival(values, task, tables, sheet, x, a, to)
        }
        Step::R12Ahead { tok, act, to } => {
            let (x, a) = (Cand::Tok(tok), Cand::Out(act));
            add_hindered(values, task, tables, sheet, x, a)?;
            add_deadline(values, task, tables, sheet, a, x, to)
        }
        Step::R13 {
            tok,
            pre,
            cand,
            other,
        } => add_none_beside(values, task, tables, sheet, tok, pre, cand, other),
        _ => Ok(()),
    }
}

/// What a step of the rules 7 to 10 rests on, or of a later rule.
fn add_middle_step(
    values: &mut Vec<Value>,
    task: &Task,
    tables: &Tables,
    sheet: &Sheet,
    step: Step,
) -> Result<(), Memory>
    requires tables { FitsTask task.now tables.now }
{
    match step {
        Step::R7 { act, .. } => add_shut(values, sheet, Cand::Out(act)),
        Step::R8 { tok, cand, foe, .. } => {
            add_hindered(values, task, tables, sheet, Cand::Tok(foe), cand)?;
            add_hindered(values, task, tables, sheet, Cand::Tok(tok), Cand::Tok(foe))
        }
        Step::R9After { tok, pre, foe } => {
            add_list(values, tok, pre)?;
            let y = first_of(sheet, tok, pre);
            add_hindered(values, task, tables, sheet, Cand::Tok(foe), y)
        }
        Step::R9Ahead { tok, pre, foe } => {
            add_list(values, tok, pre)?;
            add_hindered(values, task, tables, sheet, Cand::Tok(tok), Cand::Tok(foe))
        }
        Step::R10 { act, pre, to } => {
            add_tokens(values, task, tables, sheet, act, pre, to)?;
            add_outs(values, task, tables, sheet, act, pre, to)
        }
        _ => add_late_step(values, task, tables, sheet, step),
    }
}

/// Adds what a step rests on that is legal at the sheet.
pub fn add_step(
    values: &mut Vec<Value>,
    task: &Task,
    tables: &Tables,
    sheet: &Sheet,
    step: Step,
) -> Result<(), Memory>
    requires tables { FitsTask task.now tables.now }
{
    match step {
        Step::R1 { first, second, to } => {
            let (x, y) = (Cand::Tok(first), Cand::Tok(second));
            add_order(values, first, second)?;
            add_arrival(values, task, tables, sheet, x, y, to)
        }
        Step::R2 { first, second, to } => {
            let (x, y) = (Cand::Tok(first), Cand::Tok(second));
            add_order(values, first, second)?;
            add_deadline(values, task, tables, sheet, x, y, to)
        }
        Step::R3 { first, second } => {
            add_hindered(
                values,
                task,
                tables,
                sheet,
                Cand::Tok(second),
                Cand::Tok(first),
            )
        }
        Step::R4 { tok, pre, to } => add_arrivals(values, task, tables, sheet, tok, pre, to),
        Step::R5 { tok, cand, .. } => {
            add_hindered(values, task, tables, sheet, cand, Cand::Tok(tok))
        }
        Step::R6 { tok, pre } => add_list(values, tok, pre),
        _ => add_middle_step(values, task, tables, sheet, step),
    }
}

/// Adds what the children of a flaw rest on.
pub fn add_flaw(values: &mut Vec<Value>, flaw: Flaw) -> Result<(), Memory> {
    match flaw {
        Flaw::Threat { tok, pre, .. } => add_list(values, tok, pre),
        Flaw::OpenNeed { tok, pre } => add_list(values, tok, pre),
        Flaw::Clash { .. } => Ok(()),
    }
}

fn empty_need(needs: &[Need]) -> Option<&Need> {
    needs.iter().find(|n| n.cands.as_slice().is_empty())
}

fn shut_token(tokens: &[Token]) -> Option<usize> {
    tokens.iter().position(|z| is_shut(z.span))
}

fn bare_token(tokens: &[Token]) -> Option<usize> {
    tokens
        .iter()
        .position(|z| empty_need(z.lists.as_slice()).is_some())
}

/// Adds what the death of a sheet rests on.
pub fn add_death(values: &mut Vec<Value>, sheet: &Sheet) -> Result<(), Memory> {
    if let Some(x) = shut_token(sheet.tokens.as_slice()) {
        return add_shut(values, sheet, Cand::Tok(number_of(x)));
    }
    if let Some(x) = bare_token(sheet.tokens.as_slice()) {
        if let Some(need) = empty_need(lists(sheet, number_of(x))) {
            return add_list(values, number_of(x), need.atom);
        }
    }
    Ok(())
}

/// Adds that the outside actions that add the atom and have no moment have none.
fn add_shut_outs(
    values: &mut Vec<Value>,
    task: &Task,
    sheet: &Sheet,
    pre: u32,
) -> Result<(), Memory> {
    for o in 0..task.actions().len() {
        let c = Cand::Out(number_of(o));
        if adds(task, kind(sheet, c), pre) && is_shut(span(sheet, c)) {
            add_shut(values, sheet, c)?;
        }
    }
    Ok(())
}

/// Adds what the lists of a new token of the action rest on.
pub fn add_bring(
    values: &mut Vec<Value>,
    task: &Task,
    sheet: &Sheet,
    act: u32,
) -> Result<(), Memory> {
    for pre in needs_of(task, Kind::Act(act)) {
        add_shut_outs(values, task, sheet, *pre)?;
    }
    Ok(())
}
