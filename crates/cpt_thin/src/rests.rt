//! Step lines that a tree rests on.
//!
//! A value of a sheet was made by the last step line on the way to it that changed it, or by none. The lines that close
//! or branch nodes stay; with them the step lines that made what they rest on, what these rest on, and so on.

ghost use Rattle.std.specs.Prelude.{◌≡◌, ◌≤◌, ◌<◌, length, All, IfOk, OnOk};
ghost use Rattle.cpt_sheet.specs.Gaps.{FitsTask};
ghost use Rattle.cpt_sections.specs.Sections.{IsLine};
ghost use Rattle.cpt_thin.specs.Thinner.{IsSomeFront};

use crate::fates::{Fate, fate_at, is_dropped};
use crate::fronts::{Front, begin_front, pass_line};
use crate::values::{Value, add_bring, add_death, add_flaw, add_step, number_of};
use cpt_calculus::change_of;
use cpt_cert_read::CertLine;
use cpt_sections::{Section, Stage};
use cpt_sheet::{Cand, Change, Decision, Flaw, NodeLine, Sheet, Step, is_same, span};
use cpt_tables::{Tables, exceeds};
use cpt_task::{Memory, Span, Task};
use cpt_walk::{Past, Place, Walk};
use std::alloc::Global;

/// What was made on the way to a sheet, with the place of the step line that made it.
#[derive(Clone, Copy)]
enum Made {
    /// The beginning of an interval that began so.
    Raised {
        at: Cand,
        was: Span,
        line: usize,
    },
    /// The end of an interval that ended so.
    Lowered {
        at: Cand,
        was: u64,
        line: usize,
    },
    /// A list without a candidate.
    Taken {
        tok: u32,
        pre: u32,
        line: usize,
    },
    /// An order.
    Posted {
        first: u32,
        second: u32,
        line: usize,
    },
    /// A list, by a decision.
    Joined {
        tok: u32,
        pre: u32,
    },
    /// A token, by a decision, with the interval of the outside action.
    Brought {
        tok: u32,
        act: u32,
    },
}

/// What is known of the lines before a place.
#[derive(Drop)]
struct Notes {
    /// What was made on the way to the sheet.
    made: Vec<Made>,
    /// How much of it was made at each branch that has children left, from the root on.
    marks: Vec<usize>,
    /// The place of a line and that of a step line that it rests on, in the order of the first.
    rests: Vec<(usize, usize)>,
}

/// The place of the step line that brought the beginning of the interval to the moment.
fn from_line(made: &[Made], at: Cand, least: Span) -> Option<usize> {
    let mut at = at;
    for one in made.iter().rev() {
        match *one {
            Made::Raised { at: c, was, line } => {
                if is_same(c, at) && exceeds(least, was) {
                    return Some(line);
                }
            }
            Made::Brought { tok, act } => {
                if is_same(Cand::Tok(tok), at) {
                    at = Cand::Out(act);
                }
            }
            _ => {}
        }
    }
    None
}

/// The place of the step line that brought the end of the interval to the moment.
fn until_line(made: &[Made], at: Cand, most: u64) -> Option<usize> {
    let mut at = at;
    for one in made.iter().rev() {
        match *one {
            Made::Lowered { at: c, was, line } => {
                if is_same(c, at) && was > most {
                    return Some(line);
                }
            }
            Made::Brought { tok, act } => {
                if is_same(Cand::Tok(tok), at) {
                    at = Cand::Out(act);
                }
            }
            _ => {}
        }
    }
    None
}

/// The place of the step line that posted the order.
fn order_line(made: &[Made], x: u32, y: u32) -> Option<usize> {
    for one in made.iter().rev() {
        if let Made::Posted {
            first,
            second,
            line,
        } = *one
        {
            if first == x && second == y {
                return Some(line);
            }
        }
    }
    None
}

/// Whether the list was begun here.
fn begins_list(one: Made, x: u32, p: u32) -> bool {
    match one {
        Made::Joined { tok, pre } => tok == x && pre == p,
        Made::Brought { tok, .. } => tok == x,
        _ => false,
    }
}

/// The place of the step line that took a candidate of the list here.
fn taken_line(one: Made, x: u32, p: u32) -> Option<usize> {
    match one {
        Made::Taken { tok, pre, line } => {
            if tok == x && pre == p {
                Some(line)
            } else {
                None
            }
        }
        _ => None,
    }
}

fn rest_on(
    rests: &mut Vec<(usize, usize)>,
    place: usize,
    line: Option<usize>,
) -> Result<(), Memory> {
    if let Some(line) = line {
        rests.push((place, line))?;
    }
    Ok(())
}

/// Notes the step lines that took candidates of the list.
fn rest_on_list(
    made: &[Made],
    rests: &mut Vec<(usize, usize)>,
    place: usize,
    x: u32,
    p: u32,
) -> Result<(), Memory> {
    for one in made.iter().rev() {
        if begins_list(*one, x, p) {
            return Ok(());
        }
        rest_on(rests, place, taken_line(*one, x, p))?;
    }
    Ok(())
}

/// Notes the step lines that the line at the place rests on for the value.
fn rest_on_value(
    made: &[Made],
    rests: &mut Vec<(usize, usize)>,
    place: usize,
    value: Value,
) -> Result<(), Memory> {
    match value {
        Value::From { at, least } => rest_on(rests, place, from_line(made, at, least)),
        Value::Until { at, most } => rest_on(rests, place, until_line(made, at, most)),
        Value::Listed { tok, pre } => rest_on_list(made, rests, place, tok, pre),
        Value::Ordered { first, second } => {
            rest_on(rests, place, order_line(made, first, second))
        }
    }
}

fn rest_on_values(notes: &mut Notes, place: usize, values: &[Value]) -> Result<(), Memory> {
    for value in values {
        rest_on_value(&notes.made, &mut notes.rests, place, *value)?;
    }
    Ok(())
}

/// What a change makes of a sheet.
fn made_by(sheet: &Sheet, change: Change, line: usize) -> Made {
    match change {
        Change::Raise { at, .. } => Made::Raised {
            at,
            was: span(sheet, at).lo,
            line,
        },
        Change::Lower { at, .. } => Made::Lowered {
            at,
            was: span(sheet, at).hi,
            line,
        },
        Change::Take { tok, pre, .. } => Made::Taken { tok, pre, line },
        Change::Post { first, second } => Made::Posted {
            first,
            second,
            line,
        },
    }
}

/// Notes a step line.
fn note_step(
    alloc: Global,
    task: &Task,
    tables: &Tables,
    sheet: &Sheet,
    notes: &mut Notes,
    place: usize,
    step: Step,
) -> Result<(), Memory>
    requires tables { FitsTask task.now tables.now }
{
    let mut values = Vec::new(alloc);
    add_step(&mut values, task, tables, sheet, step)?;
    rest_on_values(notes, place, &values)?;
    let made = made_by(sheet, change_of(sheet, step), place);
    notes.made.push(made)?;
    Ok(())
}

/// Notes the end of a node.
fn note_close(alloc: Global, sheet: &Sheet, notes: &mut Notes, place: usize) -> Result<(), Memory> {
    let mut values = Vec::new(alloc);
    add_death(&mut values, sheet)?;
    rest_on_values(notes, place, &values)
}

/// Notes a branch, where so many branches before it have children left.
fn note_branch(
    alloc: Global,
    notes: &mut Notes,
    place: usize,
    depth: usize,
    flaw: Flaw,
) -> Result<(), Memory> {
    let mut values = Vec::new(alloc);
    add_flaw(&mut values, flaw)?;
    rest_on_values(notes, place, &values)?;
    notes.marks.truncate(depth);
    notes.marks.push(notes.made.len())?;
    Ok(())
}

/// Notes a line of a node that has this sheet before it.
fn note_work(
    alloc: Global,
    task: &Task,
    tables: &Tables,
    walk: &Walk,
    sheet: &Sheet,
    notes: &mut Notes,
    place: usize,
    line: NodeLine,
) -> Result<(), Memory>
    requires tables { FitsTask task.now tables.now }
{
    match line {
        NodeLine::Narrow(step) => note_step(alloc, task, tables, sheet, notes, place, step),
        NodeLine::Close => note_close(alloc, sheet, notes, place),
        NodeLine::Branch(flaw) => { note_branch(alloc, notes, place, walk.past.frames.len(), flaw) }
        _ => Ok(()),
    }
}

/// Notes a decision, made on the sheet.
fn note_decision(
    alloc: Global,
    task: &Task,
    sheet: &Sheet,
    notes: &mut Notes,
    place: usize,
    decision: Decision,
) -> Result<(), Memory> {
    match decision {
        Decision::Join { tok, pre, .. } => notes.made.push(Made::Joined { tok, pre })?,
        Decision::Bring { tok, pre, act } => {
            let mut values = Vec::new(alloc);
            add_bring(&mut values, task, sheet, act)?;
            rest_on_values(notes, place, &values)?;
            let new = number_of(sheet.tokens.as_slice().len());
            notes.made.push(Made::Joined { tok, pre })?;
            notes.made.push(Made::Brought { tok: new, act })?;
        }
        Decision::Before { .. } => {}
    }
    Ok(())
}

/// Takes back what was made behind the last branch that has children left.
fn go_back(notes: &mut Notes, depth: usize) {
    let kept = match notes.marks.get(depth.saturating_sub(1)) {
        Some(mark) => *mark,
        None => 0,
    };
    notes.made.truncate(kept);
}

/// Notes a child line.
fn note_child(
    alloc: Global,
    task: &Task,
    past: &Past,
    notes: &mut Notes,
    place: usize,
    line: NodeLine,
) -> Result<(), Memory> {
    let (Some(frame), NodeLine::Child(decision)) = (past.frames.last(), line) else {
        return Ok(());
    };
    go_back(notes, past.frames.len());
    note_decision(alloc, task, &frame.sheet, notes, place, decision)
}

/// Forgets what was made, where a tree begins.
fn begin_notes(past: &Past, notes: &mut Notes) {
    if past.done == 0 && past.frames.is_empty() {
        notes.made.truncate(0);
    }
}

/// Notes a line of a tree.
fn note_line(
    alloc: Global,
    task: &Task,
    tables: &Tables,
    walk: &Walk,
    notes: &mut Notes,
    place: usize,
    line: NodeLine,
) -> Result<(), Memory>
    requires tables { FitsTask task.now tables.now }
{
    match &walk.place {
        Place::Node(sheet) => {
            begin_notes(&walk.past, notes);
            note_work(alloc, task, tables, walk, sheet, notes, place, line)
        }
        Place::Worked(sheet) => note_work(alloc, task, tables, walk, sheet, notes, place, line),
        Place::Behind => note_child(alloc, task, &walk.past, notes, place, line),
    }
}

/// Notes the line at the place, where it is one of a tree and the lines before it are read.
fn note_at(
    alloc: Global,
    task: &Task,
    front: &Option<Front>,
    notes: &mut Notes,
    lines: &[CertLine],
    place: usize,
) -> Result<(), Memory>
    requires front { IsSomeFront task.now place front.now }
    requires place { place < length lines.now }
{
    let (Some(front), CertLine::Node(line)) = (front, &lines[place]) else {
        return Ok(());
    };
    match &front.stage {
        Stage::Within(_, _, Section::Nodes(_, tables, walk)) => {
            note_line(alloc, task, tables, walk, notes, place, *line)
        }
        Stage::Within(
            _,
            _,
            Section::OpenNodes {
                nodes: _,
                tables,
                walk,
            },
        ) => { note_line(alloc, task, tables, walk, notes, place, *line) }
        _ => Ok(()),
    }
}

/// Which step lines the lines rest on.
fn rests_of(
    alloc: Global,
    task: &Task,
    fates: &[Fate],
    lines: &[CertLine],
) -> Result<Vec<(usize, usize)>, Memory>
    requires lines { All IsLine lines.now }
    requires size { length lines.now ≤ 16777216 }
    requires atoms { length task.now.atoms ≤ 2048 }
    requires actions { length task.now.actions ≤ 4096 }
{
    let mut front = Some(begin_front());
    let mut notes = Notes {
        made: Vec::new(alloc),
        marks: Vec::new(alloc),
        rests: Vec::new(alloc),
    };
    for place in 0..lines.len() {
        note_at(alloc, task, &front, &mut notes, lines, place)?;
        front = pass_line(alloc, task, front, fate_at(fates, place), &lines[place])?;
    }
    Ok(notes.rests)
}

fn less(fate: Fate) -> Fate {
    match fate {
        Fate::Kept => Fate::Dropped,
        _ => fate,
    }
}

fn are_dropped(alloc: Global, fates: &[Fate]) -> Result<Vec<Fate>, Memory>
    ensures { IfOk result (λ v. length v.items ≡ length fates.now) }
{
    let mut dropped = Vec::new(alloc);
    for fate in fates {
        dropped.push(less(*fate))?;
    }
    Ok(dropped)
}

/// Whether the line at the place is read.
fn is_left(fates: &[Fate], place: usize) -> bool {
    match fates.get(place) {
        Some(fate) => !is_dropped(*fate),
        None => false,
    }
}

/// Keeps the step line at the place.
fn keep(fates: &mut [Fate], place: usize)
    ensures { length fates.new ≡ length fates.old }
{
    if place < fates.len() {
        fates[place] = Fate::Kept;
    }
}

/// Keeps the step line on which a line that is read rests.
fn keep_for(fates: &mut [Fate], line: usize, step: usize)
    ensures { length fates.new ≡ length fates.old }
{
    if is_left(fates, line) {
        keep(fates, step);
    }
}

/// What becomes of step lines, where those alone are kept on which the other lines rest.
pub(crate) fn resting(
    alloc: Global,
    task: &Task,
    fates: &[Fate],
    lines: &[CertLine],
) -> Result<Vec<Fate>, Memory>
    requires each { length fates.now ≡ length lines.now }
    requires lines { All IsLine lines.now }
    requires size { length lines.now ≤ 16777216 }
    requires atoms { length task.now.atoms ≤ 2048 }
    requires actions { length task.now.actions ≤ 4096 }
    ensures { IfOk result (λ v. length v.items ≡ length lines.now) }
{
    let rests = rests_of(alloc, task, fates, lines)?;
    let mut found = are_dropped(alloc, fates)?;
    for rest in rests.iter().rev() {
        keep_for(&mut found, rest.0, rest.1);
    }
    Ok(found)
}
