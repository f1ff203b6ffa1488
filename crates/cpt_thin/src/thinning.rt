//! Step lines that are dropped node by node.
//!
//! Those are dropped first on which nothing rests, so that few are left to be tried that are not needed.
//!
//! Whether a step of a node is needed is seen over the lines of that node and of what stands below it, read alone over
//! the node's sheet: what comes behind them is read from where it was read before. It is no law that a line that is
//! dropped is not needed: the text that is left is to be read whole.

ghost use Rattle.std.specs.Prelude.{◌≡◌, ◌≤◌, ◌<◌, ℕ, length, All, IfOk, OnOk};
ghost use Rattle.cpt_task.specs.Shape.{TaskShape};
ghost use Rattle.cpt_sheet.specs.Gaps.{FitsTask};
ghost use Rattle.cpt_walk.specs.Walks.{IsWalk, AreFew};
ghost use Rattle.cpt_sections.specs.Sections.{IsLine};
ghost use Rattle.cpt_thin.specs.Dooms.{IsGoing};
ghost use Rattle.cpt_thin.specs.Thinner.{IsBegun, IsSomeFront, IsThinner, AreBegun, Thins};

use crate::doubts::{Met, meet};
use crate::fates::{Fate, fate_at, is_kept_at};
use crate::fronts::{Front, begin_front, pass_line};
use crate::rests::resting;
use cpt_cert_read::CertLine;
use cpt_edits::copy_sheet;
use cpt_sections::{Section, Stage};
use cpt_sheet::{NodeLine, Sheet};
use cpt_tables::Tables;
use cpt_task::{Memory, Task};
use cpt_walk::{Place, Walk, begin_tree};
use std::alloc::Global;

/// A node of which lines are left.
#[derive(Drop)]
struct Begun {
    /// The place of its first line.
    place: usize,
    /// How many branches had children left before it.
    depth: usize,
    sheet: Sheet,
}

/// A walk of which nothing is read but what led to the sheet.
fn walk_from(alloc: Global, sheet: &Sheet, may_open: bool) -> Result<Walk, Memory>
    ensures { IfOk result (λ walk. (t : TaskShape) (k : ℕ) → IsBegun t k sheet.now → IsGoing t k walk) }
{
    let copy = copy_sheet(alloc, sheet)?;
    Ok(begin_tree(alloc, copy, may_open))
}

/// Whether the lines that are left from the place to the last one are those of a node.
fn is_node(
    alloc: Global,
    task: &Task,
    tables: &Tables,
    start: Walk,
    fates: &[Fate],
    lines: &[CertLine],
    place: usize,
    last: usize,
) -> Result<bool, Memory>
    requires tables { FitsTask task.now tables.now }
    requires going { IsGoing task.now place start }
    requires place { place ≤ length lines.now }
    requires each { length fates.now ≡ length lines.now }
    requires size { length lines.now ≤ 16777216 }
{
    let mut walk = start;
    for at in place..lines.len() {
        match meet(alloc, task, tables, walk, fates[at], &lines[at])? {
            Met::On(next) => walk = next,
            Met::Read => return Ok(at == last),
            Met::Fault => return Ok(false),
            Met::Other => return Ok(false),
        }
    }
    Ok(false)
}

/// Drops the line at the place, where it is a step line that is kept and the lines that are left to the last one are
/// those of the node without it.
fn thin_place(
    alloc: Global,
    task: &Task,
    tables: &Tables,
    may_open: bool,
    node: &Begun,
    fates: &mut [Fate],
    lines: &[CertLine],
    place: usize,
    last: usize,
) -> Result<(), Memory>
    requires tables { FitsTask task.now tables.now }
    requires sheet { IsBegun task.now node.now.place node.now.sheet }
    requires behind { node.now.place ≤ place }
    requires place { place < length lines.now }
    requires each { length fates.old ≡ length lines.now }
    requires size { length lines.now ≤ 16777216 }
    ensures { OnOk result (length fates.new ≡ length fates.old) }
{
    if !is_kept_at(fates, place) {
        return Ok(());
    }
    fates[place] = Fate::Dropped;
    let start = walk_from(alloc, &node.sheet, may_open)?;
    if !is_node(alloc, task, tables, start, fates, lines, node.place, last)? {
        fates[place] = Fate::Kept;
    }
    Ok(())
}

fn is_fixed(fate: Fate) -> bool {
    matches!(fate, Fate::Fixed)
}

/// The place behind the step lines from a place on.
fn steps_end(fates: &[Fate], place: usize) -> usize
    ensures { result ≤ length fates.now }
{
    for at in place..fates.len() {
        if is_fixed(fates[at]) {
            return at;
        }
    }
    fates.len()
}

/// Drops step lines of a node that ends with the last line.
fn thin_node(
    alloc: Global,
    task: &Task,
    tables: &Tables,
    may_open: bool,
    node: &Begun,
    fates: &mut [Fate],
    lines: &[CertLine],
    last: usize,
) -> Result<(), Memory>
    requires tables { FitsTask task.now tables.now }
    requires sheet { IsBegun task.now node.now.place node.now.sheet }
    requires each { length fates.old ≡ length lines.now }
    requires size { length lines.now ≤ 16777216 }
    ensures { OnOk result (length fates.new ≡ length fates.old) }
{
    let mut at = steps_end(fates, node.place);
    while at > node.place {
        at -= 1;
        thin_place(alloc, task, tables, may_open, node, fates, lines, at, last)?;
    }
    Ok(())
}

/// Whether no fewer than so many branches had children left before the last node.
fn is_last_done(nodes: &[Begun], depth: usize) -> bool {
    match nodes.last() {
        Some(node) => node.depth >= depth,
        None => false,
    }
}

/// Drops step lines of the nodes that end with the last line, where so many branches have children left.
fn thin_done(
    alloc: Global,
    task: &Task,
    tables: &Tables,
    may_open: bool,
    nodes: &mut Vec<Begun>,
    depth: usize,
    fates: &mut [Fate],
    lines: &[CertLine],
    last: usize,
) -> Result<(), Memory>
    requires tables { FitsTask task.now tables.now }
    requires nodes { AreBegun task.now nodes.old.items }
    requires each { length fates.old ≡ length lines.now }
    requires size { length lines.now ≤ 16777216 }
    ensures nodes { OnOk result (AreBegun task.now nodes.new.items) }
    ensures each { OnOk result (length fates.new ≡ length fates.old) }
{
    'nodes: while is_last_done(nodes, depth) {
        let Some(node) = nodes.pop() else {
            return Ok(());
        };
        thin_node(alloc, task, tables, may_open, &node, fates, lines, last)?;
    }
    Ok(())
}

/// Puts the node behind the others that begins at the place, where one begins there.
fn note_node(alloc: Global, walk: &Walk, place: usize, nodes: &mut Vec<Begun>) -> Result<(), Memory>
    ensures { (t : TaskShape) → IsWalk t walk.now → AreFew place walk.now → AreBegun t nodes.old.items → OnOk result (AreBegun t nodes.new.items) }
{
    if let Place::Node(sheet) = &walk.place {
        let sheet = copy_sheet(alloc, sheet)?;
        nodes.push(Begun {
            place,
            depth: walk.past.frames.len(),
            sheet,
        })?;
    }
    Ok(())
}

/// Whether a node ends with the line.
fn ends_node(line: &CertLine) -> bool {
    matches!(
        line,
        CertLine::Node(NodeLine::Close) | CertLine::Node(NodeLine::OpenNode)
    )
}

/// Notes the node that begins at the place, and drops step lines of the nodes that end there.
fn thin_walk(
    alloc: Global,
    task: &Task,
    tables: &Tables,
    walk: &Walk,
    nodes: &mut Vec<Begun>,
    fates: &mut [Fate],
    lines: &[CertLine],
    place: usize,
) -> Result<(), Memory>
    requires tables { FitsTask task.now tables.now }
    requires walk { IsWalk task.now walk.now }
    requires few { AreFew place walk.now }
    requires nodes { AreBegun task.now nodes.old.items }
    requires place { place < length lines.now }
    requires each { length fates.old ≡ length lines.now }
    requires size { length lines.now ≤ 16777216 }
    ensures nodes { OnOk result (AreBegun task.now nodes.new.items) }
    ensures each { OnOk result (length fates.new ≡ length fates.old) }
{
    note_node(alloc, walk, place, nodes)?;
    if !ends_node(&lines[place]) {
        return Ok(());
    }
    let depth = walk.past.frames.len();
    thin_done(
        alloc,
        task,
        tables,
        walk.past.may_open,
        nodes,
        depth,
        fates,
        lines,
        place,
    )
}

/// As `thin_walk`, where the lines before the place are those of a certificate up to a place in a tree.
fn thin_at(
    alloc: Global,
    task: &Task,
    front: &Option<Front>,
    nodes: &mut Vec<Begun>,
    fates: &mut [Fate],
    lines: &[CertLine],
    place: usize,
) -> Result<(), Memory>
    requires front { IsSomeFront task.now place front.now }
    requires nodes { AreBegun task.now nodes.old.items }
    requires place { place < length lines.now }
    requires each { length fates.old ≡ length lines.now }
    requires size { length lines.now ≤ 16777216 }
    ensures nodes { OnOk result (AreBegun task.now nodes.new.items) }
    ensures each { OnOk result (length fates.new ≡ length fates.old) }
{
    let Some(front) = front else {
        return Ok(());
    };
    match &front.stage {
        Stage::Within(_, _, Section::Nodes(_, tables, walk)) => {
            thin_walk(alloc, task, tables, walk, nodes, fates, lines, place)
        }
        Stage::Within(
            _,
            _,
            Section::OpenNodes {
                nodes: _,
                tables,
                walk,
            },
        ) => { thin_walk(alloc, task, tables, walk, nodes, fates, lines, place) }
        _ => Ok(()),
    }
}

/// Drops step lines of the trees of a certificate, as far as it is seen node by node that they are not needed.
fn thin_all(
    alloc: Global,
    task: &Task,
    fates: &mut [Fate],
    lines: &[CertLine],
) -> Result<(), Memory>
    requires each { length fates.old ≡ length lines.now }
    requires lines { All IsLine lines.now }
    requires size { length lines.now ≤ 16777216 }
    requires atoms { length task.now.atoms ≤ 2048 }
    requires actions { length task.now.actions ≤ 4096 }
{
    let mut front = Some(begin_front());
    let mut nodes: Vec<Begun> = Vec::new(alloc);
    for place in 0..lines.len() {
        thin_at(alloc, task, &front, &mut nodes, fates, lines, place)?;
        front = pass_line(alloc, task, front, fate_at(fates, place), &lines[place])?;
    }
    Ok(())
}

/// What becomes of a line of which this was found: a step line alone is dropped.
fn thinner_fate(fate: Fate, found: Option<Fate>) -> Fate
    ensures { Thins fate result }
{
    match (fate, found) {
        (Fate::Kept, Some(Fate::Dropped)) => Fate::Dropped,
        _ => fate,
    }
}

/// What becomes of lines, as far as it is seen node by node which step lines are not needed.
pub fn thin(
    alloc: Global,
    task: &Task,
    fates: &[Fate],
    lines: &[CertLine],
) -> Result<Vec<Fate>, Memory>
    requires each { length fates.now ≡ length lines.now }
    requires lines { All IsLine lines.now }
    requires size { length lines.now ≤ 16777216 }
    requires atoms { length task.now.atoms ≤ 2048 }
    requires actions { length task.now.actions ≤ 4096 }
    ensures { IfOk result (λ thinner. IsThinner fates.now thinner.items) }
{
    let mut found = resting(alloc, task, fates, lines)?;
    thin_all(alloc, task, &mut found, lines)?;
    let mut thinner = Vec::new(alloc);
    for (place, fate) in fates.iter().enumerate() {
        thinner.push(thinner_fate(*fate, found.get(place).copied()))?;
    }
    Ok(thinner)
}
