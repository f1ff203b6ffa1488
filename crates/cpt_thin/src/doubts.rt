//! Whether a part of a tree can be read without a line.

ghost use Rattle.std.specs.Prelude.{◌≡◌, ◌≤◌, ◌<◌, ◌+◌, ℕ, ⊤, List, [], ◌∷◌, ◌++◌, length, drop, IfOk, MatchBool};
ghost use Rattle.cpt_cert_form.specs.declared.forms.CertLine.{CertLine};
ghost use Rattle.cpt_sheet.specs.Gaps.{FitsTask};
ghost use Rattle.cpt_walk.specs.Walks.{parts_left, IsWalk, AreFew};
ghost use Rattle.cpt_sections.specs.Stages.{IsStage, HasFewAt};
ghost use Rattle.cpt_thin.specs.Fronts.{read_of};
ghost use Rattle.cpt_thin.specs.Dooms.{IsDoomed, IsDoomedAt, IsGoing, Meets, MayBeAlone, line_left};

use crate::fates::{Fate, is_dropped};
use cpt_cert_read::CertLine;
use cpt_edits::copy_sheet;
use cpt_sections::{Section, Stage};
use cpt_tables::Tables;
use cpt_task::{Memory, Task};
use cpt_walk::{Past, Place, Turn, Walk, is_read, take_node};
use std::alloc::Global;

/// What a line of a tree comes to.
#[derive(Drop)]
pub enum Met {
    /// More of the tree is left.
    On(Walk),
    /// The tree is read.
    Read,
    /// The line is at fault.
    Fault,
    /// The line is none of a tree.
    Other,
}

/// Reads a line of a tree of which lines are left.
fn meet_line(
    alloc: Global,
    task: &Task,
    tables: &Tables,
    walk: Walk,
    line: &CertLine,
) -> Result<Met, Memory>
    requires tables { FitsTask task.now tables.now }
    requires going { (k : ℕ) × (k ≤ 16777216) × IsGoing task.now k walk }
    ensures { IfOk result (Meets task.now tables.now walk (line.now ∷ [])) }
{
    let CertLine::Node(node) = line else {
        return Ok(Met::Other);
    };
    match take_node(alloc, task, tables, walk, node)? {
        Turn::On(next) => {
            if is_read(&next) {
                return Ok(Met::Read);
            }
            Ok(Met::On(next))
        }
        Turn::Fault(_why) => Ok(Met::Fault),
    }
}

/// Reads a line of a tree of which lines are left, where it is not dropped.
pub fn meet(
    alloc: Global,
    task: &Task,
    tables: &Tables,
    walk: Walk,
    fate: Fate,
    line: &CertLine,
) -> Result<Met, Memory>
    requires tables { FitsTask task.now tables.now }
    requires going { (k : ℕ) × (k ≤ 16777216) × IsGoing task.now k walk }
    ensures { IfOk result (Meets task.now tables.now walk (line_left fate line.now)) }
{
    if is_dropped(fate) {
        return Ok(Met::On(walk));
    }
    meet_line(alloc, task, tables, walk, line)
}

/// Whether a fault stands in the lines that are left from the place on, before the tree is read.
fn is_doomed(
    alloc: Global,
    task: &Task,
    tables: &Tables,
    start: Walk,
    fates: &[Fate],
    lines: &[CertLine],
    place: usize,
) -> Result<bool, Memory>
    requires tables { FitsTask task.now tables.now }
    requires going { IsGoing task.now place start }
    requires place { place ≤ length lines.now }
    requires each { length fates.now ≡ length lines.now }
    requires size { length lines.now ≤ 16777216 }
    ensures { IfOk result (λ doomed. MatchBool doomed ((rest : List CertLine) → IsDoomed task.now tables.now start.past.may_open (parts_left start) (read_of (drop place fates.now) (drop place lines.now) ++ rest)) ⊤) }
{
    let mut walk = start;
    for at in place..lines.len() {
        match meet(alloc, task, tables, walk, fates[at], &lines[at])? {
            Met::On(next) => walk = next,
            Met::Fault => return Ok(true),
            Met::Read => return Ok(false),
            Met::Other => return Ok(false),
        }
    }
    Ok(false)
}

/// A walk at the place of which nothing is behind.
fn walk_at(alloc: Global, may_open: bool, place: Place) -> Walk
    ensures place { result.place ≡ place }
    ensures past { (result.past.frames.items ≡ []) × (result.past.may_open ≡ may_open) × (result.past.done ≡ 0) }
{
    Walk {
        past: Past {
            may_open,
            frames: Vec::new(alloc),
            done: 0,
            left: false,
        },
        place,
    }
}

/// A walk of which only the place is left to be read at which the walk stands. `None` where it stands behind a node.
pub fn alone(alloc: Global, walk: &Walk) -> Result<Option<Walk>, Memory>
    ensures { IfOk result (MayBeAlone walk.now) }
{
    match &walk.place {
        Place::Node(sheet) => {
            let copy = copy_sheet(alloc, sheet)?;
            Ok(Some(walk_at(alloc, walk.past.may_open, Place::Node(copy))))
        }
        Place::Worked(sheet) => {
            let copy = copy_sheet(alloc, sheet)?;
            Ok(Some(walk_at(alloc, walk.past.may_open, Place::Worked(copy))))
        }
        Place::Behind => Ok(None),
    }
}

/// Whether a fault stands in the lines that are left from the place on, before the node is read at which the walk stands.
fn is_doomed_node(
    alloc: Global,
    task: &Task,
    tables: &Tables,
    walk: &Walk,
    fates: &[Fate],
    lines: &[CertLine],
    place: usize,
) -> Result<bool, Memory>
    requires tables { FitsTask task.now tables.now }
    requires walk { IsWalk task.now walk.now }
    requires few { AreFew place walk.now }
    requires place { place ≤ length lines.now }
    requires each { length fates.now ≡ length lines.now }
    requires size { length lines.now ≤ 16777216 }
    ensures { IfOk result (λ doomed. MatchBool doomed ((rest : List CertLine) → IsDoomed task.now tables.now walk.now.past.may_open (parts_left walk.now) (read_of (drop place fates.now) (drop place lines.now) ++ rest)) ⊤) }
{
    match alone(alloc, walk)? {
        Some(walk) => is_doomed(alloc, task, tables, walk, fates, lines, place),
        None => Ok(false),
    }
}

/// Whether a fault is known to stand in the lines that are left from the place on. `false` tells nothing of them.
pub fn is_doomed_at(
    alloc: Global,
    task: &Task,
    stage: &Stage,
    fates: &[Fate],
    lines: &[CertLine],
    place: usize,
) -> Result<bool, Memory>
    requires stage { (n : ℕ) × IsStage task.now n stage.now }
    requires few { HasFewAt place stage.now }
    requires place { place ≤ length lines.now }
    requires each { length fates.now ≡ length lines.now }
    requires size { length lines.now ≤ 16777216 }
    ensures { IfOk result (λ doomed. MatchBool doomed ((rest : List CertLine) → IsDoomedAt task.now stage.now (read_of (drop place fates.now) (drop place lines.now) ++ rest)) ⊤) }
{
    let Stage::Within(_, _, section) = stage else {
        return Ok(false);
    };
    match section {
        Section::Nodes(_, tables, walk) => {
            is_doomed_node(alloc, task, tables, walk, fates, lines, place)
        }
        Section::OpenNodes {
            nodes: _,
            tables,
            walk,
        } => is_doomed_node(alloc, task, tables, walk, fates, lines, place),
        _ => Ok(false),
    }
}
