//! Certificates, line by line.

ghost use Rattle.std.specs.Prelude.{◌≡◌, ◌≤◌, ◌<◌, ◌^◌, ◌==◌, ◌&&◌, ℕ, length, IfOk, MatchBool};
ghost use Rattle.cpt_task.specs.Shape.{TaskShape};
ghost use Rattle.cpt_cert_form.specs.Forms.{IsClaim};
ghost use Rattle.cpt_sections.specs.Sections.{IsSection, HasFew, IsLine, Moves};
ghost use Rattle.cpt_sections.specs.Stages.{IsStage, HasFewAt, Turns, Ends, version_at, first_section, turned};

use crate::planning::{at_item, at_plan};
use crate::section::{Aim, Next, Section, Stage, Trees, Turned};
use crate::tabling::{at_dist_row, at_dists, at_pair_row, at_pairs};
use crate::treeing::{
    at_counted_end, at_end, at_node, at_nothing, at_open_node, at_open_tree, at_tree,
};
use cpt_cert_accept::Why;
use cpt_cert_read::{CertLine, Claim, Version};
use cpt_task::{Memory, Task};
use std::alloc::Global;

/// What a line leads to that is none of those that may stand there.
fn strange(line_number: u64) -> Turned
    ensures { result ≡ Turned.Fault line_number Why.Grammar }
{
    Turned::Fault {
        line: line_number,
        why: Why::Grammar,
    }
}

fn at_first(line_number: u64, line: &CertLine) -> Turned
    ensures { (t : TaskShape) → Turns t Stage.First line_number line.now result }
{
    match line {
        CertLine::First(version) => Turned::On(Stage::Claimed(*version)),
        _ => strange(line_number),
    }
}

fn at_claim(version: Version, line_number: u64, line: &CertLine) -> Turned
    requires { IsLine line.now }
    ensures { (t : TaskShape) → Turns t (Stage.Claimed version) line_number line.now result }
{
    match line {
        CertLine::Claimed(claim) => Turned::On(Stage::Sized(version, *claim)),
        _ => strange(line_number),
    }
}

/// The first of the sections that the claim asks for.
fn first_section(claim: Claim) -> Section
    ensures { result ≡ first_section claim }
{
    match claim {
        Claim::Optimal(makespan) => Section::Plan(makespan),
        Claim::NoneUpTo(bound) => Section::Pairs(Aim::Trees(Trees::Closed(bound))),
        Claim::Never => Section::Pairs(Aim::Goal),
        Claim::Spent { refuted, nodes } => {
            Section::Pairs(Aim::Trees(Trees::Open { refuted, nodes }))
        }
    }
}

/// The task has so many atoms and actions.
fn has_sizes(task: &Task, atoms: u64, actions: u64) -> bool
    ensures { result ≡ ((atoms == length task.now.atoms) && (actions == length task.now.actions)) }
{
    atoms == task.atoms().len() as u64 && actions == task.actions().len() as u64
}

fn at_sizes(
    task: &Task,
    version: Version,
    claim: Claim,
    line_number: u64,
    line: &CertLine,
) -> Turned
    requires { IsStage task.now line_number (Stage.Sized version claim) }
    ensures { Turns task.now (Stage.Sized version claim) line_number line.now result }
{
    let CertLine::Sizes { atoms, actions } = line else {
        return strange(line_number);
    };
    if has_sizes(task, *atoms, *actions) {
        Turned::On(Stage::Within(version, claim, first_section(claim)))
    } else {
        Turned::Fault {
            line: line_number,
            why: Why::Task,
        }
    }
}

/// What a line leads to, where something behind the line of the sizes is still to be read.
pub(crate) fn take_section(
    alloc: Global,
    task: &Task,
    version: Version,
    section: Section,
    line_number: u64,
    line: &CertLine,
) -> Result<Next, Memory>
    requires section { IsSection task.now line_number section }
    requires few { HasFew 4294967292 section }
    requires line { IsLine line.now }
    requires number { line_number < 2 ^ 40 }
    requires late { 2 ≤ line_number }
    requires atoms { length task.now.atoms ≤ 2048 }
    requires actions { length task.now.actions ≤ 4096 }
    ensures { IfOk result (Moves task.now version section line_number line.now) }
{
    match section {
        Section::Plan(makespan) => at_plan(alloc, task, makespan, line_number, line),
        Section::Items(items) => at_item(alloc, task, items, line_number, line),
        Section::Pairs(aim) => at_pairs(alloc, task, aim, line_number, line),
        Section::PairRows(rows) => Ok(at_pair_row(task, version, rows, line_number, line)),
        Section::Dists(trees, pairs) => { at_dists(alloc, task, trees, pairs, line_number, line) }
        Section::DistRows(rows) => Ok(at_dist_row(task, version, rows, line_number, line)),
        Section::Tree(trees, tables) => at_tree(alloc, task, trees, tables, line_number, line),
        Section::Nodes(trees, tables, walk) => {
            at_node(alloc, task, trees, tables, walk, line_number, line)
        }
        Section::OpenTree {
            refuted,
            nodes,
            tables,
        } => at_open_tree(alloc, task, refuted, nodes, tables, line_number, line),
        Section::OpenNodes {
            nodes,
            tables,
            walk,
        } => at_open_node(alloc, task, nodes, tables, walk, line_number, line),
        Section::End => Ok(at_end(line_number, line)),
        Section::CountedEnd(counted) => Ok(at_counted_end(counted, line_number, line)),
        Section::Done => Ok(at_nothing(line_number)),
    }
}

/// What a line of a section leads to, of a certificate in this version and with this claim.
fn turned(version: Version, claim: Claim, next: Next) -> Turned
    ensures { result ≡ turned version claim next }
{
    match next {
        Next::On(section) => Turned::On(Stage::Within(version, claim, section)),
        Next::Fault { line, why } => Turned::Fault { line, why },
    }
}

/// What a line leads to: what is read next, or the first fault of every text that begins so.
pub fn take_line(
    alloc: Global,
    task: &Task,
    stage: Stage,
    line_number: u64,
    line: &CertLine,
) -> Result<Turned, Memory>
    requires stage { IsStage task.now line_number stage }
    requires few { HasFewAt 4294967292 stage }
    requires line { IsLine line.now }
    requires number { line_number < 2 ^ 40 }
    requires atoms { length task.now.atoms ≤ 2048 }
    requires actions { length task.now.actions ≤ 4096 }
    ensures { IfOk result (Turns task.now stage line_number line.now) }
{
    match stage {
        Stage::First => Ok(at_first(line_number, line)),
        Stage::Claimed(version) => Ok(at_claim(version, line_number, line)),
        Stage::Sized(version, claim) => Ok(at_sizes(task, version, claim, line_number, line)),
        Stage::Within(version, claim, section) => {
            let next = take_section(alloc, task, version, section, line_number, line)?;
            Ok(turned(version, claim, next))
        }
    }
}

/// Before the first line.
pub fn begin() -> Stage
    ensures { result ≡ Stage.First }
{
    Stage::First
}

/// Nothing is left to be read.
fn is_done(section: &Section) -> bool
    ensures { MatchBool result (section.now ≡ Section.Done) (section.now ≡ Section.Done → ⊥) }
{
    matches!(section, Section::Done)
}

/// The version and the claim of a certificate that is read whole. With `None`, a text that ends here ends too early.
pub fn claimed(stage: &Stage) -> Option<(Version, Claim)>
    ensures { (t : TaskShape) (n : ℕ) → IsStage t n stage.now → Ends t stage.now n result }
{
    let Stage::Within(version, claim, section) = stage else {
        return None;
    };
    if is_done(section) {
        Some((*version, *claim))
    } else {
        None
    }
}

/// The version that the lines read so far name.
pub fn version_of(stage: &Stage) -> Option<Version>
    ensures { result ≡ version_at stage.now }
{
    match stage {
        Stage::First => None,
        Stage::Claimed(version) | Stage::Sized(version, _) | Stage::Within(version, _, _) => {
            Some(*version)
        }
    }
}
