//! The tables of a certificate, row by row.

ghost use Rattle.std.specs.Prelude.{◌≡◌, ◌≢◌, ◌+◌, ℕ, ◌<◌, ◌≤◌, ◌^◌, length, All, IfOk, MatchBool};
ghost use Rattle.cpt_tables.specs.Shapes.{FitsPairs, FitsDists, IsWholePairs, IsWholeDists, set_span_of};
ghost use Rattle.cpt_cert_form.specs.Forms.{IsRun};
ghost use Rattle.cpt_cert_accept.specs.Reading.{values_of};
ghost use Rattle.cpt_walk.specs.Puts.{PutsPairs, PutsDists};
ghost use Rattle.cpt_sections.specs.Sections.{Left, BehindPairs, IsAim, IsSection, IsLine, Moves};
ghost use Rattle.cpt_sections.specs.Proceeding.{Proceeds, ArePairRowsSoFar, AreDistRowsSoFar};

use crate::section::{Aim, DistRows, Next, PairRows, Section, Trees};
use cpt_cert_accept::Why;
use cpt_cert_read::{CertLine, Run, Version};
use cpt_tables::{DistTable, PairTable, Tables, admissible_dists, admissible_pairs, set_span};
use cpt_task::{Memory, Span, Task};
use cpt_walk::{is_row, put_dist_row, put_pair_row};
use std::alloc::Global;

/// The goal can never hold.
fn is_hopeless(task: &Task, pairs: &PairTable) -> bool
    requires fits { FitsPairs task.now pairs.now }
    ensures { MatchBool result (set_span_of pairs.now task.now.goal ≡ Span.Never) (set_span_of pairs.now task.now.goal ≢ Span.Never) }
{
    let _atoms = task.atoms();
    set_span(pairs, task.goal()) == Span::Never
}

/// Behind an admissible pair table, where the goal is never to hold.
fn judge_goal(task: &Task, pairs: &PairTable) -> Next
    requires fits { FitsPairs task.now pairs.now }
    ensures { (v : Version) (n : ℕ) → 2 < n → Proceeds task.now v (BehindPairs task.now v Aim.Goal pairs.now) n result }
{
    if is_hopeless(task, pairs) {
        Next::On(Section::End)
    } else {
        Next::Fault {
            line: 2,
            why: Why::Goal,
        }
    }
}

/// Behind an admissible pair table.
fn leave_pairs(task: &Task, aim: Aim, pairs: PairTable) -> Next
    requires aim { IsAim aim }
    requires fits { FitsPairs task.now pairs }
    ensures { (v : Version) (n : ℕ) → 2 < n → Proceeds task.now v (BehindPairs task.now v aim pairs) n result }
{
    match aim {
        Aim::Goal => judge_goal(task, &pairs),
        Aim::Trees(trees) => Next::On(Section::Dists(trees, pairs)),
    }
}

/// All rows of the pair table are read.
fn judge_pairs(task: &Task, rows: PairRows) -> Next
    requires rows { ArePairRowsSoFar task.now rows }
    requires all { rows.next ≡ length task.now.atoms }
    ensures { (v : Version) → Proceeds task.now v (Left task.now v (Section.PairRows rows)) (rows.head + 1 + rows.next) result }
{
    let PairRows {
        aim,
        head,
        pairs,
        ..
    } = rows;
    match admissible_pairs(task, &pairs) {
        None => leave_pairs(task, aim, pairs),
        Some(fault) => Next::Fault {
            line: head + 1 + u64::from(fault.p),
            why: Why::Pair,
        },
    }
}

/// The next row of the pair table is to be read, or none is left.
fn after_pairs(task: &Task, rows: PairRows) -> Next
    requires rows { ArePairRowsSoFar task.now rows }
    ensures { (v : Version) → Proceeds task.now v (Left task.now v (Section.PairRows rows)) (rows.head + 1 + rows.next) result }
{
    if (rows.next as usize) < task.atoms().len() {
        Next::On(Section::PairRows(rows))
    } else {
        judge_pairs(task, rows)
    }
}

/// The head of the pair table comes.
pub(crate) fn at_pairs(
    alloc: Global,
    task: &Task,
    aim: Aim,
    line_number: u64,
    line: &CertLine,
) -> Result<Next, Memory>
    requires section { IsSection task.now line_number (Section.Pairs aim) }
    requires number { line_number < 2 ^ 40 }
    requires late { 2 ≤ line_number }
    requires atoms { length task.now.atoms ≤ 2048 }
    ensures { IfOk result (λ next. (v : Version) → Moves task.now v (Section.Pairs aim) line_number line.now next) }
{
    match line {
        CertLine::Pairs => {
            let pairs = PairTable::filled(alloc, task.atoms().len() as u32, Span::Never)?;
            Ok(after_pairs(
                task,
                PairRows {
                    aim,
                    head: line_number,
                    next: 0,
                    pairs,
                },
            ))
        }
        _ => Ok(Next::Fault {
            line: line_number,
            why: Why::Grammar,
        }),
    }
}

/// Puts a row into the pair table.
fn with_pair_row(rows: PairRows, runs: &[Run]) -> PairRows
    requires more { rows.next < rows.pairs.atoms }
    requires fits { rows.next + length (values_of runs.now) ≡ rows.pairs.atoms }
    requires runs { All IsRun runs.now }
    ensures puts { PutsPairs rows.pairs result.pairs rows.next rows.next (values_of runs.now) }
    ensures whole { IsWholePairs result.pairs }
    ensures next { result.next ≡ rows.next + 1 }
    ensures aim { result.aim ≡ rows.aim }
    ensures head { result.head ≡ rows.head }
{
    let PairRows {
        aim,
        head,
        next,
        pairs,
    } = rows;
    let mut pairs = pairs;
    let _few = pairs.atoms();
    put_pair_row(&mut pairs, next, runs);
    let _whole = pairs.atoms();
    PairRows {
        aim,
        head,
        next: next + 1,
        pairs,
    }
}

fn take_pair_row(
    task: &Task,
    version: Version,
    rows: PairRows,
    line_number: u64,
    runs: &[Run],
) -> Next
    requires section { IsSection task.now line_number (Section.PairRows rows) }
    requires runs { All IsRun runs.now }
    requires number { line_number < 2 ^ 40 }
    requires late { 2 ≤ line_number }
    ensures { Moves task.now version (Section.PairRows rows) line_number (CertLine.PairRow runs.now) result }
{
    if is_row(version, rows.pairs.atoms() - rows.next, runs) {
        after_pairs(task, with_pair_row(rows, runs))
    } else {
        Next::Fault {
            line: line_number,
            why: Why::Grammar,
        }
    }
}

/// A row of the pair table comes.
pub(crate) fn at_pair_row(
    task: &Task,
    version: Version,
    rows: PairRows,
    line_number: u64,
    line: &CertLine,
) -> Next
    requires section { IsSection task.now line_number (Section.PairRows rows) }
    requires line { IsLine line.now }
    requires number { line_number < 2 ^ 40 }
    requires late { 2 ≤ line_number }
    ensures { Moves task.now version (Section.PairRows rows) line_number line.now result }
{
    match line {
        CertLine::PairRow(runs) => take_pair_row(task, version, rows, line_number, runs.as_slice()),
        _ => Next::Fault {
            line: line_number,
            why: Why::Grammar,
        },
    }
}

/// All rows of the distance table are read.
fn judge_dists(task: &Task, rows: DistRows) -> Next
    requires rows { AreDistRowsSoFar task.now rows }
    requires all { rows.next ≡ length task.now.actions }
    ensures { (v : Version) → Proceeds task.now v (Left task.now v (Section.DistRows rows)) (rows.head + 1 + rows.next) result }
{
    let DistRows {
        trees,
        head,
        pairs,
        dists,
        ..
    } = rows;
    match admissible_dists(task, &pairs, &dists) {
        None => Next::On(Section::Tree(trees, Tables { pairs, dists })),
        Some(fault) => Next::Fault {
            line: head + 1 + u64::from(fault.act),
            why: Why::Dist,
        },
    }
}

/// The next row of the distance table is to be read, or none is left.
fn after_dists(task: &Task, rows: DistRows) -> Next
    requires rows { AreDistRowsSoFar task.now rows }
    ensures { (v : Version) → Proceeds task.now v (Left task.now v (Section.DistRows rows)) (rows.head + 1 + rows.next) result }
{
    if (rows.next as usize) < task.actions().len() {
        Next::On(Section::DistRows(rows))
    } else {
        judge_dists(task, rows)
    }
}

/// A distance table of the task's sizes.
fn empty_dists(alloc: Global, task: &Task) -> Result<DistTable, Memory>
    requires atoms { length task.now.atoms ≤ 2048 }
    requires actions { length task.now.actions ≤ 4096 }
    ensures fits { IfOk result (λ dists. FitsDists task.now dists) }
    ensures whole { IfOk result (λ dists. IsWholeDists dists) }
{
    let dists = DistTable::filled(
        alloc,
        task.actions().len() as u32,
        task.atoms().len() as u32,
        Span::Never,
    )?;
    let _whole = dists.atoms();
    Ok(dists)
}

/// The head of the distance table comes.
pub(crate) fn at_dists(
    alloc: Global,
    task: &Task,
    trees: Trees,
    pairs: PairTable,
    line_number: u64,
    line: &CertLine,
) -> Result<Next, Memory>
    requires section { IsSection task.now line_number (Section.Dists trees pairs) }
    requires number { line_number < 2 ^ 40 }
    requires atoms { length task.now.atoms ≤ 2048 }
    requires actions { length task.now.actions ≤ 4096 }
    ensures { IfOk result (λ next. (v : Version) → Moves task.now v (Section.Dists trees pairs) line_number line.now next) }
{
    match line {
        CertLine::Dists => {
            let dists = empty_dists(alloc, task)?;
            Ok(after_dists(
                task,
                DistRows {
                    trees,
                    head: line_number,
                    next: 0,
                    pairs,
                    dists,
                },
            ))
        }
        _ => Ok(Next::Fault {
            line: line_number,
            why: Why::Grammar,
        }),
    }
}

/// Puts a row into the distance table.
fn with_dist_row(rows: DistRows, runs: &[Run]) -> DistRows
    requires more { rows.next < rows.dists.actions }
    requires fits { length (values_of runs.now) ≡ rows.dists.atoms }
    requires runs { All IsRun runs.now }
    ensures puts { PutsDists rows.dists result.dists rows.next 0 (values_of runs.now) }
    ensures whole { IsWholeDists result.dists }
    ensures next { result.next ≡ rows.next + 1 }
    ensures trees { result.trees ≡ rows.trees }
    ensures head { result.head ≡ rows.head }
    ensures pairs { result.pairs ≡ rows.pairs }
{
    let DistRows {
        trees,
        head,
        next,
        pairs,
        dists,
    } = rows;
    let mut dists = dists;
    let _few = dists.actions();
    put_dist_row(&mut dists, next, runs);
    let _whole = dists.atoms();
    DistRows {
        trees,
        head,
        next: next + 1,
        pairs,
        dists,
    }
}

fn take_dist_row(
    task: &Task,
    version: Version,
    rows: DistRows,
    line_number: u64,
    runs: &[Run],
) -> Next
    requires section { IsSection task.now line_number (Section.DistRows rows) }
    requires runs { All IsRun runs.now }
    requires number { line_number < 2 ^ 40 }
    ensures { Moves task.now version (Section.DistRows rows) line_number (CertLine.DistRow runs.now) result }
{
    if is_row(version, rows.dists.atoms(), runs) {
        after_dists(task, with_dist_row(rows, runs))
    } else {
        Next::Fault {
            line: line_number,
            why: Why::Grammar,
        }
    }
}

/// A row of the distance table comes.
pub(crate) fn at_dist_row(
    task: &Task,
    version: Version,
    rows: DistRows,
    line_number: u64,
    line: &CertLine,
) -> Next
    requires section { IsSection task.now line_number (Section.DistRows rows) }
    requires line { IsLine line.now }
    requires number { line_number < 2 ^ 40 }
    ensures { Moves task.now version (Section.DistRows rows) line_number line.now result }
{
    match line {
        CertLine::DistRow(runs) => take_dist_row(task, version, rows, line_number, runs.as_slice()),
        _ => Next::Fault {
            line: line_number,
            why: Why::Grammar,
        },
    }
}
