//! The trees of a certificate, line by line, and its end.

ghost use Rattle.std.specs.Prelude.{◌≡◌, ℕ, ◌+◌, ◌<◌, ◌≤◌, ◌^◌, ◌==◌, ◌&&◌, ◌⊎◌, false, [], ◌∷◌, IfOk};
ghost use Rattle.cpt_task.specs.Shape.{TaskShape};
ghost use Rattle.cpt_sheet.specs.Gaps.{FitsTask};
ghost use Rattle.cpt_calculus.specs.Root.{root_of};
ghost use Rattle.cpt_cert_form.specs.declared.forms.CertLine.{CertLine};
ghost use Rattle.cpt_cert_form.specs.declared.forms.Version.{Version};
ghost use Rattle.cpt_cert_accept.specs.Trees.Part.{node};
ghost use Rattle.cpt_walk.specs.Walks.{parts_left, IsUnread, AreFew};
ghost use Rattle.cpt_sections.specs.Behind.{first_bound, behind_tree};
ghost use Rattle.cpt_sections.specs.Sections.{AreNodesLeft, IsSection, Moves};

use crate::section::{Next, Section, Trees};
use cpt_calculus::root;
use cpt_cert_accept::Why;
use cpt_cert_read::CertLine;
use cpt_tables::Tables;
use cpt_task::{Memory, Task};
use cpt_walk::{Turn, Walk, begin_tree, is_read, take_node};
use std::alloc::Global;

/// The bound of the closed tree.
fn closed_bound(trees: Trees) -> u64
    ensures { result ≡ first_bound trees }
{
    match trees {
        Trees::Closed(bound) => bound,
        Trees::Open { refuted, nodes: _ } => refuted,
    }
}

/// A tree over the root of a bound, of which nothing is read.
fn begin_root(
    alloc: Global,
    task: &Task,
    tables: &Tables,
    bound: u64,
    may_open: bool,
) -> Result<Walk, Memory>
    requires tables { FitsTask task.now tables.now }
    requires bound { bound ≤ 1000000 }
    ensures parts { IfOk result (λ w. parts_left w ≡ node (root_of task.now tables.now bound) ∷ []) }
    ensures left { IfOk result (λ w. (n : ℕ) → AreNodesLeft task.now (n + 1) may_open w) }
    ensures few { IfOk result (λ w. (k : ℕ) → AreFew k w) }
    ensures none { IfOk result (λ w. (w.past.done ≡ 0) × (w.past.left ≡ false)) }
{
    let sheet = root(alloc, task, tables, bound)?;
    Ok(begin_tree(alloc, sheet, may_open))
}

/// The line of a closed tree's bound.
pub(crate) fn at_tree(
    alloc: Global,
    task: &Task,
    trees: Trees,
    tables: Tables,
    line_number: u64,
    line: &CertLine,
) -> Result<Next, Memory>
    requires section { IsSection task.now line_number (Section.Tree trees tables) }
    ensures { IfOk result (λ next. (v : Version) → Moves task.now v (Section.Tree trees tables) line_number line.now next) }
{
    let CertLine::Tree(bound) = line else {
        return Ok(Next::Fault {
            line: line_number,
            why: Why::Grammar,
        });
    };
    if *bound != closed_bound(trees) {
        return Ok(Next::Fault {
            line: line_number,
            why: Why::Bound,
        });
    }
    let walk = begin_root(alloc, task, &tables, *bound, false)?;
    Ok(Next::On(Section::Nodes(trees, tables, walk)))
}

/// What stands behind a closed tree.
fn after_tree(trees: Trees, tables: Tables) -> Section
    ensures { result ≡ behind_tree trees tables }
{
    match trees {
        Trees::Closed(_) => Section::End,
        Trees::Open { refuted, nodes } => Section::OpenTree {
            refuted,
            nodes,
            tables,
        },
    }
}

/// What is still to be read behind a line of a closed tree.
fn after_node(trees: Trees, tables: Tables, walk: Walk) -> Section
    ensures { ((parts_left walk ≡ []) × (result ≡ behind_tree trees tables)) ⊎ (IsUnread walk × (result ≡ Section.Nodes trees tables walk)) }
{
    if is_read(&walk) {
        after_tree(trees, tables)
    } else {
        Section::Nodes(trees, tables, walk)
    }
}

/// A line of a closed tree.
pub(crate) fn at_node(
    alloc: Global,
    task: &Task,
    trees: Trees,
    tables: Tables,
    walk: Walk,
    line_number: u64,
    line: &CertLine,
) -> Result<Next, Memory>
    requires section { IsSection task.now line_number (Section.Nodes trees tables walk) }
    requires few { AreFew 4294967292 walk }
    requires number { line_number < 2 ^ 40 }
    ensures { IfOk result (λ next. (v : Version) → Moves task.now v (Section.Nodes trees tables walk) line_number line.now next) }
{
    let CertLine::Node(node) = line else {
        return Ok(Next::Fault {
            line: line_number,
            why: Why::Grammar,
        });
    };
    match take_node(alloc, task, &tables, walk, node)? {
        Turn::On(walk) => Ok(Next::On(after_node(trees, tables, walk))),
        Turn::Fault(why) => Ok(Next::Fault {
            line: line_number,
            why,
        }),
    }
}

/// The line of the bound of a tree with open nodes.
pub(crate) fn at_open_tree(
    alloc: Global,
    task: &Task,
    refuted: u64,
    nodes: u64,
    tables: Tables,
    line_number: u64,
    line: &CertLine,
) -> Result<Next, Memory>
    requires section { IsSection task.now line_number (Section.OpenTree refuted nodes tables) }
    ensures { IfOk result (λ next. (v : Version) → Moves task.now v (Section.OpenTree refuted nodes tables) line_number line.now next) }
{
    let CertLine::OpenTree(bound) = line else {
        return Ok(Next::Fault {
            line: line_number,
            why: Why::Grammar,
        });
    };
    if *bound != refuted + 1 {
        return Ok(Next::Fault {
            line: line_number,
            why: Why::Bound,
        });
    }
    let walk = begin_root(alloc, task, &tables, *bound, true)?;
    Ok(Next::On(Section::OpenNodes {
        nodes,
        tables,
        walk,
    }))
}

/// Whether so many nodes are done, and some are open.
fn is_counted(nodes: u64, walk: &Walk) -> bool
    ensures { result ≡ ((walk.now.past.done == nodes) && walk.now.past.left) }
{
    walk.past.done == nodes && walk.past.left
}

/// What is still to be read behind a line of a tree with open nodes.
fn after_open_node(nodes: u64, tables: Tables, walk: Walk) -> Section
    ensures { ((parts_left walk ≡ []) × (result ≡ Section.CountedEnd ((walk.past.done == nodes) && walk.past.left))) ⊎ (IsUnread walk × (result ≡ Section.OpenNodes nodes tables walk)) }
{
    if is_read(&walk) {
        Section::CountedEnd(is_counted(nodes, &walk))
    } else {
        Section::OpenNodes {
            nodes,
            tables,
            walk,
        }
    }
}

/// A line of a tree with open nodes.
pub(crate) fn at_open_node(
    alloc: Global,
    task: &Task,
    nodes: u64,
    tables: Tables,
    walk: Walk,
    line_number: u64,
    line: &CertLine,
) -> Result<Next, Memory>
    requires section { IsSection task.now line_number (Section.OpenNodes nodes tables walk) }
    requires few { AreFew 4294967292 walk }
    requires number { line_number < 2 ^ 40 }
    ensures { IfOk result (λ next. (v : Version) → Moves task.now v (Section.OpenNodes nodes tables walk) line_number line.now next) }
{
    let CertLine::Node(node) = line else {
        return Ok(Next::Fault {
            line: line_number,
            why: Why::Grammar,
        });
    };
    match take_node(alloc, task, &tables, walk, node)? {
        Turn::On(walk) => Ok(Next::On(after_open_node(nodes, tables, walk))),
        Turn::Fault(why) => Ok(Next::Fault {
            line: line_number,
            why,
        }),
    }
}

/// The last line behind a plan, a table or a closed tree.
pub(crate) fn at_end(line_number: u64, line: &CertLine) -> Next
    ensures { (t : TaskShape) (v : Version) → Moves t v Section.End line_number line.now result }
{
    match line {
        CertLine::End => Next::On(Section::Done),
        _ => Next::Fault {
            line: line_number,
            why: Why::Grammar,
        },
    }
}

/// The last line behind a tree with open nodes.
pub(crate) fn at_counted_end(counted: bool, line_number: u64, line: &CertLine) -> Next
    ensures { (t : TaskShape) (v : Version) → Moves t v (Section.CountedEnd counted) line_number line.now result }
{
    match line {
        CertLine::End if counted => Next::On(Section::Done),
        CertLine::End => Next::Fault {
            line: line_number,
            why: Why::Count,
        },
        _ => Next::Fault {
            line: line_number,
            why: Why::Grammar,
        },
    }
}

/// A line behind the last line.
pub(crate) fn at_nothing(line_number: u64) -> Next
    ensures { (t : TaskShape) (v : Version) (line : CertLine) → Moves t v Section.Done line_number line result }
{
    Next::Fault {
        line: line_number,
        why: Why::Grammar,
    }
}
