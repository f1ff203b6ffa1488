//! A tree that is read line by line: the branches on the way to the node at hand, never by recursion.

ghost use Rattle.std.specs.Prelude.{◌≡◌, ◌≢◌, ℕ, ◌<◌, ◌≤◌, ◌+◌, ◌-◌, ◌^◌, false, [], ◌∷◌, ◌++◌, length, drop, All, IfOk, MatchBool, MatchOption};
ghost use Rattle.cpt_task.specs.Shape.{TaskShape};
ghost use Rattle.cpt_sheet.specs.Formed.{IsFormed};
ghost use Rattle.cpt_sheet.specs.Live.{IsLive};
ghost use Rattle.cpt_sheet.specs.Gaps.{FitsTask};
ghost use Rattle.cpt_calculus.specs.Rules.{IsLegal, narrowed};
ghost use Rattle.cpt_calculus.specs.Decisions.{Fits, applied};
ghost use Rattle.cpt_calculus.specs.Flaws.{IsFlaw, children};
ghost use Rattle.cpt_cert_accept.specs.Trees.Part.{node};
ghost use Rattle.cpt_cert_accept.specs.Descent.{begins_left};
ghost use Rattle.cpt_cert_form.specs.declared.forms.CertLine.TheVariants as cert;
ghost use Rattle.cpt_walk.specs.Walks.{still, parts_left, at_work, at_node, at_end, IsFrame, IsFewIn, AreFew, IsWalk, IsUnread, GoesDown, Turns};

use cpt_calculus::{
    Decision, Flaw, NodeLine, Sheet, Step, apply, copy_sheet, flaw_children, is_dead, is_flaw,
    legal, narrow,
};
use cpt_cert_accept::Why;
use cpt_tables::Tables;
use cpt_task::{List, Memory, Task};
use std::alloc::Global;

/// A branch: its sheet, the children of its flaw, and how many of them have been met.
#[derive(Debug, Drop)]
pub struct Frame {
    pub sheet: Sheet,
    pub children: List<Decision>,
    pub met: usize,
}

/// Where the reading of a tree stands.
#[derive(Debug, Drop)]
pub enum Place {
    /// Before a node over the sheet.
    Node(Sheet),
    /// Behind step lines of a node, which led to the sheet.
    Worked(Sheet),
    /// Behind a node: the next child of the last branch comes, or the tree is read.
    Behind,
}

/// What is behind the place at which the reading of a tree stands.
#[derive(Debug, Drop)]
pub struct Past {
    /// Whether nodes may be open.
    pub may_open: bool,
    /// The branches that have children left, from the root on.
    pub frames: Vec<Frame>,
    /// How many nodes are closed or branched.
    pub done: u64,
    /// Whether some node is open.
    pub left: bool,
}

/// A tree that is read so far.
#[derive(Debug, Drop)]
pub struct Walk {
    pub past: Past,
    pub place: Place,
}

/// What a line of a tree leads to.
#[derive(Debug, Drop)]
pub enum Turn {
    On(Walk),
    Fault(Why),
}

/// A tree over the sheet of which nothing is read. It takes no memory.
pub fn begin_tree(alloc: Global, sheet: Sheet, may_open: bool) -> Walk
    ensures parts { parts_left result ≡ node sheet ∷ [] }
    ensures walk { (t : TaskShape) → IsFormed t sheet → IsWalk t result }
    ensures few { (k : ℕ) → length sheet.tokens ≤ k + 2 → AreFew k result }
    ensures place { result.place ≡ Place.Node sheet }
    ensures past { (result.past.frames.items ≡ []) × (result.past.may_open ≡ may_open) × (result.past.done ≡ 0) × (result.past.left ≡ false) }
{
    Walk {
        past: Past {
            may_open,
            frames: Vec::new(alloc),
            done: 0,
            left: false,
        },
        place: Place::Node(sheet),
    }
}

/// Nothing of the tree is still to be read.
pub fn is_read(walk: &Walk) -> bool
    ensures { MatchBool result (parts_left walk.now ≡ []) (IsUnread walk.now) }
{
    match walk.place {
        Place::Node(_) => false,
        Place::Worked(_) => false,
        Place::Behind => walk.past.frames.is_empty(),
    }
}

/// The sheet after a step; `None` where the step is not legal.
fn take_step(
    task: &Task,
    tables: &Tables,
    sheet: Sheet,
    step: &Step,
) -> Result<Option<Sheet>, Memory>
    requires tables { FitsTask task.now tables.now }
    requires formed { IsFormed task.now sheet }
    ensures { IfOk result (λ r. MatchOption r (IsLegal task.now tables.now sheet step.now → ⊥) (λ s. IsLegal task.now tables.now sheet step.now × (s ≡ narrowed sheet step.now) × IsFormed task.now s)) }
{
    if !legal(task, tables, &sheet, step) {
        return Ok(None);
    }
    let mut sheet = sheet;
    narrow(&mut sheet, step)?;
    Ok(Some(sheet))
}

/// The branch on a flaw of a sheet; `None` where the sheet is dead or has no such flaw.
fn open_branch(
    alloc: Global,
    task: &Task,
    sheet: Sheet,
    flaw: &Flaw,
) -> Result<Option<Frame>, Memory>
    ensures { IfOk result (λ r. MatchOption r (IsLive sheet → IsFlaw task.now sheet flaw.now → ⊥) (λ f. IsLive sheet × IsFlaw task.now sheet flaw.now × (f ≡ record { sheet = sheet; children = children sheet flaw.now; met = 0 }))) }
{
    if is_dead(&sheet) {
        return Ok(None);
    }
    if !is_flaw(task, &sheet, flaw) {
        return Ok(None);
    }
    let children = flaw_children(alloc, task, &sheet, flaw)?;
    Ok(Some(Frame {
        sheet,
        children: List::from_vec(children),
        met: 0,
    }))
}

/// The sheet after a decision that fits.
fn decided(task: &Task, sheet: Sheet, decision: &Decision) -> Result<Sheet, Memory>
    requires fits { Fits sheet decision.now }
    requires formed { IsFormed task.now sheet }
    requires few { length sheet.tokens < 2 ^ 32 - 1 }
    ensures { IfOk result (λ s. (s ≡ applied task.now sheet decision.now) × IsFormed task.now s) }
{
    let mut sheet = sheet;
    apply(task, &mut sheet, decision)?;
    Ok(sheet)
}

/// The next child of a branch that has not been met.
fn next_child(frame: &Frame) -> Option<Decision>
    ensures { MatchOption result (still frame.now ≡ []) (λ d. (frame.now.met < 2 ^ 64 - 1) × (still frame.now ≡ d ∷ drop (frame.now.met + 1) frame.now.children)) }
{
    frame.children.as_slice().get(frame.met).copied()
}

/// The sheet of the next child of a branch that has more of them, which is put back.
fn descend(
    alloc: Global,
    task: &Task,
    frames: Vec<Frame>,
    frame: Frame,
    child: &Decision,
) -> Result<(Vec<Frame>, Sheet), Memory>
    requires fits { Fits frame.sheet child.now }
    requires formed { IsFormed task.now frame.sheet }
    requires few { length frame.sheet.tokens < 2 ^ 32 - 1 }
    requires more { frame.met < 2 ^ 64 - 1 }
    ensures { IfOk result (λ r. (r.1 ≡ applied task.now frame.sheet child.now) × IsFormed task.now r.1 × (r.0.items ≡ frames.items ++ record { sheet = frame.sheet; children = frame.children; met = frame.met + 1 } ∷ [])) }
{
    let copy = copy_sheet(alloc, &frame.sheet)?;
    let sheet = decided(task, copy, child)?;
    let Frame {
        sheet: above,
        children,
        met,
    } = frame;
    let mut frames = frames;
    frames.push(Frame {
        sheet: above,
        children,
        met: met + 1,
    })?;
    Ok((frames, sheet))
}

/// One node more is closed or branched.
fn one_done(past: Past) -> Past
    requires { past.done < 2 ^ 64 - 1 }
    ensures { result ≡ record past { done = past.done + 1 } }
{
    let mut past = past;
    past.done += 1;
    past
}

fn at_step(
    task: &Task,
    tables: &Tables,
    past: Past,
    sheet: Sheet,
    step: &Step,
) -> Result<Turn, Memory>
    requires tables { FitsTask task.now tables.now }
    requires formed { IsFormed task.now sheet }
    requires frames { All (IsFrame task.now) past.frames.items }
    ensures { IfOk result (Turns task.now tables.now (at_work past sheet) (NodeLine.Narrow step.now)) }
{
    match take_step(task, tables, sheet, step)? {
        Some(narrowed) => Ok(Turn::On(Walk {
            past,
            place: Place::Worked(narrowed),
        })),
        None => Ok(Turn::Fault(Why::Step)),
    }
}

fn at_close(task: &Task, tables: &Tables, past: Past, sheet: Sheet) -> Turn
    requires frames { All (IsFrame task.now) past.frames.items }
    requires done { past.done < 2 ^ 64 - 1 }
    ensures { Turns task.now tables.now (at_work past sheet) NodeLine.Close result }
{
    let _ = task;
    let _ = tables;
    if is_dead(&sheet) {
        Turn::On(Walk {
            past: one_done(past),
            place: Place::Behind,
        })
    } else {
        Turn::Fault(Why::Close)
    }
}

fn at_branch(
    alloc: Global,
    task: &Task,
    tables: &Tables,
    past: Past,
    sheet: Sheet,
    flaw: &Flaw,
) -> Result<Turn, Memory>
    requires formed { IsFormed task.now sheet }
    requires frames { All (IsFrame task.now) past.frames.items }
    requires done { past.done < 2 ^ 64 - 1 }
    ensures { IfOk result (Turns task.now tables.now (at_work past sheet) (NodeLine.Branch flaw.now)) }
{
    let _ = tables;
    match open_branch(alloc, task, sheet, flaw)? {
        Some(frame) => {
            let mut past = one_done(past);
            past.frames.push(frame)?;
            Ok(Turn::On(Walk {
                past,
                place: Place::Behind,
            }))
        }
        None => Ok(Turn::Fault(Why::Branch)),
    }
}

/// A line behind step lines of a node.
fn at_worked(
    alloc: Global,
    task: &Task,
    tables: &Tables,
    past: Past,
    sheet: Sheet,
    line: &NodeLine,
) -> Result<Turn, Memory>
    requires tables { FitsTask task.now tables.now }
    requires formed { IsFormed task.now sheet }
    requires frames { All (IsFrame task.now) past.frames.items }
    requires done { past.done < 2 ^ 64 - 1 }
    ensures { IfOk result (Turns task.now tables.now (at_work past sheet) line.now) }
{
    match line {
        NodeLine::Narrow(step) => at_step(task, tables, past, sheet, step),
        NodeLine::Close => Ok(at_close(task, tables, past, sheet)),
        NodeLine::Branch(flaw) => at_branch(alloc, task, tables, past, sheet, flaw),
        NodeLine::Child(_) => Ok(Turn::Fault(Why::Grammar)),
        NodeLine::OpenNode => Ok(Turn::Fault(Why::Grammar)),
    }
}

/// The node over the next child of a branch. The branch is put back where it has more children.
fn step_down(
    alloc: Global,
    task: &Task,
    tables: &Tables,
    past: Past,
    frame: Frame,
    child: &Decision,
) -> Result<Walk, Memory>
    requires frames { All (IsFrame task.now) past.frames.items }
    requires frame { IsFrame task.now frame }
    requires few { IsFewIn 4294967292 frame }
    requires more { frame.met < 2 ^ 64 - 1 }
    requires next { still frame ≡ child.now ∷ drop (frame.met + 1) frame.children }
    requires fits { Fits frame.sheet child.now }
    ensures { IfOk result (GoesDown task.now tables.now past frame child.now) }
{
    let _ = tables;
    if frame.met + 1 < frame.children.as_slice().len() {
        let Past {
            may_open,
            frames,
            done,
            left,
        } = past;
        let (frames, sheet) = descend(alloc, task, frames, frame, child)?;
        Ok(Walk {
            past: Past {
                may_open,
                frames,
                done,
                left,
            },
            place: Place::Node(sheet),
        })
    } else {
        let sheet = decided(task, frame.sheet, child)?;
        Ok(Walk {
            past,
            place: Place::Node(sheet),
        })
    }
}

fn is_same(one: &Decision, other: &Decision) -> bool
    ensures { MatchBool result (one.now ≡ other.now) (one.now ≢ other.now) }
{
    one == other
}

/// A child line behind a node.
fn at_child(
    alloc: Global,
    task: &Task,
    tables: &Tables,
    past: Past,
    child: &Decision,
) -> Result<Turn, Memory>
    requires frames { All (IsFrame task.now) past.frames.items }
    requires few { All (IsFewIn 4294967292) past.frames.items }
    requires some { past.frames.items ≢ [] }
    ensures { IfOk result (Turns task.now tables.now (at_end past) (NodeLine.Child child.now)) }
{
    let mut past = past;
    let Some(frame) = past.frames.pop() else {
        return Ok(Turn::Fault(Why::Grammar));
    };
    let Some(next) = next_child(&frame) else {
        return Ok(Turn::Fault(Why::Grammar));
    };
    if !is_same(&next, child) {
        return Ok(Turn::Fault(Why::Child));
    }
    let walk = step_down(alloc, task, tables, past, frame, child)?;
    Ok(Turn::On(walk))
}

/// A line behind a node, where children are left.
fn at_behind(
    alloc: Global,
    task: &Task,
    tables: &Tables,
    past: Past,
    line: &NodeLine,
) -> Result<Turn, Memory>
    requires frames { All (IsFrame task.now) past.frames.items }
    requires few { All (IsFewIn 4294967292) past.frames.items }
    requires some { past.frames.items ≢ [] }
    ensures { IfOk result (Turns task.now tables.now (at_end past) line.now) }
{
    match line {
        NodeLine::Child(child) => at_child(alloc, task, tables, past, child),
        _ => Ok(Turn::Fault(Why::Grammar)),
    }
}

/// Whether the line leaves a node open, where that may be.
fn is_left_open(may_open: bool, line: &NodeLine) -> bool
    ensures { result ≡ begins_left may_open (cert.Node line.now ∷ []) }
{
    match line {
        NodeLine::OpenNode => may_open,
        _ => false,
    }
}

/// A line before a node.
fn at_start(
    alloc: Global,
    task: &Task,
    tables: &Tables,
    past: Past,
    sheet: Sheet,
    line: &NodeLine,
) -> Result<Turn, Memory>
    requires tables { FitsTask task.now tables.now }
    requires formed { IsFormed task.now sheet }
    requires frames { All (IsFrame task.now) past.frames.items }
    requires done { past.done < 2 ^ 64 - 1 }
    ensures { IfOk result (Turns task.now tables.now (at_node past sheet) line.now) }
{
    if is_left_open(past.may_open, line) {
        let mut past = past;
        past.left = true;
        Ok(Turn::On(Walk {
            past,
            place: Place::Behind,
        }))
    } else {
        at_worked(alloc, task, tables, past, sheet, line)
    }
}

/// What a line of a tree leads to, where something of the tree is still to be read.
pub fn take_node(
    alloc: Global,
    task: &Task,
    tables: &Tables,
    walk: Walk,
    line: &NodeLine,
) -> Result<Turn, Memory>
    requires tables { FitsTask task.now tables.now }
    requires walk { IsWalk task.now walk }
    requires few { AreFew 4294967292 walk }
    requires unread { IsUnread walk }
    requires done { walk.past.done < 2 ^ 64 - 1 }
    ensures { IfOk result (Turns task.now tables.now walk line.now) }
{
    let Walk { past, place } = walk;
    match place {
        Place::Node(sheet) => at_start(alloc, task, tables, past, sheet, line),
        Place::Worked(sheet) => at_worked(alloc, task, tables, past, sheet, line),
        Place::Behind => at_behind(alloc, task, tables, past, line),
    }
}
