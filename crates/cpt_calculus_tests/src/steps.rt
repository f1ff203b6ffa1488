//! Steps, written short, and whether they are legal at the sheets of a scene.

ghost use Rattle.std.specs.Prelude.{IfSome};
ghost use Rattle.cpt_sheet.specs.Formed.{IsFormed};
ghost use Rattle.cpt_sheet.specs.Gaps.{FitsTask};

use crate::edits::{Edit, edit_all};
use crate::scene::{Scene, root_of, tables_of, task_of};
use cpt_calculus::{Cand, Sheet, Step, legal, narrow};
use cpt_tables::Tables;
use cpt_task::{Span, Task};
use std::alloc::Global;
use std::process::Abort;
use std::test::Fail;

/// A step, with its numbers in the order of a certificate's line.
#[derive(Clone, Copy)]
pub enum Line {
    R1(u32, u32, Span),
    R2(u32, u32, Span),
    R3(u32, u32),
    R4(u32, u32, Span),
    R5(u32, u32, Cand),
    R6(u32, u32),
    R7(u32, u32, u32),
    R8(u32, u32, Cand, u32),
    R9After(u32, u32, u32),
    R9Ahead(u32, u32, u32),
    R10(u32, u32, Span),
    R11After(u32, u32, u32, Span),
    R11Ahead(u32, u32, u32, Span),
    R12After(u32, u32, Span),
    R12Ahead(u32, u32, Span),
    R13(u32, u32, Cand, u32),
}

/// The step of a line.
pub fn step_of(line: Line) -> Step {
    match line {
        Line::R1(first, second, to) => Step::R1 { first, second, to },
        Line::R2(first, second, to) => Step::R2 { first, second, to },
        Line::R3(first, second) => Step::R3 { first, second },
        Line::R4(tok, pre, to) => Step::R4 { tok, pre, to },
        Line::R5(tok, pre, cand) => Step::R5 { tok, pre, cand },
        Line::R6(tok, pre) => Step::R6 { tok, pre },
        Line::R7(tok, pre, act) => Step::R7 { tok, pre, act },
        Line::R8(tok, pre, cand, foe) => Step::R8 {
            tok,
            pre,
            cand,
            foe,
        },
        Line::R9After(tok, pre, foe) => Step::R9After { tok, pre, foe },
        Line::R9Ahead(tok, pre, foe) => Step::R9Ahead { tok, pre, foe },
        Line::R10(act, pre, to) => Step::R10 { act, pre, to },
        Line::R11After(tok, pre, act, to) => Step::R11After { tok, pre, act, to },
        Line::R11Ahead(tok, pre, act, to) => Step::R11Ahead { tok, pre, act, to },
        Line::R12After(tok, act, to) => Step::R12After { tok, act, to },
        Line::R12Ahead(tok, act, to) => Step::R12Ahead { tok, act, to },
        Line::R13(tok, pre, cand, other) => Step::R13 {
            tok,
            pre,
            cand,
            other,
        },
    }
}

/// Edits of a scene's sheet, a step, and whether it is legal there.
pub type Row = (&'static [Edit], Line, bool);

/// Makes the start impossible, so that the sheet is dead.
const DEAD: &[Edit] = &[Edit::Lo(Cand::Tok(0), Span::Never)];

/// Takes the step; None where it is not legal or memory is refused.
pub fn take_step(task: &Task, tables: &Tables, sheet: &mut Sheet, step: &Step) -> Option<()>
    requires tables { FitsTask task.now tables.now }
    requires formed { IsFormed task.now sheet.old }
    ensures { IfSome result (λ u. IsFormed task.now sheet.new) }
{
    if !legal(task, tables, sheet, step) {
        return None;
    }
    match narrow(sheet, step) {
        Ok(()) => Some(()),
        Err(_) => None,
    }
}

/// Whether the step is legal, and where it is, whether it is so again after it was taken.
fn legal_twice(task: &Task, tables: &Tables, sheet: &mut Sheet, step: &Step) -> Option<(bool, bool)>
    requires tables { FitsTask task.now tables.now }
    requires formed { IsFormed task.now sheet.old }
{
    if !legal(task, tables, sheet, step) {
        return Some((false, false));
    }
    take_step(task, tables, sheet, step)?;
    Some((true, legal(task, tables, sheet, step)))
}

/// Whether the step is legal after the edits, over the task and the tables of the scene.
fn judge_over(
    alloc: Global,
    scene: &Scene,
    task: &Task,
    tables: &Tables,
    edits: [&[Edit]; 2],
    step: &Step,
) -> Option<(bool, bool)>
    requires { FitsTask task.now tables.now }
{
    let mut sheet = root_of(alloc, task, tables, scene.bound)?;
    edit_all(task, &mut sheet, scene.edits)?;
    edit_all(task, &mut sheet, edits[0])?;
    edit_all(task, &mut sheet, edits[1])?;
    legal_twice(task, tables, &mut sheet, step)
}

fn judge(alloc: Global, scene: &Scene, edits: [&[Edit]; 2], step: &Step) -> Option<(bool, bool)> {
    let task = task_of(alloc, scene)?;
    let tables = tables_of(alloc, scene, &task)?;
    judge_over(alloc, scene, &task, &tables, edits, step)
}

/// Compares each row with what is answered. A step that was taken changes nothing more, and none is legal at a
/// dead sheet.
pub fn expect_steps(
    rt: &impl Abort,
    alloc: Global,
    scene: &Scene,
    rows: &[Row],
) -> Result<(), Fail> {
    for row in rows {
        let step = step_of(row.1);
        let found = judge(alloc, scene, [row.0, &[]], &step);
        assert_eq!(rt; found, Some((row.2, false)), "{step:?} after {:?}", row.0);
        let dead = judge(alloc, scene, [row.0, DEAD], &step);
        assert_eq!(rt; dead, Some((false, false)), "{step:?} when dead");
    }
    Ok(())
}
