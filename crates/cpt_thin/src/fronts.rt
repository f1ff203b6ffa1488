//! The lines that are not dropped, read one after another.

ghost use Rattle.std.specs.Prelude.{◌≡◌, ◌≤◌, ◌<◌, ◌+◌, List, [], ◌∷◌, ◌++◌, length, map, IfOk};
ghost use Rattle.std.specs.List.{AllZip};
ghost use Rattle.cpt_task.specs.Shape.{TaskShape};
ghost use Rattle.cpt_cert_form.specs.declared.forms.CertLine.{CertLine};
ghost use Rattle.cpt_cert_form.specs.Forms.{IsReadAs};
ghost use Rattle.cpt_sections.specs.Sections.{IsLine};
ghost use Rattle.cpt_thin.specs.Fronts.{IsFrontOf, MayBeFrontOf};
ghost use Rattle.cpt_thin.specs.Dooms.{line_left};

use crate::fates::{Fate, is_dropped};
use cpt_cert_read::{CertLine, read_line};
use cpt_sections::{Stage, Turned, begin, take_line};
use cpt_task::{Memory, Task};
use std::alloc::Global;

/// The lines of a text up to some place, as far as they are read.
#[derive(Drop)]
pub struct Front {
    /// What is still to be read behind them.
    pub stage: Stage,
    /// How many they are.
    pub count: u64,
}

/// What the lines are read as.
pub fn read_lines(alloc: Global, bodies: &[&[u8]]) -> Result<Vec<CertLine>, Memory>
    ensures { IfOk result (λ lines. AllZip IsReadAs (map (λ b. b.now) bodies.now) lines.items) }
{
    let mut lines = Vec::new(alloc);
    for body in bodies {
        let line = read_line(alloc, body)?;
        lines.push(line)?;
    }
    Ok(lines)
}

/// Nothing is read.
pub fn begin_front() -> Front
    ensures { (t : TaskShape) → IsFrontOf t [] result }
{
    Front {
        stage: begin(),
        count: 0,
    }
}

/// Reads one line more. `None` where it is at fault.
fn read_on(
    alloc: Global,
    task: &Task,
    front: Front,
    line: &CertLine,
) -> Result<Option<Front>, Memory>
    requires front { (read : List CertLine) × IsFrontOf task.now read front }
    requires few { front.count < 16777216 }
    requires line { IsLine line.now }
    requires atoms { length task.now.atoms ≤ 2048 }
    requires actions { length task.now.actions ≤ 4096 }
    ensures { IfOk result (λ next. (read : List CertLine) → IsFrontOf task.now read front → MayBeFrontOf task.now (read ++ line.now ∷ []) next) }
{
    let count = front.count + 1;
    match take_line(alloc, task, front.stage, count, line)? {
        Turned::On(stage) => Ok(Some(Front { stage, count })),
        Turned::Fault { .. } => Ok(None),
    }
}

/// Reads the line too, where it is not dropped. `None` where it is not known what is still to be read.
pub fn pass_line(
    alloc: Global,
    task: &Task,
    front: Option<Front>,
    fate: Fate,
    line: &CertLine,
) -> Result<Option<Front>, Memory>
    requires front { (read : List CertLine) × (length read < 16777216) × MayBeFrontOf task.now read front }
    requires line { IsLine line.now }
    requires atoms { length task.now.atoms ≤ 2048 }
    requires actions { length task.now.actions ≤ 4096 }
    ensures { IfOk result (λ next. (read : List CertLine) → MayBeFrontOf task.now read front → MayBeFrontOf task.now (read ++ line_left fate line.now) next) }
{
    if is_dropped(fate) {
        return Ok(front);
    }
    match front {
        Some(front) => read_on(alloc, task, front, line),
        None => Ok(None),
    }
}
