//! The lines of a text, one after another.

ghost use Rattle.std.specs.Prelude.{◌≡◌, ◌+◌, ◌<◌, ◌≤◌, ◌^◌, ℕ, List, [], length, Option, IfOk};
ghost use Rattle.cpt_task.specs.Shape.{TaskShape};
ghost use Rattle.cpt_cert_form.specs.declared.forms.Version.{Version};
ghost use Rattle.cpt_cert_form.specs.declared.forms.Claim.{Claim};
ghost use Rattle.cpt_cert_form.specs.declared.forms.CertLine.{CertLine};
ghost use Rattle.cpt_sections.specs.Sections.{IsLine};
ghost use Rattle.cpt_sections.specs.Stages.{IsStage, HasFewAt, Ends};
ghost use Rattle.cpt_check.specs.Progress.{IsPast, Leads};

use cpt_cert_accept::Why;
use cpt_cert_read::{CertLine, Version};
use cpt_sections::{Stage, Turned, begin, claimed, take_line, version_of};
use cpt_task::{Memory, Task};
use std::alloc::Global;

/// Lines that are read, and in which no fault stands.
#[derive(Debug, Drop)]
pub struct Past {
    /// What is still to be read behind them.
    pub stage: Stage,
    /// How many they are.
    pub count: u64,
}

/// The first fault of a text.
#[derive(Clone, Copy, Debug, PartialEq, Eq)]
pub struct Fault {
    /// The version that the first line names; `None` where it names none.
    pub version: Option<Version>,
    /// The line, from 1 on.
    pub line: u64,
    pub why: Why,
}

/// What more of a text leads to.
#[derive(Debug, Drop)]
pub enum Found {
    On(Past),
    Fault(Fault),
}

/// Nothing is read.
pub fn start() -> Past
    ensures { (t : TaskShape) → IsPast t [] result }
{
    Past {
        stage: begin(),
        count: 0,
    }
}

/// Reads one line more.
pub fn judge_line(alloc: Global, task: &Task, past: Past, line: &CertLine) -> Result<Found, Memory>
    requires stage { IsStage task.now (past.count + 1) past.stage }
    requires line { IsLine line.now }
    requires few { past.count ≤ 2 ^ 36 }
    requires tokens { HasFewAt 4294967292 past.stage }
    requires atoms { length task.now.atoms ≤ 2048 }
    requires actions { length task.now.actions ≤ 4096 }
    ensures { IfOk result (λ f. (read : List CertLine) → IsPast task.now read past → Leads task.now read line.now f) }
{
    let count = past.count + 1;
    let version = version_of(&past.stage);
    match take_line(alloc, task, past.stage, count, line)? {
        Turned::On(stage) => {
            let _claimed = claimed(&stage);
            Ok(Found::On(Past { stage, count }))
        }
        Turned::Fault { line, why } => Ok(Found::Fault(Fault { version, line, why })),
    }
}
