//! What is said of a text at its first fault or at its end.

ghost use Rattle.std.specs.Prelude.{◌≡◌, ◌≤◌, ◌^◌, ℕ, List, [], length, Some};
ghost use Rattle.cpt_task.specs.Shape.{TaskShape};
ghost use Rattle.cpt_check.specs.Judging.{RulesOf, LeavesOf, RulingHolds};
ghost use Rattle.cpt_check.specs.Progress.{IsRead, Concludes};

use crate::judged::{Judged, Ruling};
use crate::past::{Fault, Past};
use cpt_cert_accept::Why;
use cpt_cert_read::{Claim, Lines, Version};
use cpt_sections::{claimed, version_of};
use cpt_task::Task;

/// The version and the claim of a text that is read to its end; `None` where it ends too early.
fn end_of(past: &Past, lines: &Lines) -> Option<(Version, Claim)>
    ensures { (t : TaskShape) (text : List ℕ) → IsRead t text past.now lines.now → Concludes t text past.now.count result }
{
    let claimed = claimed(&past.stage);
    if lines.unfinished() { None } else { claimed }
}

/// What is said of a text that is read to its end.
pub fn conclude(task: &Task, past: &Past, lines: &Lines) -> Judged
    requires { past.now.count ≤ 2 ^ 36 }
    ensures rules { (most : ℕ) (text : List ℕ) → IsRead task.now text past.now lines.now → length text ≤ most → most ≤ 2 ^ 36 → RulesOf task.now most text result.version result.ruling }
    ensures leaves { (text : List ℕ) → IsRead task.now text past.now lines.now → LeavesOf task.now text (Some []) result.ruling }
    ensures holds { (text : List ℕ) → IsRead task.now text past.now lines.now → length text ≤ 2 ^ 36 → RulingHolds task.now text result.version result.ruling }
{
    let _actions = task.actions();
    match end_of(past, lines) {
        Some((version, claim)) => Judged {
            version: Some(version),
            ruling: Ruling::Accepted(claim),
        },
        None => Judged {
            version: version_of(&past.stage),
            ruling: Ruling::Rejected {
                line: past.count + 1,
                why: Why::Grammar,
            },
        },
    }
}

/// What is said of a text at its first fault.
pub fn rejected(fault: Fault) -> Judged
    ensures version { result.version ≡ fault.version }
    ensures ruling { result.ruling ≡ Ruling.Rejected fault.line fault.why }
{
    Judged {
        version: fault.version,
        ruling: Ruling::Rejected {
            line: fault.line,
            why: fault.why,
        },
    }
}
