//! Which decisions fit a sheet.

ghost use Rattle.std.specs.Prelude.{◌≡◌, ◌↔◌, IsTrue, MatchBool};
ghost use Rattle.cpt_sheet.specs.Formed.{IsPlaced};
ghost use Rattle.cpt_calculus.specs.Decisions.{Fits};

use cpt_sheet::{Cand, Decision, Sheet, is_listed, list};
use cpt_task::Task;

fn is_placed(sheet: &Sheet, x: u32, y: u32) -> bool
    ensures { MatchBool result (IsPlaced sheet.now x y) (IsPlaced sheet.now x y → ⊥) }
{
    let count = sheet.tokens.as_slice().len();
    (x as usize) < count && (y as usize) < count && x != y && !(x == 1 && y == 0)
}

/// Whether the candidate stands in the named list, or the two are different tokens and not the end before the start.
pub fn fits(task: &Task, sheet: &Sheet, decision: &Decision) -> bool
    ensures { IsTrue result ↔ Fits sheet.now decision.now }
{
    let _ = task;
    match *decision {
        Decision::Join { tok, pre, by } => is_listed(list(sheet, tok, pre), Cand::Tok(by)),
        Decision::Bring { tok, pre, act } => is_listed(list(sheet, tok, pre), Cand::Out(act)),
        Decision::Before { first, second } => is_placed(sheet, first, second),
    }
}
