//! How a step changes a sheet.

ghost use Rattle.std.specs.Prelude.{◌≡◌, OnOk, OnErr};
ghost use Rattle.cpt_sheet.specs.Edits.{changed};
ghost use Rattle.cpt_calculus.specs.Closing.{StaysFormed};
ghost use Rattle.cpt_calculus.specs.Rules.{narrowed};

use crate::rules::change_of;
use cpt_edits::make;
use cpt_sheet::{Sheet, Step};
use cpt_task::Memory;

/// Makes the change of a step. Only an order may take memory; after `Memory` the sheet is unchanged.
pub fn narrow(sheet: &mut Sheet, step: &Step) -> Result<(), Memory>
    ensures ok { OnOk result (sheet.new ≡ narrowed sheet.old step.now) }
    ensures formed { OnOk result (StaysFormed sheet.old step.now sheet.new) }
    ensures err { OnErr result (sheet.new ≡ sheet.old) }
{
    let change = change_of(sheet, *step);
    make(sheet, change)
}
