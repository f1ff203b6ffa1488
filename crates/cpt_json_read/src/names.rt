//! Names of atoms and actions.

ghost use Rattle.std.specs.Prelude.{◌≡◌, MatchBool, IfOk, map};
ghost use Rattle.cpt_line.specs.Names.{AreNames};

use crate::forms::ActionForm;
use cpt_line::is_spelled_name;
use cpt_task::{Memory, Name};
use std::alloc::Global;
use std::collections::BTreeSet;

/// What has a name.
pub trait Named {
    ghost use Rattle.std.specs.Prelude.{List, ℕ};

    ghost named: { Self → List ℕ };

    fn name(&self) -> &[u8]
        ensures { result.now ≡ named self.now };
}

impl Named for Name {
    ghost named = { λ name. name };

    fn name(&self) -> &[u8] {
        self.as_slice()
    }
}

impl Named for ActionForm {
    ghost named = { λ a. a.name };

    fn name(&self) -> &[u8] {
        self.name.as_slice()
    }
}

/// Whether each has a legal name, and no two of them the same.
pub fn are_named<N: Named>(alloc: Global, items: &[N]) -> Result<bool, Memory>
    ensures { IfOk result (λ all. MatchBool all (AreNames (map N.named items.now)) (AreNames (map N.named items.now) → ⊥)) }
{
    let mut seen = BTreeSet::new(alloc);
    for item in items {
        let name = item.name();
        if !is_spelled_name(name) {
            return Ok(false);
        }
        if !seen.insert(name)? {
            return Ok(false);
        }
    }
    Ok(true)
}
