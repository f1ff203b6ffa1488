//! Why a problem is not grounded.

use cpt_task::{Limit, Memory};

/// Why there is no ground task.
#[derive(Clone, Copy, Debug, PartialEq, Eq)]
pub enum GroundError {
    /// The type-correct lists of objects, summed over the schemas, are more than 1,000,000.
    Limit(Limit),
    /// Memory is wanting.
    Memory,
}

impl From<Memory> for GroundError {
    ghost use Rattle.std.specs.Prelude.{◌≡◌};
    ghost use Rattle.cpt_instance.specs.declared.error.GroundError.{GroundError};

    ghost from_gives = { λ _ e. e ≡ GroundError.Memory };

    fn from(_: Memory) -> Self {
        GroundError::Memory
    }
}
