//! Why a text is no task.

ghost use Rattle.std.specs.Prelude.{◌≡◌};
ghost use Rattle.cpt_task_text.specs.declared.error.TaskTextError.TheVariants.{Memory};

use cpt_task::Limit;
use std::alloc::{AllocError, AllocFailed};

/// Why a text is no task: the first fault from the first line on. Lines count from 1.
#[derive(Clone, Copy, Debug, PartialEq, Eq)]
pub enum TaskTextError {
    /// This line is not in the grammar, or it is missing.
    Line(u32),
    /// A limit was passed: `Atoms`, `Actions` or `LongList`.
    Limit(Limit),
    /// Memory ran out.
    Memory,
}

impl From<AllocError> for TaskTextError {
    ghost from_gives = { λ _ e. e ≡ Memory };

    fn from(_: AllocError) -> Self {
        TaskTextError::Memory
    }
}

impl<T: Drop> From<AllocFailed<T>> for TaskTextError {
    ghost from_gives = { λ _ e. e ≡ Memory };

    fn from(_: AllocFailed<T>) -> Self {
        TaskTextError::Memory
    }
}
