//! How an error of a call below becomes the error of checking.

ghost use Rattle.std.specs.Prelude.{◌≡◌};
ghost use Rattle.cpt_check.specs.declared.judged.CheckError.{CheckError};

use crate::judged::CheckError;
use cpt_io::Failed;
use cpt_task::Memory;

impl From<Failed> for CheckError {
    ghost from_gives = { λ _ e. e ≡ CheckError.Failed };

    fn from(_: Failed) -> Self {
        CheckError::Failed
    }
}

impl From<Memory> for CheckError {
    ghost from_gives = { λ _ e. e ≡ CheckError.Memory };

    fn from(_: Memory) -> Self {
        CheckError::Memory
    }
}
