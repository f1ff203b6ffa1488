//! How an error of a call below becomes the error of reading or of printing.

ghost use Rattle.std.specs.Prelude.{◌≡◌};
ghost use Rattle.cpt_io.specs.declared.library.ReadError.{ReadError};
ghost use Rattle.cpt_io.specs.declared.library.PrintError.{PrintError};

use crate::library::{Failed, PrintError, ReadError};
use cpt_task::Memory;
use std::alloc::{AllocError, AllocFailed};

impl From<Failed> for ReadError {
    ghost from_gives = { λ _ e. e ≡ ReadError.Failed };

    fn from(_: Failed) -> Self {
        ReadError::Failed
    }
}

impl From<Memory> for ReadError {
    ghost from_gives = { λ _ e. e ≡ ReadError.Memory };

    fn from(_: Memory) -> Self {
        ReadError::Memory
    }
}

impl From<AllocError> for ReadError {
    ghost from_gives = { λ _ e. e ≡ ReadError.Memory };

    fn from(_: AllocError) -> Self {
        ReadError::Memory
    }
}

impl<T: Drop> From<AllocFailed<T>> for ReadError {
    ghost from_gives = { λ _ e. e ≡ ReadError.Memory };

    fn from(_: AllocFailed<T>) -> Self {
        ReadError::Memory
    }
}

impl From<Failed> for PrintError {
    ghost from_gives = { λ _ e. e ≡ PrintError.Failed };

    fn from(_: Failed) -> Self {
        PrintError::Failed
    }
}

impl From<Memory> for PrintError {
    ghost from_gives = { λ _ e. e ≡ PrintError.Memory };

    fn from(_: Memory) -> Self {
        PrintError::Memory
    }
}

impl From<AllocError> for PrintError {
    ghost from_gives = { λ _ e. e ≡ PrintError.Memory };

    fn from(_: AllocError) -> Self {
        PrintError::Memory
    }
}

impl<T: Drop> From<AllocFailed<T>> for PrintError {
    ghost from_gives = { λ _ e. e ≡ PrintError.Memory };

    fn from(_: AllocFailed<T>) -> Self {
        PrintError::Memory
    }
}
