//! Want of memory, and the names of the limits.

ghost use Rattle.std.specs.Prelude.{◌≡◌};

use std::alloc::{AllocError, AllocFailed};

/// Want of memory, and nothing else.
#[derive(Clone, Copy, Debug, PartialEq, Eq)]
pub struct Memory;

impl From<AllocError> for Memory {
    fn from(_: AllocError) -> Self {
        Memory
    }
}

impl<T: Drop> From<AllocFailed<T>> for Memory {
    fn from(_: AllocFailed<T>) -> Self {
        Memory
    }
}

/// Which limit was passed.
#[derive(Clone, Copy, Debug, PartialEq, Eq)]
pub enum Limit {
    /// The bytes of a file.
    File,
    /// The bytes of a certificate.
    Certificate,
    /// The depth of parentheses.
    Nesting,
    /// The constants and objects of a problem.
    Objects,
    /// The parameters of a schema, predicate or function.
    Parameters,
    /// The items of a list of an action.
    LongList,
    /// The type-correct parameter lists.
    Instances,
    /// The atoms of a task.
    Atoms,
    /// The actions of a task.
    Actions,
    /// The start of an occurrence in a plan text.
    Start,
}
