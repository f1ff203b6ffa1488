//! Why a JSON text is no task and no plan.

ghost use Rattle.std.specs.Prelude.{◌≡◌};
ghost use Rattle.cpt_json_form.specs.declared.errors.JsonTaskError.TheVariants as task_errors;
ghost use Rattle.cpt_json_form.specs.declared.errors.JsonPlanError.TheVariants as plan_errors;
ghost use Rattle.cpt_json_form.specs.declared.errors.Misread.TheVariants as misreads;
ghost use Rattle.cpt_json_form.specs.Reading.{misread_plan, misread_task};

use cpt_task::{Limit, Memory};
use std::alloc::{AllocError, AllocFailed};

/// Why a JSON text is no task: the first of these causes that stands, in this order. `Memory` may come at any place.
#[derive(Clone, Copy, Debug, PartialEq, Eq)]
pub enum JsonTaskError {
    /// The text is no JSON.
    Syntax,
    /// The value has not the form of a task.
    Shape,
    /// A limit was passed: `Atoms`, `Actions` or `LongList`, in this order.
    Limit(Limit),
    /// A name of an atom or of an action is no name, or is repeated.
    BadName,
    /// A list of numbers is not strictly increasing, or has a number that is no atom.
    Atom,
    /// An action does not last from 1 to 100,000.
    Duration,
    /// Memory ran out.
    Memory,
}

/// Why a JSON text is no plan of a task: the first of these causes that stands, in this order. Places count from 0. `Memory` may
/// come at any place.
#[derive(Clone, Copy, Debug, PartialEq, Eq)]
pub enum JsonPlanError {
    /// The text is no JSON.
    Syntax,
    /// The value has not the form of a plan.
    Shape,
    /// The name at this place, and at none before it, is that of no action.
    Unknown(u32),
    /// A limit was passed: `Start`.
    Limit(Limit),
    /// At this place, and at none before it, stands another duration than this one, which is the action's.
    Duration(u32, u32),
    /// Memory ran out.
    Memory,
}

/// Why a JSON value is not read in a form.
#[derive(Clone, Copy)]
pub enum Misread {
    /// It has not the form.
    Shape,
    /// Memory ran out.
    Memory,
}

impl From<Misread> for JsonTaskError {
    ghost from_gives = { λ m e. e ≡ misread_task m };

    fn from(misread: Misread) -> Self {
        match misread {
            Misread::Shape => JsonTaskError::Shape,
            Misread::Memory => JsonTaskError::Memory,
        }
    }
}

impl From<Misread> for JsonPlanError {
    ghost from_gives = { λ m e. e ≡ misread_plan m };

    fn from(misread: Misread) -> Self {
        match misread {
            Misread::Shape => JsonPlanError::Shape,
            Misread::Memory => JsonPlanError::Memory,
        }
    }
}

impl From<AllocError> for Misread {
    ghost from_gives = { λ _ e. e ≡ misreads.Memory };

    fn from(_: AllocError) -> Self {
        Misread::Memory
    }
}

impl<T: Drop> From<AllocFailed<T>> for Misread {
    ghost from_gives = { λ _ e. e ≡ misreads.Memory };

    fn from(_: AllocFailed<T>) -> Self {
        Misread::Memory
    }
}

impl From<Memory> for JsonTaskError {
    ghost from_gives = { λ _ e. e ≡ task_errors.Memory };

    fn from(_: Memory) -> Self {
        JsonTaskError::Memory
    }
}

impl From<Memory> for JsonPlanError {
    ghost from_gives = { λ _ e. e ≡ plan_errors.Memory };

    fn from(_: Memory) -> Self {
        JsonPlanError::Memory
    }
}
