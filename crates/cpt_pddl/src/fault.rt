//! Why a text is no domain or no problem.

use cpt_task::{Limit, Memory};
use std::alloc::{AllocError, AllocFailed};

/// A form that is read, and not taken.
#[derive(Clone, Copy, Debug, PartialEq, Eq)]
pub enum Feature {
    /// `either` in the place of a type.
    Either,
    /// A section of this kind is not taken.
    Section,
    /// `when`.
    Conditional,
    /// `forall` and `exists`.
    Quantifier,
    /// `or` and `imply`.
    Disjunction,
    /// `preference`.
    Preference,
    /// `not` on something other than an atom or an equation, or in an initial state.
    Negative,
    /// Comparisons and changes of numbers.
    Numeric,
    /// A timed initial atom.
    Timed,
    /// An equation in a goal.
    GoalEquality,
    /// A duration that is neither a number nor the value of a function.
    Duration,
    /// A metric other than the total time.
    Metric,
}

/// The first fault of a domain or problem text, with its byte.
#[derive(Clone, Copy)]
pub enum Fault {
    /// The item here is not in the grammar.
    Shape(u32),
    /// The name here is not declared.
    BadName(u32),
    /// What begins here is declared or given a second time.
    Twice(u32),
    /// The term here has a wrong type, or the types of the section here have a cycle.
    BadType(u32),
    /// The atom here has a wrong number of terms.
    Arity(u32),
    /// The form here is not taken.
    Feature(Feature, u32),
    /// The tagged effect here deletes at the end what another one adds at the start, or the other way round.
    Window(u32),
    /// The number here is no duration.
    Duration(u32),
    /// At the word here a limit is passed.
    Limit(Limit, u32),
    /// The word here is not the name of the domain.
    OtherDomain(u32),
    /// Memory ran out.
    Memory,
}

impl From<AllocError> for Fault {
    ghost use Rattle.cpt_pddl.specs.declared.fault.Fault.TheVariants.{Memory};
    ghost use Rattle.std.specs.Prelude.{◌≡◌};

    ghost from_gives = { λ _ e. e ≡ Memory };

    fn from(_: AllocError) -> Self {
        Fault::Memory
    }
}

impl<T: Drop> From<AllocFailed<T>> for Fault {
    ghost use Rattle.cpt_pddl.specs.declared.fault.Fault.TheVariants.{Memory};
    ghost use Rattle.std.specs.Prelude.{◌≡◌};

    ghost from_gives = { λ _ e. e ≡ Memory };

    fn from(_: AllocFailed<T>) -> Self {
        Fault::Memory
    }
}

impl From<Memory> for Fault {
    ghost use Rattle.cpt_pddl.specs.declared.fault.Fault.TheVariants as faults;
    ghost use Rattle.std.specs.Prelude.{◌≡◌};

    ghost from_gives = { λ _ e. e ≡ faults.Memory };

    fn from(_: Memory) -> Self {
        Fault::Memory
    }
}
