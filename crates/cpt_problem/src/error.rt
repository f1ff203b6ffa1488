//! Why a text is no problem of a domain.

use cpt_pddl::Feature;
use cpt_task::Limit;

/// The first fault of a problem text, with its byte.
#[derive(Clone, Copy, Debug, PartialEq, Eq)]
pub enum ProblemError {
    /// The item here is not in the grammar.
    Shape(u32),
    /// The name here is not declared, or is a variable.
    BadName(u32),
    /// The object here is declared a second time, or the item here gives a second value.
    Twice(u32),
    /// The object here has a wrong type.
    BadType(u32),
    /// The atom here has a wrong number of objects.
    Arity(u32),
    /// The form here is not taken.
    Feature(Feature, u32),
    /// The number here is no value of its function.
    Duration(u32),
    /// At the word here a limit is passed.
    Limit(Limit, u32),
    /// The word here is not the name of the domain.
    OtherDomain(u32),
    /// Memory ran out.
    Memory,
}
