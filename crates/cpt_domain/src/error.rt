//! Why a text is no domain.

use cpt_pddl::Feature;
use cpt_task::Limit;

/// The first fault of a domain text, with its byte.
#[derive(Clone, Copy, Debug, PartialEq, Eq)]
pub enum DomainError {
    /// The item here is not in the grammar.
    Shape(u32),
    /// The name here is not declared, or may not be declared.
    BadName(u32),
    /// What begins here is declared a second time.
    Twice(u32),
    /// The term here has a wrong type, or the types of the section here have a cycle.
    BadType(u32),
    /// The atom here has a wrong number of terms.
    Arity(u32),
    /// The form here is not taken.
    Feature(Feature, u32),
    /// The tagged effect here deletes at the end what another one adds at the start, or the other way round.
    Window(u32),
    /// The number here is no duration.
    Duration(u32),
    /// At the word or atom here a limit is passed.
    Limit(Limit, u32),
    /// Memory ran out.
    Memory,
}
