//! Everything that a domain declares beside its actions.

use crate::kinds::Kinds;
use crate::signatures::Signatures;
use cpt_pddl::Typed;

/// The types, constants, predicates and functions of a domain, each by number.
#[derive(Drop)]
pub struct Declared {
    pub types: Kinds,
    pub constants: Typed,
    pub predicates: Signatures,
    pub functions: Signatures,
}
