//! Domains, and how they are read.
#![tactic(auto)]

mod domain;
mod error;
mod keys;
mod reading;

pub use cpt_pddl::Feature;
pub use cpt_schema::{Lasting, Lit, Schema, Term, Test};
pub use domain::{Domain, Function, ObjectDecl, Predicate, TypeDecl};
pub use error::DomainError;
pub use reading::read_domain;
