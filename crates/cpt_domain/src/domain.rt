//! Domains.

use cpt_schema::Schema;
use cpt_task::{List, Name};

/// A type and its parent. Type 0 is `object`, its own parent.
#[derive(Debug, Drop)]
pub struct TypeDecl {
    pub name: Name,
    pub parent: u32,
}

/// A constant or object and its type.
#[derive(Debug, Drop)]
pub struct ObjectDecl {
    pub name: Name,
    pub kind: u32,
}

/// A predicate, with the types of its variables.
#[derive(Debug, Drop)]
pub struct Predicate {
    pub name: Name,
    pub kinds: List<u32>,
}

/// A function, with the types of its variables.
#[derive(Debug, Drop)]
pub struct Function {
    pub name: Name,
    pub kinds: List<u32>,
}

/// A domain. The types other than `object` are numbered by their first places, all else in the order of the text.
#[derive(Debug, Drop)]
pub struct Domain {
    pub name: Name,
    pub types: List<TypeDecl>,
    pub constants: List<ObjectDecl>,
    pub predicates: List<Predicate>,
    pub schemas: List<Schema>,
    pub functions: List<Function>,
}
