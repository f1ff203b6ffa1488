//! Problems.

use cpt_domain::ObjectDecl;
use cpt_task::List;

/// A ground atom: the predicate's number, and an object for each of its variables. Objects are numbered with the
/// constants of the domain first.
#[derive(Debug, Drop)]
pub struct Fact {
    pub pred: u32,
    pub args: List<u32>,
}

/// The value of a function for these objects.
#[derive(Debug, Drop)]
pub struct Valued {
    pub func: u32,
    pub args: List<u32>,
    pub value: u32,
}

/// A problem: its objects behind the constants of the domain, the atoms that hold at first, those that the goal
/// requires present and absent, and the values of functions, each in the order of the text.
#[derive(Debug, Drop)]
pub struct Problem {
    pub objects: List<ObjectDecl>,
    pub init: List<Fact>,
    pub goal: List<Fact>,
    pub values: List<Valued>,
    pub absent: List<Fact>,
}
