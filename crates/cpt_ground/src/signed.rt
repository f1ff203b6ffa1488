//! Actions that need atoms present and atoms absent.

use cpt_facts::Fact;
use cpt_task::{List, Name};

/// An action: its name, its duration, the atoms that it needs present and those that it needs absent, and the atoms
/// that it adds and deletes, each in the order of its schema.
#[derive(Drop)]
pub struct SignedAction {
    pub name: Name,
    pub dur: u32,
    pub present: List<Fact>,
    pub absent: List<Fact>,
    pub add: List<Fact>,
    pub dele: List<Fact>,
}

/// A task: its actions, the atoms that hold at first, and those that the goal needs present and absent.
#[derive(Drop)]
pub struct Signed {
    pub actions: List<SignedAction>,
    pub init: List<Fact>,
    pub goal: List<Fact>,
    pub absent: List<Fact>,
}
