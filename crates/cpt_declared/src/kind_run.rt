//! A list of types while it is read.

ghost use Rattle.std.specs.Prelude.{◌≤◌, length};
ghost use Rattle.cpt_declared.specs.Marks.{AreMarks};

use cpt_pddl::Names;

/// A list of types being read: the types by their first places, the parent of each, which of them were entered, in
/// order, how many of those entries have their parent, and whether a dash was last.
#[derive(Drop)]
pub struct Reading {
    pub names: Names,
    pub parents: Vec<u32>,
    pub entered: Vec<u32>,
    /// For each type, whether it was entered.
    pub marks: Vec<bool>,
    pub parented: usize,
    pub dash: bool,
    ghost few: { parented ≤ length entered.items },
    ghost marked: { length names ≤ length marks.items },
    ghost told: { AreMarks entered.items marks.items },
}
