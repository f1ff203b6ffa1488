//! Tasks of the tests, as lines: the proof of a text takes time with the square of its length, and lines are short.

use crate::changed::{Change, text_of};
use cpt_task::Task;
use cpt_task_text::read_task;
use std::alloc::Global;

/// A resource, and a key that two actions use up.
pub const MIXED_TASK: [&str; 24] = [
    "task 5 4",
    "atom (r)",
    "atom (k)",
    "atom (g1)",
    "atom (g2)",
    "atom (h)",
    "action (make) 1",
    "pre",
    "add 1",
    "del",
    "action (use1) 2",
    "pre 0 1",
    "add 2",
    "del 1",
    "action (use2) 2",
    "pre 1",
    "add 3",
    "del 1",
    "action (hold) 3",
    "pre 0",
    "add 0 4",
    "del 0",
    "init 0",
    "goal 2 3 4",
];

/// A key that one action makes and two others use up.
pub const KEY_TASK: [&str; 18] = [
    "task 3 3",
    "atom (k)",
    "atom (g1)",
    "atom (g2)",
    "action (u) 1",
    "pre",
    "add 0",
    "del",
    "action (v1) 2",
    "pre 0",
    "add 1",
    "del 0",
    "action (v2) 2",
    "pre 0",
    "add 2",
    "del 0",
    "init",
    "goal 1 2",
];

/// An action that adds the key, and one that needs it and adds the goal.
pub const CHAIN_TASK: [&str; 13] = [
    "task 2 2",
    "atom (k)",
    "atom (g)",
    "action (u) 1",
    "pre",
    "add 0",
    "del",
    "action (v) 2",
    "pre 0",
    "add 1",
    "del",
    "init",
    "goal 1",
];

/// A task of one atom that no action adds.
pub const LOST_TASK: [&str; 4] = ["task 1 0", "atom (g)", "init", "goal 0"];

/// A task whose goal holds at the start.
pub const EASY_TASK: [&str; 4] = ["task 1 0", "atom (g)", "init 0", "goal 0"];

/// The task that the lines spell.
pub fn task_of(alloc: Global, lines: &[&str]) -> Option<Task> {
    let text = text_of(alloc, lines, Change::None).ok()?;
    if text.len() > 4096 {
        return None;
    }
    read_task(alloc, text.as_slice()).ok()
}
