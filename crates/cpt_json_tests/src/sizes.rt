//! Texts of tasks of any size, and with faults.

use cpt_json::JsonTaskError;
use cpt_task::Limit;
use std::alloc::{AllocError, Global};

/// What the text of a task has. The first action has the name, the duration and the lists, which are 0, 1, 2 and so on.
#[derive(Clone, Copy)]
pub struct Parts {
    pub atoms: u32,
    pub actions: u32,
    pub pre: u32,
    pub add: u32,
    pub del: u32,
    pub dur: u32,
    pub name: &'static str,
    pub goal: u32,
    /// One more member.
    pub more: &'static str,
    /// The last brace.
    pub close: &'static str,
}

/// A task that is none of those that a limit refuses, and lacks little to it.
pub fn largest() -> Parts {
    Parts {
        atoms: 2048,
        actions: 4096,
        pre: 64,
        add: 128,
        del: 128,
        dur: 100_000,
        name: "(a)",
        goal: 2047,
        more: "",
        close: "}",
    }
}

/// A small task.
fn small() -> Parts {
    Parts {
        atoms: 130,
        actions: 1,
        pre: 0,
        add: 1,
        del: 0,
        dur: 1,
        name: "(a)",
        goal: 0,
        more: "",
        close: "}",
    }
}

/// What is wrong with a text.
#[derive(Clone, Copy)]
pub enum Wrong {
    Cut,
    Key,
    Atoms,
    Actions,
    Pre,
    Add,
    Del,
    Name,
    Goal,
    Brief,
    Long,
}

impl Wrong {
    /// Why the text is no task.
    pub fn cause(self) -> JsonTaskError {
        match self {
            Wrong::Cut => JsonTaskError::Syntax,
            Wrong::Key => JsonTaskError::Shape,
            Wrong::Atoms => JsonTaskError::Limit(Limit::Atoms),
            Wrong::Actions => JsonTaskError::Limit(Limit::Actions),
            Wrong::Pre | Wrong::Add | Wrong::Del => JsonTaskError::Limit(Limit::LongList),
            Wrong::Name => JsonTaskError::BadName,
            Wrong::Goal => JsonTaskError::Atom,
            Wrong::Brief | Wrong::Long => JsonTaskError::Duration,
        }
    }

    /// The parts, with this fault.
    fn put_in(self, parts: Parts) -> Parts {
        let mut parts = parts;
        match self {
            Wrong::Cut => parts.close = "",
            Wrong::Key => parts.more = ",\"note\":1",
            Wrong::Atoms => parts.atoms = 2049,
            Wrong::Actions => parts.actions = 4097,
            Wrong::Pre => parts.pre = 65,
            Wrong::Add => parts.add = 129,
            Wrong::Del => parts.del = 129,
            Wrong::Name => parts.name = "(A)",
            Wrong::Goal => parts.goal = 9999,
            Wrong::Brief => parts.dur = 0,
            Wrong::Long => parts.dur = 100_001,
        }
        parts
    }
}

/// A small task with two faults.
pub fn with_both(first: Wrong, second: Wrong) -> Parts {
    first.put_in(second.put_in(small()))
}

fn numbers(alloc: Global, count: u32) -> Result<String, AllocError> {
    let mut text = String::new(alloc);
    for number in 0..count {
        let item = if number == 0 {
            String::from_str(alloc, "0")?
        } else {
            format!(in alloc; ",{number}")?
        };
        text.push_str(item.as_str())?;
    }
    Ok(text)
}

fn atoms_text(alloc: Global, count: u32) -> Result<String, AllocError> {
    let mut text = String::from_str(alloc, "\"(p)\"")?;
    for atom in 1..count {
        let item = format!(in alloc; ",\"(p{atom})\"")?;
        text.push_str(item.as_str())?;
    }
    Ok(text)
}

fn first_action(alloc: Global, parts: Parts) -> Result<String, AllocError> {
    let pre = numbers(alloc, parts.pre)?;
    let add = numbers(alloc, parts.add)?;
    let del = numbers(alloc, parts.del)?;
    format!(in alloc;
        "{{\"name\":\"{}\",\"dur\":{},\"pre\":[{pre}],\"add\":[{add}],\"del\":[{del}]}}",
        parts.name, parts.dur
    )
}

fn actions_text(alloc: Global, parts: Parts) -> Result<String, AllocError> {
    let mut text = first_action(alloc, parts)?;
    for action in 1..parts.actions {
        let item = format!(in alloc;
            ",{{\"name\":\"(a{action})\",\"dur\":1,\"pre\":[],\"add\":[],\"del\":[]}}"
        )?;
        text.push_str(item.as_str())?;
    }
    Ok(text)
}

/// The text of the task.
pub fn text_of(alloc: Global, parts: Parts) -> Result<String, AllocError> {
    let actions = actions_text(alloc, parts)?;
    let atoms = atoms_text(alloc, parts.atoms)?;
    format!(in alloc;
        "{{\"actions\":[{actions}],\"atoms\":[{atoms}],\"goal\":[{}],\"init\":[]{}{}",
        parts.goal, parts.more, parts.close
    )
}
