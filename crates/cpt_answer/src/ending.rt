//! How a command ends without its full result.

use cpt_pddl::Feature;
use cpt_task::Limit;

/// What is wrong at a byte of a domain or problem text.
#[derive(Clone, Copy, Debug, PartialEq, Eq)]
pub enum ByteFault {
    /// The byte may not stand in a text.
    BadByte,
    /// The parenthesis closes no group.
    Unopened,
    /// The group is not closed.
    Unclosed,
    /// The item is not in the grammar.
    Shape,
    /// The name is not declared, or may not be declared.
    BadName,
    /// What begins here is declared or given a second time.
    Twice,
    /// The term has a wrong type, or the types have a cycle.
    BadType,
    /// The atom has a wrong number of terms.
    Arity,
    /// The effect deletes at the end what another one adds at the start, or the other way round.
    Window,
    /// The number is no duration.
    Duration,
    /// The word is not the name of the domain.
    OtherDomain,
    /// The form is not taken.
    Feature(Feature),
}

/// Why a command ends without its full result, where its files are read: the status and the line follow from it.
#[derive(Clone, Copy, Debug, PartialEq, Eq)]
pub enum Cause {
    /// This limit was passed.
    Passed(Limit),
    /// The domain text has this fault at this byte.
    DomainByte(u32, ByteFault),
    /// The problem text has this fault at this byte.
    ProblemByte(u32, ByteFault),
    /// The task text's line of this number is at fault.
    TaskLine(u32),
    /// The plan text's line of this number is not in the grammar.
    PlanLine(u32),
    /// The plan text's line of this number names no action.
    PlanUnknown(u32),
    /// The plan text's line of this number has another duration than this one, which is the action's.
    MustLast(u32, u32),
    /// The plan text's line of this number names an action that can never be applied.
    IsUnreachable(u32),
}

/// How a command ends without its full result.
#[derive(Clone, Copy, Debug, PartialEq, Eq)]
pub enum Ending {
    /// Its files are read, and they come to this.
    Because(Cause),
    /// A file could not be read.
    Read,
    /// Memory was refused.
    Memory,
}

/// An exit status, and the text that is written.
#[derive(Debug, Drop)]
pub struct Reply {
    pub status: u8,
    pub text: Vec<u8>,
}
