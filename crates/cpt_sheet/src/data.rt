//! Sheets: partial plans, with what is still open of them.

use cpt_task::{List, Span};

/// Who may add an atom: a token, or the occurrences of an action that no token stands for.
#[derive(Clone, Copy, Debug, PartialEq, Eq)]
pub enum Cand {
    /// The token of this number.
    Tok(u32),
    /// The outside occurrences of the action of this number.
    Out(u32),
}

/// The moments from `lo` to `hi`. It is dead where `lo` is above `hi`.
#[derive(Clone, Copy, Debug, PartialEq, Eq)]
pub struct Interval {
    pub lo: Span,
    pub hi: u64,
}

/// What a token stands for.
#[derive(Clone, Copy, Debug, PartialEq, Eq)]
pub enum Kind {
    /// Moment 0, which adds the initial atoms.
    Start,
    /// The makespan, which needs the goal.
    End,
    /// An occurrence of the action of this number.
    Act(u32),
}

/// A precondition, and who may add it: tokens ascending, then outside actions ascending.
#[derive(Debug, Drop)]
pub struct Need {
    pub atom: u32,
    pub cands: List<Cand>,
}

/// A token: what it stands for, when it may begin, and its preconditions in the order of the atoms.
#[derive(Debug, Drop)]
pub struct Token {
    pub kind: Kind,
    pub span: Interval,
    pub lists: List<Need>,
}

/// A partial plan: the greatest makespan, the tokens (0 is the start, 1 is the end), an interval for the outside
/// occurrences of each action, and which token ends before which other begins (increasing and distinct).
#[derive(Debug, Drop)]
pub struct Sheet {
    pub bound: u64,
    pub tokens: List<Token>,
    pub outs: List<Interval>,
    pub orders: List<(u32, u32)>,
}

/// What is decided at a branch; `pre` is an atom.
#[derive(Clone, Copy, Debug, PartialEq, Eq)]
pub enum Decision {
    /// The token `by` adds the atom for the token `tok`.
    Join { tok: u32, pre: u32, by: u32 },
    /// A new token of the action adds the atom for the token `tok`.
    Bring { tok: u32, pre: u32, act: u32 },
    /// The first token ends before the second begins.
    Before { first: u32, second: u32 },
}

/// What is open in a sheet; `pre` is an atom.
#[derive(Clone, Copy, Debug, PartialEq, Eq)]
pub enum Flaw {
    /// The token `foe` deletes the atom, and may come between the token that adds it and `tok`.
    Threat { tok: u32, pre: u32, foe: u32 },
    /// More than one may add the atom for `tok`, or an outside action may.
    OpenNeed { tok: u32, pre: u32 },
    /// The two tokens interfere, and no order stands between them.
    Clash { first: u32, second: u32 },
}

/// A step of one of the thirteen rules; `pre` and `other` are atoms, `tok` and `foe` are tokens.
#[derive(Clone, Copy, Debug, PartialEq, Eq)]
pub enum Step {
    /// The second token begins no earlier than after the first.
    R1 {
        first: u32,
        second: u32,
        to: Span,
    },
    /// The first token begins early enough for the second.
    R2 {
        first: u32,
        second: u32,
        to: Span,
    },
    /// Of two tokens that interfere the second cannot come first.
    R3 {
        first: u32,
        second: u32,
    },
    /// The token begins no earlier than after who adds the atom.
    R4 {
        tok: u32,
        pre: u32,
        to: Span,
    },
    /// The candidate cannot come before the token.
    R5 {
        tok: u32,
        pre: u32,
        cand: Cand,
    },
    /// The only candidate comes before the token.
    R6 {
        tok: u32,
        pre: u32,
    },
    /// The outside action has no moment left.
    R7 {
        tok: u32,
        pre: u32,
        act: u32,
    },
    /// A token that deletes the atom stands between the candidate and the token.
    R8 {
        tok: u32,
        pre: u32,
        cand: Cand,
        foe: u32,
    },
    /// A token that deletes the atom comes after the token.
    R9After {
        tok: u32,
        pre: u32,
        foe: u32,
    },
    /// A token that deletes the atom comes before who adds it.
    R9Ahead {
        tok: u32,
        pre: u32,
        foe: u32,
    },
    /// The outside action begins no earlier than after who adds the atom.
    R10 {
        act: u32,
        pre: u32,
        to: Span,
    },
    /// The outside action, which deletes the atom, comes after the token.
    R11After {
        tok: u32,
        pre: u32,
        act: u32,
        to: Span,
    },
    /// The outside action, which deletes the atom, comes before who adds it.
    R11Ahead {
        tok: u32,
        pre: u32,
        act: u32,
        to: Span,
    },
    /// The outside action, which interferes with the token, comes after it.
    R12After {
        tok: u32,
        act: u32,
        to: Span,
    },
    /// The outside action, which interferes with the token, comes before it.
    R12Ahead {
        tok: u32,
        act: u32,
        to: Span,
    },
    /// The candidate goes with no candidate for another precondition.
    R13 {
        tok: u32,
        pre: u32,
        cand: Cand,
        other: u32,
    },
}

/// What a step changes in a sheet.
#[derive(Clone, Copy, Debug, PartialEq, Eq)]
pub enum Change {
    /// The `lo` of an interval.
    Raise { at: Cand, to: Span },
    /// The `hi` of an interval.
    Lower { at: Cand, to: Span },
    /// A candidate leaves a list.
    Take { tok: u32, pre: u32, cand: Cand },
    /// The first token comes before the second.
    Post { first: u32, second: u32 },
}

/// A line of a tree.
#[derive(Clone, Copy, Debug, PartialEq, Eq)]
pub enum NodeLine {
    /// A child, with its decision.
    Child(Decision),
    /// A step.
    Narrow(Step),
    /// The sheet is dead.
    Close,
    /// The node is branched on this flaw.
    Branch(Flaw),
    /// The node is left open.
    OpenNode,
}

/// A search tree, as its lines in the order of the certificate.
#[derive(Debug, Drop)]
pub struct Tree {
    pub lines: List<NodeLine>,
}
