//! What a line of a certificate says.

use cpt_sheet::NodeLine;
use cpt_task::{List, Span};

/// Which version a certificate is written in.
#[derive(Clone, Copy, Debug, PartialEq, Eq)]
pub enum Version {
    /// Each value of a table row stands alone.
    One,
    /// The rows of tables are written as runs.
    Two,
}

/// What a certificate claims of its task.
#[derive(Clone, Copy, Debug, PartialEq, Eq)]
pub enum Claim {
    /// Its plan is optimal, with this makespan.
    Optimal(u64),
    /// No valid plan has a makespan of at most this bound.
    NoneUpTo(u64),
    /// There is no valid plan.
    Never,
    /// No valid plan has a makespan of at most `refuted`, and so many nodes of the next tree are done.
    Spent { refuted: u64, nodes: u64 },
}

/// A value, and how often it stands there in a row.
#[derive(Clone, Copy, Debug, PartialEq, Eq)]
pub struct Run {
    pub value: Span,
    pub count: u32,
}

/// What a line of a certificate says, in either version.
#[derive(Debug, Drop)]
pub enum CertLine {
    /// The first line.
    First(Version),
    Claimed(Claim),
    /// How many atoms and actions the task has.
    Sizes { atoms: u64, actions: u64 },
    /// The head of a plan, with the number of its lines.
    Plan(u64),
    /// An occurrence of an action.
    Item { start: u64, act: u64 },
    Pairs,
    /// The values of an atom and each atom from it on.
    PairRow(List<Run>),
    Dists,
    /// The values of an action and each atom.
    DistRow(List<Run>),
    /// The head of a tree, with its bound.
    Tree(u64),
    /// The head of a tree that may have open nodes, with its bound.
    OpenTree(u64),
    /// A line of a tree.
    Node(NodeLine),
    End,
    /// A line that has the form of neither version.
    Strange,
}
