//! What of a certificate is still to be read.

use cpt_cert_accept::Why;
use cpt_cert_read::{Claim, Version};
use cpt_tables::{DistTable, PairTable, Tables};
use cpt_task::Occ;
use cpt_walk::Walk;
use std::alloc::Global;

/// The trees that stand behind the tables.
#[derive(Clone, Copy, Debug, PartialEq, Eq)]
pub enum Trees {
    /// A closed tree at this bound.
    Closed(u64),
    /// A closed tree at the refuted bound, and one with open nodes at the next, of whose nodes so many are done.
    Open { refuted: u64, nodes: u64 },
}

/// What stands behind the pair table.
#[derive(Clone, Copy, Debug, PartialEq, Eq)]
pub enum Aim {
    /// The end, where the goal can never hold.
    Goal,
    /// The distance table and trees.
    Trees(Trees),
}

/// A plan of which lines are left.
#[derive(Debug, Drop)]
pub struct Items {
    /// The claimed makespan.
    pub makespan: u64,
    /// The line of the plan's head.
    pub head: u64,
    /// How many lines are left, at least one.
    pub left: u64,
    /// The start of the last line that is read, or 0.
    pub start: u64,
    /// The action of the last line that is read, or 0.
    pub act: u64,
    /// The occurrences, or `None` where one is of no action of the task or starts after the makespan.
    pub plan: Option<Vec<Occ>>,
}

/// A pair table of which rows are left.
#[derive(Debug, Drop)]
pub struct PairRows {
    /// What stands behind it.
    pub aim: Aim,
    /// The line of its head.
    pub head: u64,
    /// The atom of the next row.
    pub next: u32,
    pub pairs: PairTable,
}

/// A distance table of which rows are left.
#[derive(Debug, Drop)]
pub struct DistRows {
    /// What stands behind it.
    pub trees: Trees,
    /// The line of its head.
    pub head: u64,
    /// The action of the next row.
    pub next: u32,
    pub pairs: PairTable,
    pub dists: DistTable,
}

/// What is still to be read behind the line of the sizes, from the next line on.
#[derive(Debug, Drop)]
pub enum Section {
    /// A plan with this makespan.
    Plan(u64),
    Items(Items),
    Pairs(Aim),
    PairRows(PairRows),
    Dists(Trees, PairTable),
    DistRows(DistRows),
    /// A closed tree.
    Tree(Trees, Tables),
    /// Nodes of a closed tree.
    Nodes(Trees, Tables, Walk),
    /// A tree with open nodes, at the bound behind the refuted one.
    OpenTree {
        refuted: u64,
        nodes: u64,
        tables: Tables,
    },
    /// Nodes of a tree with open nodes.
    OpenNodes {
        nodes: u64,
        tables: Tables,
        walk: Walk,
    },
    End,
    /// The end behind a tree with open nodes: whether its nodes are as many as claimed, and some open.
    CountedEnd(bool),
    /// Nothing.
    Done,
}

/// What a line leads to: what is read next, or the first fault.
#[derive(Debug, Drop)]
pub enum Next {
    On(Section),
    Fault { line: u64, why: Why },
}

/// What of a certificate is still to be read.
#[derive(Debug, Drop)]
pub enum Stage {
    First,
    Claimed(Version),
    Sized(Version, Claim),
    Within(Version, Claim, Section),
}

/// What a line of a certificate leads to.
#[derive(Debug, Drop)]
pub enum Turned {
    On(Stage),
    Fault { line: u64, why: Why },
}
