//! Why a text is no certificate of a task.

/// The reason of a fault, in the order of the sections.
#[derive(Clone, Copy, Debug, PartialEq, Eq)]
pub enum Why {
    /// The line is none of those that may stand there, or the text ends too early, or something follows its end.
    Grammar,
    /// The numbers of atoms and actions are not the task's.
    Task,
    /// The plan is not valid, or its makespan is not the claimed one.
    Plan,
    /// The pair table is not admissible.
    Pair,
    /// The distance table is not admissible.
    Dist,
    /// The goal has a finite value.
    Goal,
    /// The bound of a tree is not the one that the claim asks for.
    Bound,
    /// The step is not legal.
    Step,
    /// The sheet of a close line is not dead.
    Close,
    /// The sheet of a branch line is dead or has no such flaw.
    Branch,
    /// The decision is not the flaw's next child.
    Child,
    /// The nodes of a tree with open nodes are miscounted, or none is open.
    Count,
}
