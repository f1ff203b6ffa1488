//! Numbers of lines.

/// How many lines of each kind stand behind the first head of a tree.
#[derive(Clone, Copy, Debug, PartialEq, Eq)]
pub struct Counts {
    /// Close lines.
    pub closed: u64,
    /// Lines of branches.
    pub branched: u64,
    /// Open lines.
    pub left: u64,
    /// Step lines of each rule; that of rule 1 comes first.
    pub rules: [u64; 13],
}
