//! Lines that are counted.

use crate::scene::text_of;
use cpt_counts::{Counts, counts};
use std::test::Fail;

/// Lines of each kind behind the head of a tree, and some of them before it. Behind them stands a line without its end.
const LINES: [&str; 20] = [
    "cpt 1",
    "close",
    "open",
    "1 2",
    "tree 2",
    "branch open 1 1",
    "child bring 1 1 1",
    "4 2 0 1",
    "4 2 0 2",
    "12 1 0 after 3",
    "1 0 1 4",
    "close",
    "child bring 1 1 0",
    "13 2 0 t3 1",
    "tree 3",
    "close",
    "open-tree 3",
    "open",
    "opened",
    "end",
];

#[test]
fn lines_behind_the_first_head_are_counted(rt: HostRuntime) -> Result<(), Fail> {
    let mut text = text_of(rt.alloc(), &LINES).ok_or("text")?;
    text.push_str("close")?;
    let wanted = Counts {
        closed: 2,
        branched: 1,
        left: 1,
        rules: [1, 0, 0, 2, 0, 0, 0, 0, 0, 0, 0, 1, 1],
    };
    assert_eq!(rt; counts(text.as_bytes()), wanted);
    Ok(())
}

#[test]
fn a_text_without_a_tree_has_none(rt: HostRuntime) {
    let wanted = Counts {
        closed: 0,
        branched: 0,
        left: 0,
        rules: [0; 13],
    };
    assert_eq!(rt; counts(b"cpt 1\nclose\nend\n"), wanted);
}
