//! The raising of bounds on the small space.

ghost use Rattle.std.specs.Prelude.{◌≡◌};

use crate::small::SmallSpace;
use cpt_search::{Raised, raise_bound};
use cpt_sheet::{Decision, Flaw, NodeLine};

const FIRST: Decision = Decision::Before {
    first: 2,
    second: 3,
};

const SECOND: Decision = Decision::Before {
    first: 3,
    second: 2,
};

const CLASH: Flaw = Flaw::Clash {
    first: 2,
    second: 3,
};

fn new_space(rt: &HostRuntime) -> SmallSpace
    ensures { result.used ≡ 0 }
{
    SmallSpace {
        bound: 0,
        decisions: Vec::new(rt.alloc()),
        steps: Vec::new(rt.alloc()),
        used: 0,
    }
}

/// The leaf is the third node of the tree of bound 3, and the last one of the budget. The trees of bounds 1 and 2 have
/// three nodes each.
#[test]
fn finds_a_leaf_at_the_last_node_of_the_budget(rt: HostRuntime) {
    let mut space = new_space(&rt);
    let raised = raise_bound(rt.alloc(), &mut space, 1, 5, 3).expect(&rt, "memory");
    match raised {
        Raised::Found { bound, below } => {
            assert!(&rt; bound == 3);
            assert!(&rt;
                below.lines.as_slice()
                    == [
                        NodeLine::Branch(CLASH),
                        NodeLine::Child(FIRST),
                        NodeLine::Close,
                        NodeLine::Child(SECOND),
                        NodeLine::Close
                    ]
                    .as_slice()
            );
        }
        _other => assert!(&rt; false),
    }
    assert!(&rt; space.used == 9);
}

/// Where the first bound has the leaf, the tree below it is the close line alone.
#[test]
fn finds_a_leaf_at_the_first_bound(rt: HostRuntime) {
    let mut space = new_space(&rt);
    let raised = raise_bound(rt.alloc(), &mut space, 3, 3, 4).expect(&rt, "memory");
    match raised {
        Raised::Found { bound, below } => {
            assert!(&rt; bound == 3);
            assert!(&rt; below.lines.as_slice() == [NodeLine::Close].as_slice());
        }
        _other => assert!(&rt; false),
    }
    assert!(&rt; space.used == 3);
}

#[test]
fn spends_its_budget(rt: HostRuntime) {
    let mut space = new_space(&rt);
    let raised = raise_bound(rt.alloc(), &mut space, 1, 5, 2).expect(&rt, "memory");
    match raised {
        Raised::Spent {
            refuted,
            full,
            partial,
        } => {
            assert!(&rt; refuted == 0);
            assert!(&rt; full.lines.as_slice() == [NodeLine::Close].as_slice());
            assert!(&rt;
                partial.lines.as_slice()
                    == [
                        NodeLine::Branch(CLASH),
                        NodeLine::Child(FIRST),
                        NodeLine::Close,
                        NodeLine::Child(SECOND),
                        NodeLine::OpenNode
                    ]
                    .as_slice()
            );
        }
        _other => assert!(&rt; false),
    }
    assert!(&rt; space.used == 2);
}

#[test]
fn refutes_all_bounds(rt: HostRuntime) {
    let mut space = new_space(&rt);
    let raised = raise_bound(rt.alloc(), &mut space, 1, 2, 3).expect(&rt, "memory");
    match raised {
        Raised::Refuted(tree) => assert!(&rt; tree.lines.as_slice().len() == 5),
        _other => assert!(&rt; false),
    }
    assert!(&rt; space.used == 6);
}
