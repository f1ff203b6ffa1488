//! Certificates of what a search finds, and that they are accepted.

use crate::problems::{DOORS, ONE_DOOR};
use crate::scene::{Case, File, expect_all};
use crate::solving::{ALL_TURNS, BOTH_DOORS, KEYS, NOTHING, TURNS};
use std::test::Fail;

const NO_WAY: File = (
    "p",
    "(define (problem g) (:domain g) (:init) (:goal (won)))",
);

const CERTIFICATES: [Case<'static>; 4] = [
    Case {
        words: &["prove", "d", "p", "--cert", "1"],
        files: &[KEYS, BOTH_DOORS],
        status: 0,
        text: "cpt 1\nclaim optimal 6\ntask 3 3\nplan 4\n0 0\n1 2\n3 0\n4 1\npairs\nh 1 4 4\nh 3 6\nh 3\ndists\nd 0 0 0\nd 1 0 0\nd 1 0 0\ntree 5\nclose\nend\n",
    },
    Case {
        words: &["prove", "d", "p"],
        files: &[KEYS, BOTH_DOORS],
        status: 0,
        text: "cpt 2\nclaim optimal 6\ntask 3 3\nplan 4\n0 0\n1 2\n3 0\n4 1\npairs\nh 1 4*2\nh 3 6\nh 3\ndists\nd 0*3\nd 1 0*2\nd 1 0*2\ntree 5\nclose\nend\n",
    },
    Case {
        words: &["prove", "d", "p", "--nodes", "1", "--cert", "1"],
        files: &[TURNS, ALL_TURNS],
        status: 3,
        text: "cpt 1\nclaim spent 3 1\ntask 4 3\npairs\nh 0 2 2 2\nh 2 4 4\nh 2 4\nh 2\ndists\nd 0 0 0 0\nd 0 0 0 0\nd 0 0 0 0\ntree 3\nclose\nopen-tree 4\nbranch open 1 1\nchild bring 1 1 0\nopen\nend\n",
    },
    Case {
        words: &["prove", "d", "p", "--cert", "1"],
        files: &[NOTHING, NO_WAY],
        status: 2,
        text: "cpt 1\nclaim none\ntask 1 0\npairs\nh never\nend\n",
    },
];

#[test]
fn certificates_are_written_in_the_version_that_is_asked_for(rt: HostRuntime) -> Result<(), Fail> {
    expect_all(&rt, rt.alloc(), &CERTIFICATES)
}
