//! Plans of least makespan, and verdicts where there is none.

use crate::problems::{DOORS, ONE_DOOR};
use crate::scene::{Case, File, expect_all};
use std::test::Fail;

/// Three actions take turns on one resource.
pub(crate) const TURNS: File = (
    "d",
    "(define (domain turns) (:predicates (free) (one) (two) (three))
(:durative-action first :parameters () :duration (= ?duration 2) :condition (over all (free))
 :effect (and (at end (not (free))) (at end (free)) (at end (one))))
(:durative-action second :parameters () :duration (= ?duration 2) :condition (over all (free))
 :effect (and (at end (not (free))) (at end (free)) (at end (two))))
(:durative-action third :parameters () :duration (= ?duration 2) :condition (over all (free))
 :effect (and (at end (not (free))) (at end (free)) (at end (three)))))",
);

pub(crate) const ALL_TURNS: File = (
    "p",
    "(define (problem all) (:domain turns) (:init (free)) (:goal (and (one) (two) (three))))",
);

/// A key opens one door, and is cut anew for each.
pub(crate) const KEYS: File = (
    "d",
    "(define (domain keys) (:predicates (key) (left) (right))
(:durative-action cut :parameters () :duration (= ?duration 1) :condition () :effect (at end (key)))
(:durative-action open-left :parameters () :duration (= ?duration 2) :condition (over all (key))
 :effect (and (at end (not (key))) (at end (left))))
(:durative-action open-right :parameters () :duration (= ?duration 2) :condition (over all (key))
 :effect (and (at end (not (key))) (at end (right)))))",
);

pub(crate) const BOTH_DOORS: File = (
    "p",
    "(define (problem both) (:domain keys) (:init) (:goal (and (left) (right))))",
);

pub(crate) const NOTHING: File = ("d", "(define (domain g) (:predicates (won)))");

const FOUND: [Case<'static>; 4] = [
    Case {
        words: &["solve", "d", "p"],
        files: &[TURNS, ALL_TURNS],
        status: 0,
        text: "0: (first) [2]\n2: (second) [2]\n4: (third) [2]\n; makespan 6\n",
    },
    Case {
        words: &["solve", "d", "p", "--nodes", "4000000000", "--max", "6"],
        files: &[KEYS, BOTH_DOORS],
        status: 0,
        text: "0: (cut) [1]\n1: (open-right) [2]\n3: (cut) [1]\n4: (open-left) [2]\n; makespan 6\n",
    },
    Case {
        words: &["solve", "d", "p"],
        files: &[DOORS, ONE_DOOR],
        status: 0,
        text: "0: (shut) [3]\n3: (paint) [2]\n; makespan 5\n",
    },
    Case {
        words: &["solve", "d", "p", "--max", "0"],
        files: &[
            NOTHING,
            (
                "p",
                "(define (problem g) (:domain g) (:init (won)) (:goal (won)))",
            ),
        ],
        status: 0,
        text: "; makespan 0\n",
    },
];

#[test]
fn plans_of_least_makespan_are_written(rt: HostRuntime) -> Result<(), Fail> {
    expect_all(&rt, rt.alloc(), &FOUND)
}

const NONE: [Case<'static>; 4] = [
    Case {
        words: &["solve", "d", "p"],
        files: &[
            NOTHING,
            (
                "p",
                "(define (problem g) (:domain g) (:init) (:goal (won)))",
            ),
        ],
        status: 2,
        text: "; no plan\n",
    },
    Case {
        words: &["solve", "d", "p", "--max", "5"],
        files: &[TURNS, ALL_TURNS],
        status: 2,
        text: "; no plan up to 5\n",
    },
    Case {
        words: &["solve", "d", "p", "--max", "0"],
        files: &[KEYS, BOTH_DOORS],
        status: 2,
        text: "; no plan up to 0\n",
    },
    Case {
        words: &["solve", "d", "p", "--nodes", "1"],
        files: &[TURNS, ALL_TURNS],
        status: 3,
        text: "; refuted 3\n; nodes 1\n",
    },
];

#[test]
fn verdicts_are_written_where_no_plan_is_found(rt: HostRuntime) -> Result<(), Fail> {
    expect_all(&rt, rt.alloc(), &NONE)
}
