//! Domains and problems: their listing, and plans over them.

use crate::scene::{Case, File, expect, expect_all};
use std::alloc::Global;
use std::process::Abort;
use std::test::Fail;

/// A door is shut, and what may be painted only while it is not open.
pub const DOORS: File = (
    "d",
    "(define (domain doors) (:predicates (open) (painted))
(:durative-action shut :parameters () :duration (= ?duration 3) :condition (over all (open)) :effect (at end (not (open))))
(:durative-action paint :parameters () :duration (= ?duration 2) :condition (over all (not (open))) :effect (at end (painted))))",
);

pub const ONE_DOOR: File = (
    "p",
    "(define (problem one) (:domain doors) (:init (open)) (:goal (and (painted) (not (open)))))",
);

/// A boat sails from port to port along lanes, each crossing with a time of its own.
const BOATS: File = (
    "d",
    "(define (domain boats) (:requirements :typing :durative-actions :fluents)
(:types port boat - object)
(:predicates (at ?b - boat ?p - port) (lane ?a ?b - port))
(:functions (crossing ?a ?b - port))
(:durative-action sail :parameters (?x - boat ?a ?b - port) :duration (= ?duration (crossing ?a ?b))
 :condition (and (at start (at ?x ?a)) (over all (lane ?a ?b)))
 :effect (and (at start (not (at ?x ?a))) (at end (at ?x ?b)))))",
);

/// There is a time for the way back, but no lane.
const ONE_WAY: File = (
    "p",
    "(define (problem one-way) (:domain boats)
(:objects north south - port lark - boat)
(:init (at lark north) (lane north south) (= (crossing north south) 7) (= (crossing south north) 4))
(:goal (at lark south)) (:metric minimize (total-time)))",
);

pub const LIST: &[&str] = &["ground", "d", "p"];

pub const JUDGE: &[&str] = &["validate", "d", "p", "n"];

const WITH_COMPLEMENTS: Case<'static> = Case {
    words: LIST,
    files: &[DOORS, ONE_DOOR],
    status: 0,
    text: "task 3 2\natom (open)\natom (painted)\natom (not open)\naction (shut) 3\npre 0\nadd 2\ndel 0\naction (paint) 2\npre 2\nadd 1\ndel\ninit 0\ngoal 1 2\n",
};

#[test]
fn a_listing_has_complements_of_atoms_that_are_required_absent(
    rt: HostRuntime,
) -> Result<(), Fail> {
    expect(&rt, rt.alloc(), &WITH_COMPLEMENTS, 5)
}

const WITHOUT_THE_WAY_BACK: Case<'static> = Case {
    words: LIST,
    files: &[BOATS, ONE_WAY],
    status: 0,
    text: "task 3 1\natom (at lark north)\natom (at lark south)\natom (lane north south)\naction (sail lark north south) 7\npre 0 2\nadd 1\ndel 0\ninit 0 2\ngoal 1\n",
};

#[test]
fn a_listing_has_no_action_that_can_never_start(rt: HostRuntime) -> Result<(), Fail> {
    expect(&rt, rt.alloc(), &WITHOUT_THE_WAY_BACK, 64)
}

const OUT_OF_REACH: Case<'static> = Case {
    words: LIST,
    files: &[
        ("d", "(define (domain g) (:predicates (won)))"),
        (
            "p",
            "(define (problem g) (:domain g) (:init) (:goal (won)))",
        ),
    ],
    status: 0,
    text: "task 1 0\natom (won)\ninit\ngoal 0\n",
};

#[test]
fn an_atom_that_cannot_be_reached_is_listed_where_the_goal_needs_it(
    rt: HostRuntime,
) -> Result<(), Fail> {
    expect(&rt, rt.alloc(), &OUT_OF_REACH, 1)
}

/// A plan over the boats and what is answered.
type Answered = (&'static str, u8, &'static str);

const OVER_BOATS: &[Answered] = &[
    ("0: (sail lark north south)\n", 0, "valid 7\n"),
    ("2.0: (SAIL Lark North South) [7.00]\n", 0, "valid 9\n"),
    ("", 1, "invalid: goal (at lark south) is missing\n"),
    (
        "0: (sail lark north south)\n7: (sail lark north south)\n",
        1,
        "invalid: line 2 lacks (at lark north) at 7\n",
    ),
    (
        "0: (sail lark north south) [4]\n",
        1,
        "invalid: line 1 must last 7\n",
    ),
    (
        "0: (sail lark south north)\n",
        1,
        "invalid: line 1 is unreachable\n",
    ),
    (
        "0: (sail lark south north) [7]\n",
        1,
        "invalid: line 1 must last 4\n",
    ),
    // There is no time for staying, and a port is no boat.
    (
        "0: (sail lark north north)\n",
        4,
        "fault: plan line 1: unknown\n",
    ),
    (
        "\n0: (sail north north south)\n",
        4,
        "fault: plan line 2: unknown\n",
    ),
];

fn expect_answered(rt: &impl Abort, alloc: Global, answered: &Answered) -> Result<(), Fail> {
    let case = Case {
        words: JUDGE,
        files: &[BOATS, ONE_WAY, ("n", answered.0)],
        status: answered.1,
        text: answered.2,
    };
    expect(rt, alloc, &case, 9)
}

fn expect_plans(rt: &impl Abort, alloc: Global, plans: &[Answered]) -> Result<(), Fail> {
    for answered in plans {
        expect_answered(rt, alloc, answered)?;
    }
    Ok(())
}

#[test]
fn plans_over_a_domain_and_a_problem(rt: HostRuntime) -> Result<(), Fail> {
    expect_plans(&rt, rt.alloc(), OVER_BOATS)
}

/// The door is shut first, or what may be painted only behind it is painted too early.
const OVER_DOORS: [Case<'static>; 2] = [
    Case {
        words: JUDGE,
        files: &[DOORS, ONE_DOOR, ("n", "0: (shut)\n3: (paint)\n")],
        status: 0,
        text: "valid 5\n",
    },
    Case {
        words: JUDGE,
        files: &[DOORS, ONE_DOOR, ("n", "0: (paint)\n")],
        status: 1,
        text: "invalid: line 1 lacks (not open) at 0\n",
    },
];

#[test]
fn plans_over_atoms_that_are_required_absent(rt: HostRuntime) -> Result<(), Fail> {
    expect_all(&rt, rt.alloc(), &OVER_DOORS)
}

const WITHOUT_A_PLAN: Case<'static> = Case {
    words: JUDGE,
    files: &[DOORS, ONE_DOOR],
    status: 7,
    text: "fault: read\n",
};

#[test]
fn the_plan_is_opened_once_the_task_is_made(rt: HostRuntime) -> Result<(), Fail> {
    expect(&rt, rt.alloc(), &WITHOUT_A_PLAN, 64)
}

/// An action on thirteen objects that no list of objects passes the test of, and a problem with three objects: there
/// are 3^13 lists.
const THIRTEEN: &[File] = &[
    (
        "d",
        "(define (domain d) (:predicates (g)) (:durative-action a :parameters (?a ?b ?c ?d ?e ?f ?h ?i ?j ?k ?l ?m ?n) :duration (= ?duration 1) :condition (at start (not (= ?a ?a))) :effect (at end (g))))",
    ),
    (
        "p",
        "(define (problem p) (:domain d) (:objects x y z) (:init) (:goal (g)))",
    ),
];

const TOO_MANY_LISTS: Case<'static> = Case {
    words: LIST,
    files: THIRTEEN,
    status: 6,
    text: "fault: limit instances\n",
};

#[test]
fn more_lists_of_objects_than_the_limit_are_refused_though_a_test_leaves_none(
    rt: HostRuntime,
) -> Result<(), Fail> {
    expect(&rt, rt.alloc(), &TOO_MANY_LISTS, 64)
}
