//! Problem texts that are not in the grammar.

use crate::scene::{Cause, refused_problem, taken_problem};
use std::test::Fail;

#[test]
fn what_is_around_a_problem(rt: HostRuntime) -> Result<(), Fail> {
    refused_problem(
        &rt,
        rt.alloc(),
        Cause::Shape,
        &[
            "^",
            "^x",
            "(^problem q)",
            "(^)",
            "(define^)",
            "(define ^q)",
            "(define (^domain d))",
            "(define (problem^))",
            "(define (problem ^1))",
            "(define (problem q ^r))",
            "(define (problem q)^)",
            "(define (problem q) ^d)",
            "(define (problem q) (^))",
            "(define (problem q) (^(d)))",
            "(define (problem q) (^:init))",
            "(define (problem q) (:domain^))",
            "(define (problem q) (:domain ^1))",
            "(define (problem q) (:domain d ^d))",
            "(define (problem q) (:domain d) (:objects b e - u) (:init ) (:goal ())) ^x",
        ],
    )
}

#[test]
fn sections_of_a_problem(rt: HostRuntime) -> Result<(), Fail> {
    refused_problem(
        &rt,
        rt.alloc(),
        Cause::Shape,
        &[
            "(define (problem q) (:domain d) ^x)",
            "(define (problem q) (:domain d) (^:goal ()))",
            "(define (problem q) (:domain d) (^:foo))",
            "(define (problem q) (:domain d) (:init)^)",
            "(define (problem q) (:domain d) (:init) ^x)",
            "(define (problem q) (:domain d) (:init) (^:metric))",
            "(define (problem q) (:domain d) (:init) (^:init) (:goal ()))",
            "(define (problem q) (:domain d) (:objects) (^:objects) (:init) (:goal ()))",
            "(define (problem q) (:domain d) (:objects) (^:requirements) (:init) (:goal ()))",
            "(define (problem q) (:domain d) (:requirements) (^:requirements) (:init) (:goal ()))",
            "(define (problem q) (:domain d) (:requirements ^(x)) (:init) (:goal ()))",
            "(define (problem q) (:domain d) (:objects ^1) (:init) (:goal ()))",
            "(define (problem q) (:domain d) (:objects b -^) (:init) (:goal ()))",
            "(define (problem q) (:domain d) (:objects ^- u) (:init) (:goal ()))",
            "(define (problem q) (:domain d) (:objects ^?b) (:init) (:goal ()))",
            "(define (problem q) (:domain d) (:init) (:goal^))",
            "(define (problem q) (:domain d) (:init) (:goal ^g))",
            "(define (problem q) (:domain d) (:init) (:goal (g) ^(g)))",
            "(define (problem q) (:domain d) (:init) (:goal (g)) (^:goal (g)))",
            "(define (problem q) (:domain d) (:init) (:goal (g)) (^:init))",
            "(define (problem q) (:domain d) (:init) (:goal (g)) (^))",
            "(define (problem q) (:domain d) (:init) (:goal (g)) ^x)",
            "(define (problem q) (:domain d) (:init) (:goal (g)) (:metric minimize (total-time)) ^(:derived))",
            "(define (problem q) (:domain d) (:init) (:goal (g)) (:metric minimize total-time) ^x)",
            "(define (problem q) (:domain d) (:init) (:goal (g)) (:metric minimize total-time) ^(:metric minimize total-time))",
        ],
    )
}

#[test]
fn items_of_init(rt: HostRuntime) -> Result<(), Fail> {
    refused_problem(
        &rt,
        rt.alloc(),
        Cause::Shape,
        &[
            "(define (problem q) (:domain d) (:objects b e - u) (:init ^g) (:goal ()))",
            "(define (problem q) (:domain d) (:objects b e - u) (:init (^)) (:goal ()))",
            "(define (problem q) (:domain d) (:objects b e - u) (:init (^1)) (:goal ()))",
            "(define (problem q) (:domain d) (:objects b e - u) (:init (^?x)) (:goal ()))",
            "(define (problem q) (:domain d) (:objects b e - u) (:init (^(g))) (:goal ()))",
            "(define (problem q) (:domain d) (:objects b e - u) (:init (^< 1)) (:goal ()))",
            "(define (problem q) (:domain d) (:objects b e - u) (:init (p ^(b))) (:goal ()))",
            "(define (problem q) (:domain d) (:objects b e - u) (:init (p ^1)) (:goal ()))",
            "(define (problem q) (:domain d) (:objects b e - u) (:init (g ^1)) (:goal ()))",
            "(define (problem q) (:domain d) (:objects b e - u) (:init (at ^5.5 (g))) (:goal ()))",
            "(define (problem q) (:domain d) (:objects b e - u) (:init (at ^5. (g))) (:goal ()))",
            "(define (problem q) (:domain d) (:objects b e - u) (:init (at ^(g))) (:goal ()))",
            "(define (problem q) (:domain d) (:objects b e - u) (:init (= (^) 1)) (:goal ()))",
            "(define (problem q) (:domain d) (:objects b e - u) (:init (= (^1) 1)) (:goal ()))",
            "(define (problem q) (:domain d) (:objects b e - u) (:init (= (^(f)) 1)) (:goal ()))",
            "(define (problem q) (:domain d) (:objects b e - u) (:init (= (f b)^)) (:goal ()))",
            "(define (problem q) (:domain d) (:objects b e - u) (:init (= (f b) ^(w))) (:goal ()))",
            "(define (problem q) (:domain d) (:objects b e - u) (:init (= (f b) 1 ^2)) (:goal ()))",
            "(define (problem q) (:domain d) (:objects b e - u) (:init (= (f ^(b)) 1)) (:goal ()))",
        ],
    )
}

#[test]
fn goals(rt: HostRuntime) -> Result<(), Fail> {
    refused_problem(
        &rt,
        rt.alloc(),
        Cause::Shape,
        &[
            "(define (problem q) (:domain d) (:objects b e - u) (:init) (:goal (^1)))",
            "(define (problem q) (:domain d) (:objects b e - u) (:init) (:goal (^(g))))",
            "(define (problem q) (:domain d) (:objects b e - u) (:init) (:goal (and ^g)))",
            "(define (problem q) (:domain d) (:objects b e - u) (:init) (:goal (and (g) ^x)))",
            "(define (problem q) (:domain d) (:objects b e - u) (:init) (:goal (not^)))",
            "(define (problem q) (:domain d) (:objects b e - u) (:init) (:goal (not ^g)))",
            "(define (problem q) (:domain d) (:objects b e - u) (:init) (:goal (not (^))))",
            "(define (problem q) (:domain d) (:objects b e - u) (:init) (:goal (not (^1))))",
            "(define (problem q) (:domain d) (:objects b e - u) (:init) (:goal (not (^(g)))))",
            "(define (problem q) (:domain d) (:objects b e - u) (:init) (:goal (not (g) ^x)))",
            "(define (problem q) (:domain d) (:objects b e - u) (:init) (:goal (not (^< 1 2))))",
            "(define (problem q) (:domain d) (:objects b e - u) (:init) (:goal (p ^(b))))",
            "(define (problem q) (:domain d) (:objects b e - u) (:init) (:goal (p ^?)))",
        ],
    )
}

#[test]
fn problems_that_are_taken(rt: HostRuntime) -> Result<(), Fail> {
    taken_problem(
        &rt,
        rt.alloc(),
        &[
            "(define (problem q) (:domain d) (:init) (:goal ()))",
            "(define (problem q) (:domain d) (:requirements :x 5) (:objects) (:init) (:goal (and)))",
            "(define (problem q) (:domain d) (:objects b - u e) (:init (p b) (p b) (g)) (:goal (and (g) (and) (not (g)) (g))))",
            "(define (problem q) (:domain d) (:init) (:goal (g)) (:metric minimize (total-time)))",
            "(define (problem q) (:domain d) (:init) (:goal (g)) (:metric minimize total-time))",
            "(define (problem q) (:domain d) (:objects b e - u) (:init (= (f b) 1) (= (f e) 1) (= (w) 0)) (:goal ()))",
            "(define (problem q) (:domain d) (:objects b e - u) (:init (= (w) 4294967295)) (:goal ()))",
            "(define (problem q) (:domain d) (:objects b e - u) (:init (= (w) 4294967295.0)) (:goal ()))",
            "(define (problem q) (:domain d) (:objects b e - u) (:init (= (f b) 100000) (at c)) (:goal ()))",
            "(define (problem q) (:domain d) (:objects b e - u) (:init (p c)) (:goal ()))",
        ],
    )
}
