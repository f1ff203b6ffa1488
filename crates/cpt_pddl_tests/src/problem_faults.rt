//! Names, types, numbers of terms, values and limits in problem texts.

use crate::scene::{Cause, refused_problem};
use std::test::Fail;

#[test]
fn names_that_are_not_declared(rt: HostRuntime) -> Result<(), Fail> {
    refused_problem(
        &rt,
        rt.alloc(),
        Cause::BadName,
        &[
            "(define (problem q) (:domain d) (:objects b - ^v) (:init) (:goal ()))",
            "(define (problem q) (:domain d) (:objects b e - u) (:init (p ^?x)) (:goal ()))",
            "(define (problem q) (:domain d) (:objects b e - u) (:init (p ^zz)) (:goal ()))",
            "(define (problem q) (:domain d) (:objects b e - u) (:init (^or (g))) (:goal ()))",
            "(define (problem q) (:domain d) (:objects b e - u) (:init (^and (g))) (:goal ()))",
            "(define (problem q) (:domain d) (:objects b e - u) (:init (^over)) (:goal ()))",
            "(define (problem q) (:domain d) (:objects b e - u) (:init (^f b)) (:goal ()))",
            "(define (problem q) (:domain d) (:objects b e - u) (:init (^a)) (:goal ()))",
            "(define (problem q) (:domain d) (:objects b e - u) (:init (= (^v) 1)) (:goal ()))",
            "(define (problem q) (:domain d) (:objects b e - u) (:init (= (^p b) 1)) (:goal ()))",
            "(define (problem q) (:domain d) (:objects b e - u) (:init (= (f ^?x) 1)) (:goal ()))",
            "(define (problem q) (:domain d) (:objects b e - u) (:init (= (f ^zz) 1)) (:goal ()))",
            "(define (problem q) (:domain d) (:objects b e - u) (:init (p b) (^r)) (:goal ()))",
            "(define (problem q) (:domain d) (:objects b e - u) (:init) (:goal (^r)))",
            "(define (problem q) (:domain d) (:objects b e - u) (:init) (:goal (p ^zz)))",
            "(define (problem q) (:domain d) (:objects b e - u) (:init) (:goal (p ^?x)))",
            "(define (problem q) (:domain d) (:objects b e - u) (:init) (:goal (not (^r))))",
            "(define (problem q) (:domain d) (:objects b e - u) (:init) (:goal (not (p ^?x))))",
            "(define (problem q) (:domain d) (:objects b e - u) (:init) (:goal (and (g) (^f b))))",
        ],
    )
}

#[test]
fn what_stands_twice(rt: HostRuntime) -> Result<(), Fail> {
    refused_problem(
        &rt,
        rt.alloc(),
        Cause::Twice,
        &[
            "(define (problem q) (:domain d) (:objects b ^c) (:init) (:goal ()))",
            "(define (problem q) (:domain d) (:objects b ^b) (:init) (:goal ()))",
            "(define (problem q) (:domain d) (:objects b - u e ^b - t) (:init) (:goal ()))",
            "(define (problem q) (:domain d) (:objects b e - u) (:init (= (f b) 4) ^(= (f b) 4)) (:goal ()))",
            "(define (problem q) (:domain d) (:objects b e - u) (:init (= (f b) 4) (= (f e) 4) ^(= (f b) x)) (:goal ()))",
            "(define (problem q) (:domain d) (:objects b e - u) (:init (= (w) 4) ^(= (w))) (:goal ()))",
            "(define (problem q) (:domain d) (:objects b e - u) (:init (= (w) 4) (g) ^(= (w) (w))) (:goal ()))",
        ],
    )
}

#[test]
fn objects_of_a_wrong_type(rt: HostRuntime) -> Result<(), Fail> {
    refused_problem(
        &rt,
        rt.alloc(),
        Cause::BadType,
        &[
            "(define (problem q) (:domain d) (:objects b - u k) (:init (p ^k)) (:goal ()))",
            "(define (problem q) (:domain d) (:objects b - u k) (:init (= (f ^c) 1)) (:goal ()))",
            "(define (problem q) (:domain d) (:objects b - u k) (:init (= (f ^k) 0)) (:goal ()))",
            "(define (problem q) (:domain d) (:objects b - u k) (:init (at ^k)) (:goal ()))",
            "(define (problem q) (:domain d) (:objects b - u k) (:init) (:goal (p ^k)))",
            "(define (problem q) (:domain d) (:objects b - u k) (:init) (:goal (not (p ^k))))",
            "(define (problem q) (:domain d) (:objects b - u k) (:init) (:goal (and (p b) (p ^k))))",
        ],
    )
}

#[test]
fn wrong_numbers_of_objects(rt: HostRuntime) -> Result<(), Fail> {
    refused_problem(
        &rt,
        rt.alloc(),
        Cause::Arity,
        &[
            "(define (problem q) (:domain d) (:objects b e - u) (:init ^(p)) (:goal ()))",
            "(define (problem q) (:domain d) (:objects b e - u) (:init ^(g zz)) (:goal ()))",
            "(define (problem q) (:domain d) (:objects b e - u) (:init ^(p b zz)) (:goal ()))",
            "(define (problem q) (:domain d) (:objects b e - u) (:init ^(at)) (:goal ()))",
            "(define (problem q) (:domain d) (:objects b e - u) (:init ^(at b zz)) (:goal ()))",
            "(define (problem q) (:domain d) (:objects b e - u) (:init (= ^(f) 1)) (:goal ()))",
            "(define (problem q) (:domain d) (:objects b e - u) (:init (= ^(w b) 1)) (:goal ()))",
            "(define (problem q) (:domain d) (:objects b e - u) (:init (= ^(f b b) 1)) (:goal ()))",
            "(define (problem q) (:domain d) (:objects b e - u) (:init) (:goal ^(p)))",
            "(define (problem q) (:domain d) (:objects b e - u) (:init) (:goal ^(g ?x)))",
            "(define (problem q) (:domain d) (:objects b e - u) (:init) (:goal (and ^(g b))))",
            "(define (problem q) (:domain d) (:objects b e - u) (:init) (:goal (not ^(p))))",
        ],
    )
}

#[test]
fn numbers_that_are_no_values(rt: HostRuntime) -> Result<(), Fail> {
    refused_problem(
        &rt,
        rt.alloc(),
        Cause::Duration,
        &[
            "(define (problem q) (:domain d) (:objects b e - u) (:init (= (f b) ^0)) (:goal ()))",
            "(define (problem q) (:domain d) (:objects b e - u) (:init (= (f b) ^100001)) (:goal ()))",
            "(define (problem q) (:domain d) (:objects b e - u) (:init (= (f b) ^5.5)) (:goal ()))",
            "(define (problem q) (:domain d) (:objects b e - u) (:init (= (f b) ^x)) (:goal ()))",
            "(define (problem q) (:domain d) (:objects b e - u) (:init (= (w) ^4294967296)) (:goal ()))",
            "(define (problem q) (:domain d) (:objects b e - u) (:init (= (w) ^4294967297.0)) (:goal ()))",
            "(define (problem q) (:domain d) (:objects b e - u) (:init (= (w) ^5.)) (:goal ()))",
            "(define (problem q) (:domain d) (:objects b e - u) (:init (= (w) ^-1)) (:goal ()))",
            "(define (problem q) (:domain d) (:objects b e - u) (:init (= (w) ^b)) (:goal ()))",
            "(define (problem q) (:domain d) (:objects b e - u) (:init (= (w) ^340282366920938463463374607431768211456)) (:goal ()))",
            "(define (problem q) (:domain d) (:objects b e - u) (:init (= (f b) ^340282366920938463463374607431768211457)) (:goal ()))",
            "(define (problem q) (:domain d) (:objects b e - u) (:init (= (f b) ^0 0)) (:goal ()))",
        ],
    )
}

#[test]
fn other_domains(rt: HostRuntime) -> Result<(), Fail> {
    refused_problem(
        &rt,
        rt.alloc(),
        Cause::OtherDomain,
        &[
            "(define (problem q) (:domain ^e))",
            "(define (problem q) (:domain ^dd) x)",
            "(define (problem q) (:domain ^e x))",
        ],
    )
}
