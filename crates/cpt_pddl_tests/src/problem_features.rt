//! Forms that are not taken in problem texts.

use crate::scene::{Cause, refused_problem};
use cpt_domain::Feature;
use std::test::Fail;

#[test]
fn choices_of_types(rt: HostRuntime) -> Result<(), Fail> {
    refused_problem(
        &rt,
        rt.alloc(),
        Cause::Feature(Feature::Either),
        &[
            "(define (problem q) (:domain d) (:objects b - ^(either t u)) (:init) (:goal ()))",
            "(define (problem q) (:domain d) (:objects b - u e - ^(either)))",
        ],
    )
}

#[test]
fn sections_that_are_not_taken(rt: HostRuntime) -> Result<(), Fail> {
    refused_problem(
        &rt,
        rt.alloc(),
        Cause::Feature(Feature::Section),
        &[
            "(define (problem q) ^(:derived))",
            "(define (problem q) (:domain d) ^(:functions) (:init) (:goal ()))",
            "(define (problem q) (:domain d) ^(:constraints) (:init) (:goal ()))",
            "(define (problem q) (:domain d) (:objects b) ^(:process) (:init))",
            "(define (problem q) (:domain d) (:init) ^(:event) (:goal ()))",
            "(define (problem q) (:domain d) (:init) (:goal ()) ^(:constraints))",
            "(define (problem q) (:domain d) (:init) (:goal ()) ^(:derived))",
        ],
    )
}

#[test]
fn negations_and_times_in_init(rt: HostRuntime) -> Result<(), Fail> {
    refused_problem(
        &rt,
        rt.alloc(),
        Cause::Feature(Feature::Negative),
        &[
            "(define (problem q) (:domain d) (:objects b e - u) (:init ^(not (g))) (:goal ()))",
            "(define (problem q) (:domain d) (:objects b e - u) (:init (g) ^(not)) (:goal ()))",
        ],
    )
}

#[test]
fn equations_in_init(rt: HostRuntime) -> Result<(), Fail> {
    refused_problem(
        &rt,
        rt.alloc(),
        Cause::Feature(Feature::Numeric),
        &[
            "(define (problem q) (:domain d) (:objects b e - u) (:init ^(=)) (:goal ()))",
            "(define (problem q) (:domain d) (:objects b e - u) (:init ^(= 1 (w))) (:goal ()))",
            "(define (problem q) (:domain d) (:objects b e - u) (:init ^(= b e)) (:goal ()))",
            "(define (problem q) (:domain d) (:objects b e - u) (:init (g) ^(= w 1)) (:goal ()))",
        ],
    )
}

#[test]
fn timed_initial_atoms(rt: HostRuntime) -> Result<(), Fail> {
    refused_problem(
        &rt,
        rt.alloc(),
        Cause::Feature(Feature::Timed),
        &[
            "(define (problem q) (:domain d) (:objects b e - u) (:init ^(at 5 (g))) (:goal ()))",
            "(define (problem q) (:domain d) (:objects b e - u) (:init ^(at 5.0 (g))) (:goal ()))",
            "(define (problem q) (:domain d) (:objects b e - u) (:init (g) ^(at 0)) (:goal ()))",
            "(define (problem q) (:domain d) (:objects b e - u) (:init ^(at 99999999999999999999999999999999999999999999 x)) (:goal ()))",
        ],
    )
}

#[test]
fn equations_in_goals(rt: HostRuntime) -> Result<(), Fail> {
    refused_problem(
        &rt,
        rt.alloc(),
        Cause::Feature(Feature::GoalEquality),
        &[
            "(define (problem q) (:domain d) (:objects b e - u) (:init) (:goal ^(= b b)))",
            "(define (problem q) (:domain d) (:objects b e - u) (:init) (:goal ^(= (w) 1)))",
            "(define (problem q) (:domain d) (:objects b e - u) (:init) (:goal (and (g) ^(=))))",
            "(define (problem q) (:domain d) (:objects b e - u) (:init) (:goal (not ^(= b b))))",
            "(define (problem q) (:domain d) (:objects b e - u) (:init) (:goal (and (not ^(= zz)))))",
        ],
    )
}

#[test]
fn negations_of_compounds(rt: HostRuntime) -> Result<(), Fail> {
    refused_problem(
        &rt,
        rt.alloc(),
        Cause::Feature(Feature::Negative),
        &[
            "(define (problem q) (:domain d) (:objects b e - u) (:init) (:goal ^(not (and))))",
            "(define (problem q) (:domain d) (:objects b e - u) (:init) (:goal ^(not (or))))",
            "(define (problem q) (:domain d) (:objects b e - u) (:init) (:goal ^(not (not))))",
            "(define (problem q) (:domain d) (:objects b e - u) (:init) (:goal ^(not (imply))))",
            "(define (problem q) (:domain d) (:objects b e - u) (:init) (:goal ^(not (when))))",
            "(define (problem q) (:domain d) (:objects b e - u) (:init) (:goal ^(not (forall))))",
            "(define (problem q) (:domain d) (:objects b e - u) (:init) (:goal ^(not (exists))))",
            "(define (problem q) (:domain d) (:objects b e - u) (:init) (:goal ^(not (preference))))",
            "(define (problem q) (:domain d) (:objects b e - u) (:init) (:goal (and (g) ^(not (and (g))))))",
        ],
    )
}

#[test]
fn conditional_goals(rt: HostRuntime) -> Result<(), Fail> {
    refused_problem(
        &rt,
        rt.alloc(),
        Cause::Feature(Feature::Conditional),
        &[
            "(define (problem q) (:domain d) (:objects b e - u) (:init) (:goal ^(when (g) (g))))",
            "(define (problem q) (:domain d) (:objects b e - u) (:init) (:goal (and (g) ^(when))))",
        ],
    )
}

#[test]
fn quantified_goals(rt: HostRuntime) -> Result<(), Fail> {
    refused_problem(
        &rt,
        rt.alloc(),
        Cause::Feature(Feature::Quantifier),
        &[
            "(define (problem q) (:domain d) (:objects b e - u) (:init) (:goal ^(forall (?x) (g))))",
            "(define (problem q) (:domain d) (:objects b e - u) (:init) (:goal (and ^(exists (?x) (g)))))",
        ],
    )
}

#[test]
fn disjunctive_goals(rt: HostRuntime) -> Result<(), Fail> {
    refused_problem(
        &rt,
        rt.alloc(),
        Cause::Feature(Feature::Disjunction),
        &[
            "(define (problem q) (:domain d) (:objects b e - u) (:init) (:goal ^(or (g) (g))))",
            "(define (problem q) (:domain d) (:objects b e - u) (:init) (:goal (and (g) ^(imply (g) (g)))))",
        ],
    )
}

#[test]
fn preferred_goals(rt: HostRuntime) -> Result<(), Fail> {
    refused_problem(
        &rt,
        rt.alloc(),
        Cause::Feature(Feature::Preference),
        &[
            "(define (problem q) (:domain d) (:objects b e - u) (:init) (:goal ^(preference x (g))))",
            "(define (problem q) (:domain d) (:objects b e - u) (:init) (:goal (and ^(preference (g)))))",
        ],
    )
}

#[test]
fn numeric_goals(rt: HostRuntime) -> Result<(), Fail> {
    refused_problem(
        &rt,
        rt.alloc(),
        Cause::Feature(Feature::Numeric),
        &[
            "(define (problem q) (:domain d) (:objects b e - u) (:init) (:goal ^(< (w) 1)))",
            "(define (problem q) (:domain d) (:objects b e - u) (:init) (:goal ^(<= (w) 1)))",
            "(define (problem q) (:domain d) (:objects b e - u) (:init) (:goal ^(> (w) 1)))",
            "(define (problem q) (:domain d) (:objects b e - u) (:init) (:goal ^(>= (w) 1)))",
            "(define (problem q) (:domain d) (:objects b e - u) (:init) (:goal ^(increase (w) 1)))",
            "(define (problem q) (:domain d) (:objects b e - u) (:init) (:goal ^(decrease (w) 1)))",
            "(define (problem q) (:domain d) (:objects b e - u) (:init) (:goal ^(assign (w) 1)))",
            "(define (problem q) (:domain d) (:objects b e - u) (:init) (:goal ^(scale-up (w) 1)))",
            "(define (problem q) (:domain d) (:objects b e - u) (:init) (:goal ^(scale-down (w) 1)))",
            "(define (problem q) (:domain d) (:objects b e - u) (:init) (:goal (and (g) ^(<))))",
        ],
    )
}

#[test]
fn other_metrics(rt: HostRuntime) -> Result<(), Fail> {
    refused_problem(
        &rt,
        rt.alloc(),
        Cause::Feature(Feature::Metric),
        &[
            "(define (problem q) (:domain d) (:init) (:goal (g)) ^(:metric maximize (total-time)))",
            "(define (problem q) (:domain d) (:init) (:goal (g)) ^(:metric minimize (w)))",
            "(define (problem q) (:domain d) (:init) (:goal (g)) ^(:metric))",
            "(define (problem q) (:domain d) (:init) (:goal (g)) ^(:metric minimize))",
            "(define (problem q) (:domain d) (:init) (:goal (g)) ^(:metric minimize total-time x))",
            "(define (problem q) (:domain d) (:init) (:goal (g)) ^(:metric minimize (total-time) x))",
            "(define (problem q) (:domain d) (:init) (:goal (g)) ^(:metric minimize (total-time x)))",
            "(define (problem q) (:domain d) (:init) (:goal (g)) ^(:metric minimize ()))",
            "(define (problem q) (:domain d) (:init) (:goal (g)) ^(:metric (minimize) total-time))",
        ],
    )
}
