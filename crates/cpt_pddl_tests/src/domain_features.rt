//! Forms that are not taken in domain texts, durations, and windows.

use crate::scene::{Cause, refused, taken};
use cpt_domain::Feature;
use std::test::Fail;

#[test]
fn choices_of_types(rt: HostRuntime) -> Result<(), Fail> {
    refused(
        &rt,
        rt.alloc(),
        Cause::Feature(Feature::Either),
        &[
            "(define (domain d) (:types a - ^(either b c)))",
            "(define (domain d) (:constants c - ^(either)))",
            "(define (domain d) (:predicates (p ?x - ^(either a b))))",
            "(define (domain d) (:functions (f ?x - ^(either object))))",
            "(define (domain d) (:action a :parameters (?x - ^(either object))))",
        ],
    )
}

#[test]
fn sections_that_are_not_taken(rt: HostRuntime) -> Result<(), Fail> {
    refused(
        &rt,
        rt.alloc(),
        Cause::Feature(Feature::Section),
        &[
            "(define (domain d) ^(:derived (p) (q)))",
            "(define (domain d) ^(:constraints))",
            "(define (domain d) (:predicates (p)) ^(:process x))",
            "(define (domain d) ^(:event))",
        ],
    )
}

#[test]
fn conditional_effects(rt: HostRuntime) -> Result<(), Fail> {
    refused(
        &rt,
        rt.alloc(),
        Cause::Feature(Feature::Conditional),
        &[
            "(define (domain d) (:predicates (p) (q ?x)) (:action a :effect ^(when (p) (p))))",
            "(define (domain d) (:predicates (p) (q ?x)) (:action a :precondition ^(when)))",
            "(define (domain d) (:predicates (p) (q ?x)) (:action a :effect (and (p) ^(when (p) (p)))))",
            "(define (domain d) (:predicates (p) (q ?x)) (:durative-action a :duration (= ?duration 2) :effect ^(when (at start (p)) (at end (p)))))",
            "(define (domain d) (:predicates (p) (q ?x)) (:durative-action a :duration (= ?duration 2) :effect (at end ^(when (p) (p)))))",
            "(define (domain d) (:predicates (p) (q ?x)) (:durative-action a :duration (= ?duration 2) :condition (at start ^(when))))",
        ],
    )
}

#[test]
fn quantifiers(rt: HostRuntime) -> Result<(), Fail> {
    refused(
        &rt,
        rt.alloc(),
        Cause::Feature(Feature::Quantifier),
        &[
            "(define (domain d) (:predicates (p) (q ?x)) (:action a :precondition ^(forall (?x) (p))))",
            "(define (domain d) (:predicates (p) (q ?x)) (:action a :precondition (and (p) ^(exists (?x) (p)))))",
            "(define (domain d) (:predicates (p) (q ?x)) (:action a :effect ^(forall (?x) (p))))",
            "(define (domain d) (:predicates (p) (q ?x)) (:action a :effect (and ^(exists))))",
            "(define (domain d) (:predicates (p) (q ?x)) (:durative-action a :duration (= ?duration 2) :condition ^(forall (?x) (at start (p)))))",
            "(define (domain d) (:predicates (p) (q ?x)) (:durative-action a :duration (= ?duration 2) :condition (over all ^(exists))))",
            "(define (domain d) (:predicates (p) (q ?x)) (:durative-action a :duration (= ?duration 2) :effect ^(forall (?x) (at end (p)))))",
        ],
    )
}

#[test]
fn disjunctions(rt: HostRuntime) -> Result<(), Fail> {
    refused(
        &rt,
        rt.alloc(),
        Cause::Feature(Feature::Disjunction),
        &[
            "(define (domain d) (:predicates (p) (q ?x)) (:action a :precondition ^(or (p) (p))))",
            "(define (domain d) (:predicates (p) (q ?x)) (:action a :precondition (and ^(imply (p) (p)))))",
            "(define (domain d) (:predicates (p) (q ?x)) (:action a :effect ^(or)))",
            "(define (domain d) (:predicates (p) (q ?x)) (:durative-action a :duration (= ?duration 2) :condition ^(or (at start (p)))))",
            "(define (domain d) (:predicates (p) (q ?x)) (:durative-action a :duration (= ?duration 2) :condition (at end ^(imply (p) (p)))))",
            "(define (domain d) (:predicates (p) (q ?x)) (:durative-action a :duration (= ?duration 2) :effect ^(imply)))",
        ],
    )
}

#[test]
fn preferences(rt: HostRuntime) -> Result<(), Fail> {
    refused(
        &rt,
        rt.alloc(),
        Cause::Feature(Feature::Preference),
        &[
            "(define (domain d) (:predicates (p) (q ?x)) (:action a :precondition ^(preference x (p))))",
            "(define (domain d) (:predicates (p) (q ?x)) (:action a :precondition (and (p) ^(preference (p)))))",
            "(define (domain d) (:predicates (p) (q ?x)) (:action a :effect ^(preference)))",
            "(define (domain d) (:predicates (p) (q ?x)) (:durative-action a :duration (= ?duration 2) :condition ^(preference x (at start (p)))))",
            "(define (domain d) (:predicates (p) (q ?x)) (:durative-action a :duration (= ?duration 2) :condition (over all ^(preference x (p)))))",
        ],
    )
}

#[test]
fn negations_of_compounds(rt: HostRuntime) -> Result<(), Fail> {
    refused(
        &rt,
        rt.alloc(),
        Cause::Feature(Feature::Negative),
        &[
            "(define (domain d) (:predicates (p) (q ?x)) (:action a :precondition ^(not (and))))",
            "(define (domain d) (:predicates (p) (q ?x)) (:action a :precondition ^(not (or))))",
            "(define (domain d) (:predicates (p) (q ?x)) (:action a :precondition ^(not (not))))",
            "(define (domain d) (:predicates (p) (q ?x)) (:action a :precondition ^(not (imply))))",
            "(define (domain d) (:predicates (p) (q ?x)) (:action a :precondition ^(not (when))))",
            "(define (domain d) (:predicates (p) (q ?x)) (:action a :precondition ^(not (forall))))",
            "(define (domain d) (:predicates (p) (q ?x)) (:action a :precondition ^(not (exists))))",
            "(define (domain d) (:predicates (p) (q ?x)) (:action a :precondition ^(not (preference))))",
            "(define (domain d) (:predicates (p) (q ?x)) (:action a :precondition (and (p) ^(not (and (p))))))",
            "(define (domain d) (:predicates (p) (q ?x)) (:durative-action a :duration (= ?duration 2) :condition (over all ^(not (or (p))))))",
            "(define (domain d) (:predicates (p) (q ?x)) (:durative-action a :duration (= ?duration 2) :condition ^(not (and))))",
        ],
    )
}

#[test]
fn comparisons_and_changes_of_numbers(rt: HostRuntime) -> Result<(), Fail> {
    refused(
        &rt,
        rt.alloc(),
        Cause::Feature(Feature::Numeric),
        &[
            "(define (domain d) (:predicates (p) (q ?x)) (:action a :precondition ^(< (f) 1)))",
            "(define (domain d) (:predicates (p) (q ?x)) (:action a :precondition ^(<= (f) 1)))",
            "(define (domain d) (:predicates (p) (q ?x)) (:action a :precondition ^(> (f) 1)))",
            "(define (domain d) (:predicates (p) (q ?x)) (:action a :precondition ^(>= (f) 1)))",
            "(define (domain d) (:predicates (p) (q ?x)) (:action a :effect ^(increase (f) 1)))",
            "(define (domain d) (:predicates (p) (q ?x)) (:action a :effect ^(decrease (f) 1)))",
            "(define (domain d) (:predicates (p) (q ?x)) (:action a :effect ^(assign (f) 1)))",
            "(define (domain d) (:predicates (p) (q ?x)) (:action a :effect ^(scale-up (f) 1)))",
            "(define (domain d) (:predicates (p) (q ?x)) (:action a :effect ^(scale-down (f) 1)))",
            "(define (domain d) (:predicates (p) (q ?x)) (:action a :precondition ^(increase)))",
            "(define (domain d) (:predicates (p) (q ?x)) (:action a :effect (and ^(<))))",
            "(define (domain d) (:predicates (p) (q ?x)) (:action a :precondition ^(= (f) 1)))",
            "(define (domain d) (:predicates (p) (q ?x)) (:action a :precondition ^(= zz (f))))",
            "(define (domain d) (:predicates (p) (q ?x)) (:action a :precondition (not ^(= (f) zz))))",
            "(define (domain d) (:predicates (p) (q ?x)) (:durative-action a :duration (= ?duration 2) :condition ^(>= (f) 1)))",
            "(define (domain d) (:predicates (p) (q ?x)) (:durative-action a :duration (= ?duration 2) :condition (at start ^(= (f) 1))))",
            "(define (domain d) (:predicates (p) (q ?x)) (:durative-action a :duration (= ?duration 2) :condition ^(= (f) 1)))",
            "(define (domain d) (:predicates (p) (q ?x)) (:durative-action a :duration (= ?duration 2) :effect ^(assign (f) 1)))",
            "(define (domain d) (:predicates (p) (q ?x)) (:durative-action a :duration (= ?duration 2) :effect (at end ^(increase (f) 1))))",
        ],
    )
}

#[test]
fn durations_of_other_forms(rt: HostRuntime) -> Result<(), Fail> {
    refused(
        &rt,
        rt.alloc(),
        Cause::Feature(Feature::Duration),
        &[
            "(define (domain d) (:predicates (p) (q ?x)) (:functions (f) (h ?x)) (:durative-action a :duration ^(>= ?duration 5)))",
            "(define (domain d) (:predicates (p) (q ?x)) (:functions (f) (h ?x)) (:durative-action a :duration ^(= 5 ?duration)))",
            "(define (domain d) (:predicates (p) (q ?x)) (:functions (f) (h ?x)) (:durative-action a :duration ^(and (= ?duration 5))))",
            "(define (domain d) (:predicates (p) (q ?x)) (:functions (f) (h ?x)) (:durative-action a :duration ^(?duration 5)))",
            "(define (domain d) (:predicates (p) (q ?x)) (:functions (f) (h ?x)) (:durative-action a :duration ^()))",
            "(define (domain d) (:predicates (p) (q ?x)) (:functions (f) (h ?x)) (:durative-action a :duration ^((=) ?duration 5)))",
            "(define (domain d) (:predicates (p) (q ?x)) (:functions (f) (h ?x)) (:durative-action a :duration ^(= (f) 5)))",
            "(define (domain d) (:predicates (p) (q ?x)) (:functions (f) (h ?x)) (:durative-action a :duration ^(= ?duration ?x)))",
            "(define (domain d) (:predicates (p) (q ?x)) (:functions (f) (h ?x)) (:durative-action a :duration ^(= ?duration ?)))",
            "(define (domain d) (:predicates (p) (q ?x)) (:functions (f) (h ?x)) (:durative-action a :duration ^(= ?duration (+ 1 2))))",
            "(define (domain d) (:predicates (p) (q ?x)) (:functions (f) (h ?x)) (:durative-action a :duration ^(= ?duration (- 2 1))))",
            "(define (domain d) (:predicates (p) (q ?x)) (:functions (f) (h ?x)) (:durative-action a :duration ^(= ?duration (* 2 (f)))))",
            "(define (domain d) (:predicates (p) (q ?x)) (:functions (f) (h ?x)) (:durative-action a :duration ^(= ?duration (/ 4 2))))",
        ],
    )
}

#[test]
fn numbers_that_are_no_durations(rt: HostRuntime) -> Result<(), Fail> {
    refused(
        &rt,
        rt.alloc(),
        Cause::Duration,
        &[
            "(define (domain d) (:predicates (p) (q ?x)) (:functions (f) (h ?x)) (:durative-action a :duration (= ?duration ^0)))",
            "(define (domain d) (:predicates (p) (q ?x)) (:functions (f) (h ?x)) (:durative-action a :duration (= ?duration ^100001)))",
            "(define (domain d) (:predicates (p) (q ?x)) (:functions (f) (h ?x)) (:durative-action a :duration (= ?duration ^5.)))",
            "(define (domain d) (:predicates (p) (q ?x)) (:functions (f) (h ?x)) (:durative-action a :duration (= ?duration ^5.5)))",
            "(define (domain d) (:predicates (p) (q ?x)) (:functions (f) (h ?x)) (:durative-action a :duration (= ?duration ^.0)))",
            "(define (domain d) (:predicates (p) (q ?x)) (:functions (f) (h ?x)) (:durative-action a :duration (= ?duration ^-1)))",
            "(define (domain d) (:predicates (p) (q ?x)) (:functions (f) (h ?x)) (:durative-action a :duration (= ?duration ^+1)))",
            "(define (domain d) (:predicates (p) (q ?x)) (:functions (f) (h ?x)) (:durative-action a :duration (= ?duration ^x)))",
            "(define (domain d) (:predicates (p) (q ?x)) (:functions (f) (h ?x)) (:durative-action a :duration (= ?duration ^1e3)))",
            "(define (domain d) (:predicates (p) (q ?x)) (:functions (f) (h ?x)) (:durative-action a :duration (= ?duration ^0.0)))",
            "(define (domain d) (:predicates (p) (q ?x)) (:functions (f) (h ?x)) (:durative-action a :duration (= ?duration ^4294967297)))",
            "(define (domain d) (:predicates (p) (q ?x)) (:functions (f) (h ?x)) (:durative-action a :duration (= ?duration ^18446744073709551617)))",
            "(define (domain d) (:predicates (p) (q ?x)) (:functions (f) (h ?x)) (:durative-action a :duration (= ?duration ^340282366920938463463374607431768211456)))",
            "(define (domain d) (:predicates (p) (q ?x)) (:functions (f) (h ?x)) (:durative-action a :duration (= ?duration ^340282366920938463463374607431768211457)))",
            "(define (domain d) (:predicates (p) (q ?x)) (:functions (f) (h ?x)) (:durative-action a :duration (= ?duration ^1000000000000000000000000000000000000000000000000000000000001.0)))",
        ],
    )
}

#[test]
fn durations_that_are_taken(rt: HostRuntime) -> Result<(), Fail> {
    taken(
        &rt,
        rt.alloc(),
        &[
            "(define (domain d) (:predicates (p) (q ?x)) (:functions (f) (h ?x)) (:durative-action a :duration (= ?duration 1)))",
            "(define (domain d) (:predicates (p) (q ?x)) (:functions (f) (h ?x)) (:durative-action a :duration (= ?duration 100000)))",
            "(define (domain d) (:predicates (p) (q ?x)) (:functions (f) (h ?x)) (:durative-action a :duration (= ?duration 007.000)))",
            "(define (domain d) (:predicates (p) (q ?x)) (:functions (f) (h ?x)) (:durative-action a :duration (= ?duration 00000000000000000000000000000000000000000000000000000005)))",
            "(define (domain d) (:predicates (p) (q ?x)) (:functions (f) (h ?x)) (:durative-action a :duration (= ?duration (f))))",
        ],
    )
}

#[test]
fn windows(rt: HostRuntime) -> Result<(), Fail> {
    refused(
        &rt,
        rt.alloc(),
        Cause::Window,
        &[
            "(define (domain d) (:predicates (p) (q ?x)) (:durative-action a :duration (= ?duration 2) :effect (and (at start (p)) ^(at end (not (p))))))",
            "(define (domain d) (:predicates (p) (q ?x)) (:durative-action a :duration (= ?duration 2) :effect (and (at end (not (p))) ^(at start (p)))))",
            "(define (domain d) (:predicates (p) (q ?x)) (:durative-action a :duration (= ?duration 2) :effect (and (at start (and (p))) ^(at end (not (p))))))",
            "(define (domain d) (:predicates (p) (q ?x)) (:durative-action a :duration (= ?duration 2) :effect (and (at start (p)) (at end (p)) ^(at end (and (p) (not (p)))))))",
            "(define (domain d) (:predicates (p) (q ?x)) (:durative-action a :duration (= ?duration 2) :effect (and (at start (p)) ^(at end (and (not (p)) (zz))))))",
            "(define (domain d) (:predicates (p) (q ?x)) (:durative-action a :duration (= ?duration 2) :effect (and (at end (and (not (p)) (p))) (at start (not (p))) ^(at start (p)))))",
            "(define (domain d) (:predicates (p) (q ?x)) (:durative-action a :duration (= ?duration 2) :effect (and (and (at start (p))) (and ^(at end (not (p)))))))",
            "(define (domain d) (:predicates (p) (q ?x)) (:durative-action a :parameters (?v ?w) :duration (= ?duration 2) :effect (and (at start (q ?v)) (at end (not (q ?w))) ^(at end (not (q ?v))))))",
            "(define (domain d) (:predicates (p) (q ?x)) (:durative-action a :parameters (?v ?w) :duration (= ?duration 2) :effect (and (at end (not (q ?w))) (at start (q ?v)) ^(at start (q ?w)))))",
        ],
    )
}

#[test]
fn what_is_no_window(rt: HostRuntime) -> Result<(), Fail> {
    taken(
        &rt,
        rt.alloc(),
        &[
            "(define (domain d) (:predicates (p) (q ?x)) (:durative-action a :duration (= ?duration 2) :effect (and (at start (p)) (at end (p)))))",
            "(define (domain d) (:predicates (p) (q ?x)) (:durative-action a :duration (= ?duration 2) :effect (and (at start (not (p))) (at end (p)))))",
            "(define (domain d) (:predicates (p) (q ?x)) (:durative-action a :duration (= ?duration 2) :effect (and (at start (and (p) (not (p)))))))",
            "(define (domain d) (:predicates (p) (q ?x)) (:durative-action a :duration (= ?duration 2) :effect (at end (and (not (p)) (p)))))",
            "(define (domain d) (:predicates (p) (q ?x)) (:durative-action a :parameters (?v ?w) :duration (= ?duration 2) :effect (and (at start (q ?v)) (at end (not (q ?w))))))",
        ],
    )
}
