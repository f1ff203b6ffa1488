//! Names, types and numbers of terms in domain texts.

use crate::scene::{Cause, refused};
use std::test::Fail;

#[test]
fn names_that_are_not_declared(rt: HostRuntime) -> Result<(), Fail> {
    refused(
        &rt,
        rt.alloc(),
        Cause::BadName,
        &[
            "(define (domain d) (:constants c - ^u))",
            "(define (domain d) (:constants c - ^u) (:types u))",
            "(define (domain d) (:predicates (p ?x - ^u)))",
            "(define (domain d) (:functions (f ?x - ^u)))",
            "(define (domain d) (:action a :parameters (?x - ^u)))",
            "(define (domain d) (:predicates (p) (q ?x)) (:action a :precondition (^r)))",
            "(define (domain d) (:predicates (p) (q ?x)) (:action a :precondition (and (p) (^r))))",
            "(define (domain d) (:predicates (p) (q ?x)) (:action a :precondition (not (^r))))",
            "(define (domain d) (:predicates (p) (q ?x)) (:action a :effect (^r)))",
            "(define (domain d) (:predicates (p) (q ?x)) (:action a :effect (not (^r))))",
            "(define (domain d) (:predicates (p) (q ?x)) (:action a :effect (not (^forall (?x) (p)))))",
            "(define (domain d) (:predicates (p) (q ?x)) (:action a :precondition (^over all (p))))",
            "(define (domain d) (:predicates (p) (q ?x)) (:action a :effect (^over all (p))))",
            "(define (domain d) (:predicates (p) (q ?x)) (:action a :precondition (^at start (p))))",
            "(define (domain d) (:predicates (p) (q ?x)) (:action a :precondition (q ^?x)))",
            "(define (domain d) (:predicates (p) (q ?x)) (:action a :precondition (q ^c)))",
            "(define (domain d) (:predicates (p) (q ?x)) (:action a :parameters (?x) :precondition (= ?x ^?y)))",
            "(define (domain d) (:predicates (p) (q ?x)) (:action a :precondition (= ^c c)))",
            "(define (domain d) (:predicates (p) (q ?x)) (:action a :precondition (not (= ^?x ?x))))",
            "(define (domain d) (:predicates (p) (q ?x)) (:action a :effect (q ^?y)))",
            "(define (domain d) (:predicates (p) (q ?x)) (:functions (f) (h ?x)) (:durative-action a :duration (= ?duration (^g))))",
            "(define (domain d) (:predicates (p) (q ?x)) (:functions (f) (h ?x)) (:durative-action a :duration (= ?duration (^p))))",
            "(define (domain d) (:predicates (p) (q ?x)) (:functions (f) (h ?x)) (:durative-action a :duration (= ?duration (h ^?x))))",
            "(define (domain d) (:predicates (p) (q ?x)) (:functions (f) (h ?x)) (:durative-action a :duration (= ?duration (h ^c))))",
            "(define (domain d) (:predicates (p) (q ?x)) (:durative-action a :duration (= ?duration 2) :condition (over all (^r))))",
            "(define (domain d) (:predicates (p) (q ?x)) (:durative-action a :duration (= ?duration 2) :effect (at start (^r))))",
            "(define (domain d) (:predicates (p) (q ?x)) (:durative-action a :duration (= ?duration 2) :effect (and (at end (^zz)) (at end (q)))))",
            "(define (domain d) (:predicates (p) (q ?x)) (:durative-action a :duration (= ?duration 2) :effect (and (at start (p)) (at end (and (^zz) (not (p)))))))",
        ],
    )
}

#[test]
fn words_that_name_no_predicate(rt: HostRuntime) -> Result<(), Fail> {
    refused(
        &rt,
        rt.alloc(),
        Cause::BadName,
        &[
            "(define (domain d) (:predicates (p) (^and ?x)))",
            "(define (domain d) (:predicates (p) (^or ?x)))",
            "(define (domain d) (:predicates (p) (^not ?x)))",
            "(define (domain d) (:predicates (p) (^imply ?x)))",
            "(define (domain d) (:predicates (p) (^when ?x)))",
            "(define (domain d) (:predicates (p) (^forall ?x)))",
            "(define (domain d) (:predicates (p) (^exists ?x)))",
            "(define (domain d) (:predicates (p) (^preference ?x)))",
            "(define (domain d) (:predicates (p) (^over ?x)))",
            "(define (domain d) (:predicates (p) (^= ?x)))",
        ],
    )
}

#[test]
fn what_is_declared_twice(rt: HostRuntime) -> Result<(), Fail> {
    refused(
        &rt,
        rt.alloc(),
        Cause::Twice,
        &[
            "(define (domain d) (:types a ^a))",
            "(define (domain d) (:types a - b a2 ^a))",
            "(define (domain d) (:types a - b b - a c ^c))",
            "(define (domain d) (:constants c ^c))",
            "(define (domain d) (:types t) (:constants c - t ^c))",
            "(define (domain d) (:predicates (p) (^p ?x)))",
            "(define (domain d) (:predicates (p ?x ^?x)))",
            "(define (domain d) (:functions (f) - number (^f)))",
            "(define (domain d) (:functions (f ?x ^?x)))",
            "(define (domain d) (:action a) (:action ^a))",
            "(define (domain d) (:action a) (:durative-action ^a))",
            "(define (domain d) (:action a :parameters (?x - object ^?x)))",
            "(define (domain d) (:requirements) ^(:requirements))",
            "(define (domain d) (:types) ^(:types))",
            "(define (domain d) (:constants) (:types) ^(:constants))",
            "(define (domain d) (:predicates) ^(:predicates (1)))",
            "(define (domain d) (:functions) (:predicates) ^(:functions))",
        ],
    )
}

#[test]
fn types_that_go_in_a_circle(rt: HostRuntime) -> Result<(), Fail> {
    refused(
        &rt,
        rt.alloc(),
        Cause::BadType,
        &[
            "(define (domain d) ^(:types a - b b - a))",
            "(define (domain d) ^(:types a - a))",
            "(define (domain d) ^(:types a - b b - c c - a))",
            "(define (domain d) ^(:types object - t))",
            "(define (domain d) (:predicates (p)) ^(:types x a - b b - a y))",
            "(define (domain d) ^(:types t - object object - t))",
        ],
    )
}

#[test]
fn terms_of_a_wrong_type(rt: HostRuntime) -> Result<(), Fail> {
    refused(
        &rt,
        rt.alloc(),
        Cause::BadType,
        &[
            "(define (domain d) (:types b - a z) (:constants k - a) (:predicates (m ?x - b) (n ?x - a ?y - z)) (:functions (f ?x - b)) (:action x :precondition (m ^k)))",
            "(define (domain d) (:types b - a z) (:constants k - a) (:predicates (m ?x - b) (n ?x - a ?y - z)) (:functions (f ?x - b)) (:action x :parameters (?v) :precondition (m ^?v)))",
            "(define (domain d) (:types b - a z) (:constants k - a) (:predicates (m ?x - b) (n ?x - a ?y - z)) (:functions (f ?x - b)) (:action x :parameters (?v - a) :effect (m ^?v)))",
            "(define (domain d) (:types b - a z) (:constants k - a) (:predicates (m ?x - b) (n ?x - a ?y - z)) (:functions (f ?x - b)) (:action x :parameters (?v - a) :effect (not (m ^?v))))",
            "(define (domain d) (:types b - a z) (:constants k - a) (:predicates (m ?x - b) (n ?x - a ?y - z)) (:functions (f ?x - b)) (:action x :parameters (?v - b) :precondition (and (m ?v) (n ?v ^?v))))",
            "(define (domain d) (:types b - a z) (:constants k - a) (:predicates (m ?x - b) (n ?x - a ?y - z)) (:functions (f ?x - b)) (:action x :precondition (not (m ^k))))",
            "(define (domain d) (:types b - a z) (:constants k - a) (:predicates (m ?x - b) (n ?x - a ?y - z)) (:functions (f ?x - b)) (:durative-action x :duration (= ?duration (f ^k))))",
            "(define (domain d) (:types b - a z) (:constants k - a) (:predicates (m ?x - b) (n ?x - a ?y - z)) (:functions (f ?x - b)) (:durative-action x :parameters (?v - z) :duration (= ?duration 1) :condition (at end (m ^?v))))",
        ],
    )
}

#[test]
fn wrong_numbers_of_terms(rt: HostRuntime) -> Result<(), Fail> {
    refused(
        &rt,
        rt.alloc(),
        Cause::Arity,
        &[
            "(define (domain d) (:predicates (p) (q ?x)) (:action a :precondition ^(p zz)))",
            "(define (domain d) (:predicates (p) (q ?x)) (:action a :precondition ^(p ?x)))",
            "(define (domain d) (:predicates (p) (q ?x)) (:action a :precondition ^(q)))",
            "(define (domain d) (:predicates (p) (q ?x)) (:action a :precondition (and (p) ^(q))))",
            "(define (domain d) (:predicates (p) (q ?x)) (:action a :precondition (not ^(q))))",
            "(define (domain d) (:predicates (p) (q ?x)) (:action a :effect ^(q)))",
            "(define (domain d) (:predicates (p) (q ?x)) (:action a :effect ^(p c)))",
            "(define (domain d) (:predicates (p) (q ?x)) (:action a :effect (not ^(q))))",
            "(define (domain d) (:predicates (p) (q ?x)) (:action a :parameters (?x) :precondition ^(q ?x ?x)))",
            "(define (domain d) (:predicates (p) (q ?x)) (:action a :parameters (?x) :precondition ^(q ?x zz)))",
            "(define (domain d) (:predicates (p) (q ?x)) (:functions (f) (h ?x)) (:durative-action a :duration (= ?duration ^(h))))",
            "(define (domain d) (:predicates (p) (q ?x)) (:functions (f) (h ?x)) (:durative-action a :duration (= ?duration ^(f c))))",
            "(define (domain d) (:predicates (p) (q ?x)) (:durative-action a :duration (= ?duration 2) :condition (at start ^(q))))",
            "(define (domain d) (:predicates (p) (q ?x)) (:durative-action a :duration (= ?duration 2) :effect (at end ^(q))))",
        ],
    )
}
