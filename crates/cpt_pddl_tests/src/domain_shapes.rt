//! Domain texts that are not in the grammar.

use crate::scene::{Cause, refused, taken};
use std::test::Fail;

#[test]
fn what_is_around_a_domain(rt: HostRuntime) -> Result<(), Fail> {
    refused(
        &rt,
        rt.alloc(),
        Cause::Shape,
        &[
            "^",
            "^x",
            "(^domain d)",
            "(^(define))",
            "(^)",
            "(define^)",
            "(define ^d)",
            "(define (^problem p))",
            "(define (^))",
            "(define (domain^))",
            "(define (domain ^1d))",
            "(define (domain ^(d)))",
            "(define (domain d ^e))",
            "(define (domain d)) ^x",
            "(define (domain d)) ^()",
            " ; a comment\n(define (domain ^?d))",
        ],
    )
}

#[test]
fn sections(rt: HostRuntime) -> Result<(), Fail> {
    refused(
        &rt,
        rt.alloc(),
        Cause::Shape,
        &[
            "(define (domain d) ^x)",
            "(define (domain d) (^))",
            "(define (domain d) (^(p)))",
            "(define (domain d) (^:foo))",
            "(define (domain d) (^types a))",
            "(define (domain d) (:requirements :typing ^(a)))",
            "(define (domain d) (:action a) (^:predicates (p)))",
            "(define (domain d) (:action a) (^:derived (p)))",
            "(define (domain d) (:action a) (^:foo))",
            "(define (domain d) (:predicates (p)) (:action a) (^:predicates (q)))",
        ],
    )
}

#[test]
fn typed_lists(rt: HostRuntime) -> Result<(), Fail> {
    refused(
        &rt,
        rt.alloc(),
        Cause::Shape,
        &[
            "(define (domain d) (:types ^- object))",
            "(define (domain d) (:types a - object ^- object))",
            "(define (domain d) (:types a -^))",
            "(define (domain d) (:types a - ^(b c)))",
            "(define (domain d) (:types a - ^()))",
            "(define (domain d) (:types a - ^?x))",
            "(define (domain d) (:types ^1))",
            "(define (domain d) (:types ^?x))",
            "(define (domain d) (:types a ^(b)))",
            "(define (domain d) (:constants ^- object))",
            "(define (domain d) (:constants c - object ^- object))",
            "(define (domain d) (:constants c -^))",
            "(define (domain d) (:constants c - ^1))",
            "(define (domain d) (:constants c - ^(b c)))",
            "(define (domain d) (:constants ^?c))",
            "(define (domain d) (:constants c ^(e)))",
            "(define (domain d) (:predicates (p ?x - object ^- object)))",
            "(define (domain d) (:predicates (p ?x -^)))",
            "(define (domain d) (:predicates (p ^x)))",
            "(define (domain d) (:predicates (p ^?)))",
            "(define (domain d) (:predicates (p ^(?x))))",
        ],
    )
}

#[test]
fn predicates_and_functions(rt: HostRuntime) -> Result<(), Fail> {
    refused(
        &rt,
        rt.alloc(),
        Cause::Shape,
        &[
            "(define (domain d) (:predicates ^p))",
            "(define (domain d) (:predicates (^)))",
            "(define (domain d) (:predicates (^1)))",
            "(define (domain d) (:predicates (^?x)))",
            "(define (domain d) (:predicates (^(p))))",
            "(define (domain d) (:functions ^f))",
            "(define (domain d) (:functions ^- number))",
            "(define (domain d) (:functions (f) - ^real))",
            "(define (domain d) (:functions (f) -^))",
            "(define (domain d) (:functions (f) - ^(g)))",
            "(define (domain d) (:functions (f) - number ^- number))",
            "(define (domain d) (:functions (^)))",
            "(define (domain d) (:functions (^1)))",
            "(define (domain d) (:functions (f ^x)))",
        ],
    )
}

#[test]
fn parts_of_an_action(rt: HostRuntime) -> Result<(), Fail> {
    refused(
        &rt,
        rt.alloc(),
        Cause::Shape,
        &[
            "(define (domain d) (:action^))",
            "(define (domain d) (:action ^1))",
            "(define (domain d) (:action ^(a)))",
            "(define (domain d) (:durative-action a^))",
            "(define (domain d) (:durative-action a ^:effect ()))",
            "(define (domain d) (:durative-action a :parameters ()^))",
            "(define (domain d) (:predicates (p) (q ?x)) (:action a ^x))",
            "(define (domain d) (:predicates (p) (q ?x)) (:action a ^(p)))",
            "(define (domain d) (:predicates (p) (q ?x)) (:action a :parameters^))",
            "(define (domain d) (:predicates (p) (q ?x)) (:action a :parameters ^?x))",
            "(define (domain d) (:predicates (p) (q ?x)) (:action a :parameters (^x)))",
            "(define (domain d) (:predicates (p) (q ?x)) (:action a :precondition^))",
            "(define (domain d) (:predicates (p) (q ?x)) (:action a :precondition ^p))",
            "(define (domain d) (:predicates (p) (q ?x)) (:action a :effect ^p))",
            "(define (domain d) (:predicates (p) (q ?x)) (:action a ^:condition ()))",
            "(define (domain d) (:predicates (p) (q ?x)) (:action a ^:duration (= ?duration 1)))",
            "(define (domain d) (:predicates (p) (q ?x)) (:action a :effect () ^:precondition ()))",
            "(define (domain d) (:predicates (p) (q ?x)) (:action a :precondition () ^:parameters ()))",
            "(define (domain d) (:predicates (p) (q ?x)) (:action a :effect () ^:effect ()))",
            "(define (domain d) (:predicates (p) (q ?x)) (:action a :effect () ^x))",
            "(define (domain d) (:predicates (p) (q ?x)) (:durative-action a :duration (= ?duration 2) ^:precondition ()))",
            "(define (domain d) (:predicates (p) (q ?x)) (:durative-action a :duration (= ?duration 2) :condition () ^:condition ()))",
        ],
    )
}

#[test]
fn durations_of_a_wrong_shape(rt: HostRuntime) -> Result<(), Fail> {
    refused(
        &rt,
        rt.alloc(),
        Cause::Shape,
        &[
            "(define (domain d) (:durative-action a :duration^))",
            "(define (domain d) (:durative-action a :duration ^5))",
            "(define (domain d) (:predicates (p) (q ?x)) (:functions (f) (h ?x)) (:durative-action a :duration (= ?duration^)))",
            "(define (domain d) (:predicates (p) (q ?x)) (:functions (f) (h ?x)) (:durative-action a :duration (= ?duration 5 ^6)))",
            "(define (domain d) (:predicates (p) (q ?x)) (:functions (f) (h ?x)) (:durative-action a :duration (= ?duration (^))))",
            "(define (domain d) (:predicates (p) (q ?x)) (:functions (f) (h ?x)) (:durative-action a :duration (= ?duration (^1))))",
            "(define (domain d) (:predicates (p) (q ?x)) (:functions (f) (h ?x)) (:durative-action a :duration (= ?duration (^(f)))))",
            "(define (domain d) (:predicates (p) (q ?x)) (:functions (f) (h ?x)) (:durative-action a :duration (= ?duration (^< 1))))",
            "(define (domain d) (:predicates (p) (q ?x)) (:functions (f) (h ?x)) (:durative-action a :duration (= ?duration (f) ^1)))",
            "(define (domain d) (:predicates (p) (q ?x)) (:functions (f) (h ?x)) (:durative-action a :duration (= ?duration (h ^(f)))))",
            "(define (domain d) (:predicates (p) (q ?x)) (:functions (f) (h ?x)) (:durative-action a :duration (= ?duration (h ^1))))",
        ],
    )
}

#[test]
fn conditions(rt: HostRuntime) -> Result<(), Fail> {
    refused(
        &rt,
        rt.alloc(),
        Cause::Shape,
        &[
            "(define (domain d) (:predicates (p) (q ?x)) (:action a :precondition (^1)))",
            "(define (domain d) (:predicates (p) (q ?x)) (:action a :precondition (^?x)))",
            "(define (domain d) (:predicates (p) (q ?x)) (:action a :precondition (^(p))))",
            "(define (domain d) (:predicates (p) (q ?x)) (:action a :precondition (and ^p)))",
            "(define (domain d) (:predicates (p) (q ?x)) (:action a :precondition (and (p) ^p)))",
            "(define (domain d) (:predicates (p) (q ?x)) (:action a :precondition (not^)))",
            "(define (domain d) (:predicates (p) (q ?x)) (:action a :precondition (not ^p)))",
            "(define (domain d) (:predicates (p) (q ?x)) (:action a :precondition (not (^))))",
            "(define (domain d) (:predicates (p) (q ?x)) (:action a :precondition (not (^(p)))))",
            "(define (domain d) (:predicates (p) (q ?x)) (:action a :precondition (not (p) ^(p))))",
            "(define (domain d) (:predicates (p) (q ?x)) (:action a :precondition (not (^< 1 2))))",
            "(define (domain d) (:predicates (p) (q ?x)) (:action a :precondition (=^)))",
            "(define (domain d) (:predicates (p) (q ?x)) (:action a :parameters (?x) :precondition (= ?x^)))",
            "(define (domain d) (:predicates (p) (q ?x)) (:action a :parameters (?x) :precondition (= ?x ^1)))",
            "(define (domain d) (:predicates (p) (q ?x)) (:action a :parameters (?x) :precondition (= ?x ?x ^?x)))",
            "(define (domain d) (:predicates (p) (q ?x)) (:action a :parameters (?x) :precondition (not (= ?x^))))",
            "(define (domain d) (:predicates (p) (q ?x)) (:action a :precondition (q ^(p))))",
            "(define (domain d) (:predicates (p) (q ?x)) (:action a :precondition (q ^1)))",
            "(define (domain d) (:predicates (p) (q ?x)) (:action a :precondition (p ^1)))",
        ],
    )
}

#[test]
fn tagged_conditions(rt: HostRuntime) -> Result<(), Fail> {
    refused(
        &rt,
        rt.alloc(),
        Cause::Shape,
        &[
            "(define (domain d) (:predicates (p) (q ?x)) (:durative-action a :duration (= ?duration 2) :condition (^p)))",
            "(define (domain d) (:predicates (p) (q ?x)) (:durative-action a :duration (= ?duration 2) :condition (and (^p))))",
            "(define (domain d) (:predicates (p) (q ?x)) (:durative-action a :duration (= ?duration 2) :condition (^1)))",
            "(define (domain d) (:predicates (p) (q ?x)) (:durative-action a :duration (= ?duration 2) :condition (^(p))))",
            "(define (domain d) (:predicates (p) (q ?x)) (:durative-action a :duration (= ?duration 2) :condition (at^)))",
            "(define (domain d) (:predicates (p) (q ?x)) (:durative-action a :duration (= ?duration 2) :condition (at ^middle (p))))",
            "(define (domain d) (:predicates (p) (q ?x)) (:durative-action a :duration (= ?duration 2) :condition (at ^(p))))",
            "(define (domain d) (:predicates (p) (q ?x)) (:durative-action a :duration (= ?duration 2) :condition (at start^)))",
            "(define (domain d) (:predicates (p) (q ?x)) (:durative-action a :duration (= ?duration 2) :condition (at start ^p)))",
            "(define (domain d) (:predicates (p) (q ?x)) (:durative-action a :duration (= ?duration 2) :condition (at start (p) ^(p))))",
            "(define (domain d) (:predicates (p) (q ?x)) (:durative-action a :duration (= ?duration 2) :condition (at end (^1))))",
            "(define (domain d) (:predicates (p) (q ?x)) (:durative-action a :duration (= ?duration 2) :condition (over^)))",
            "(define (domain d) (:predicates (p) (q ?x)) (:durative-action a :duration (= ?duration 2) :condition (over ^some (p))))",
            "(define (domain d) (:predicates (p) (q ?x)) (:durative-action a :duration (= ?duration 2) :condition (over all^)))",
            "(define (domain d) (:predicates (p) (q ?x)) (:durative-action a :duration (= ?duration 2) :condition (over all (p) ^x)))",
            "(define (domain d) (:predicates (p) (q ?x)) (:durative-action a :duration (= ?duration 2) :condition (^not (p))))",
            "(define (domain d) (:predicates (p) (q ?x)) (:durative-action a :duration (= ?duration 2) :condition (^= ?x ?x)))",
            "(define (domain d) (:predicates (p) (q ?x)) (:durative-action a :duration (= ?duration 2) :condition (^not (= ?x ?x))))",
            "(define (domain d) (:predicates (p) (q ?x)) (:durative-action a :duration (= ?duration 2) :condition (and (at start (p)) ^x)))",
        ],
    )
}

#[test]
fn effects(rt: HostRuntime) -> Result<(), Fail> {
    refused(
        &rt,
        rt.alloc(),
        Cause::Shape,
        &[
            "(define (domain d) (:predicates (p) (q ?x)) (:action a :effect (^1)))",
            "(define (domain d) (:predicates (p) (q ?x)) (:action a :effect (^(p))))",
            "(define (domain d) (:predicates (p) (q ?x)) (:action a :effect (and ^p)))",
            "(define (domain d) (:predicates (p) (q ?x)) (:action a :effect (not^)))",
            "(define (domain d) (:predicates (p) (q ?x)) (:action a :effect (not ^p)))",
            "(define (domain d) (:predicates (p) (q ?x)) (:action a :effect (not (^))))",
            "(define (domain d) (:predicates (p) (q ?x)) (:action a :effect (not (^1))))",
            "(define (domain d) (:predicates (p) (q ?x)) (:action a :effect (not (p) ^x)))",
            "(define (domain d) (:predicates (p) (q ?x)) (:action a :effect (not (^(p)))))",
            "(define (domain d) (:predicates (p) (q ?x)) (:action a :effect (^= 1 1)))",
            "(define (domain d) (:predicates (p) (q ?x)) (:action a :effect (p ^(q))))",
            "(define (domain d) (:predicates (p) (q ?x)) (:durative-action a :duration (= ?duration 2) :effect (^p)))",
            "(define (domain d) (:predicates (p) (q ?x)) (:durative-action a :duration (= ?duration 2) :effect (^not (p))))",
            "(define (domain d) (:predicates (p) (q ?x)) (:durative-action a :duration (= ?duration 2) :effect (^over all (p))))",
            "(define (domain d) (:predicates (p) (q ?x)) (:durative-action a :duration (= ?duration 2) :effect (at^)))",
            "(define (domain d) (:predicates (p) (q ?x)) (:durative-action a :duration (= ?duration 2) :effect (at ^all (p))))",
            "(define (domain d) (:predicates (p) (q ?x)) (:durative-action a :duration (= ?duration 2) :effect (at start^)))",
            "(define (domain d) (:predicates (p) (q ?x)) (:durative-action a :duration (= ?duration 2) :effect (at start ^p)))",
            "(define (domain d) (:predicates (p) (q ?x)) (:durative-action a :duration (= ?duration 2) :effect (at end (p) ^(p))))",
            "(define (domain d) (:predicates (p) (q ?x)) (:durative-action a :duration (= ?duration 2) :effect (and (at end (p)) (^p))))",
        ],
    )
}

#[test]
fn domains_that_are_taken(rt: HostRuntime) -> Result<(), Fail> {
    taken(
        &rt,
        rt.alloc(),
        &[
            "(define (domain d))",
            "( DEFINE(Domain D)(:Requirements :Strips 5 ?x))",
            "(define (domain d) (:types object a - object b))",
            "(define (domain d) (:types a - b c - b))",
            "(define (domain d) (:types a - c c - b))",
            "(define (domain d) (:predicates) (:types) (:constants) (:functions) (:requirements))",
            "(define (domain d) (:predicates (at ?x) (increase) (total-time)))",
            "(define (domain d) (:functions (and) (or ?x) - number (not) (f) - number))",
            "(define (domain d) (:action a) (:durative-action b :duration (= ?duration 100000.0)))",
            "(define (domain d) (:constants c ; c\n ) (:action a :parameters () :precondition () :effect ()))",
            "(define (domain d) (:predicates (p) (q ?x)) (:action a :parameters (?x ?y - object) :precondition (and (p) (not (p)) (= ?x ?y) (not (= ?x ?y)) ()) :effect (and (q ?x) (not (q ?y)) () (and))))",
            "(define (domain d) (:predicates (p) (q ?x)) (:durative-action a :duration (= ?duration 2) :condition (and (at start (p)) (at end (and (p) (not (p)))) (over all ()) ()) :effect (and (at start (not (p))) (at end (p)) (and))))",
        ],
    )
}
