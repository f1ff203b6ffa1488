//! Texts whose faults are known by their bytes.

use crate::scene::{domain_fault, problem_fault};
use cpt_domain::DomainError;
use cpt_problem::ProblemError;
use cpt_sexp::{SexpError, parse};
use std::test::Fail;

/// A domain that adds an atom at the start and deletes it at the end.
const WINDOW: &str =
    "(define (domain w) (:predicates (lit)) (:durative-action f :parameters () :duration (= ?duration 2) :condition () :effect (and (at start (lit)) (at end (not (lit))))))";

const NO_TIME: &str =
    "(define (domain w) (:predicates (lit)) (:durative-action f :parameters () :duration (= ?duration 0) :condition () :effect (and (at start (lit)) (at end (not (lit))))))";

const TOO_LONG: &str =
    "(define (domain w) (:predicates (lit)) (:durative-action f :parameters () :duration (= ?duration 100001) :condition () :effect (and (at start (lit)) (at end (not (lit))))))";

#[test]
fn windows_and_durations(rt: HostRuntime) -> Result<(), Fail> {
    let alloc = rt.alloc();
    assert_eq!(rt;
        domain_fault(alloc, WINDOW.as_bytes())?,
        Some(DomainError::Window(144))
    );
    assert_eq!(rt;
        domain_fault(alloc, NO_TIME.as_bytes())?,
        Some(DomainError::Duration(97))
    );
    assert_eq!(rt;
        domain_fault(alloc, TOO_LONG.as_bytes())?,
        Some(DomainError::Duration(97))
    );
    Ok(())
}

#[test]
fn texts_that_end_too_early(rt: HostRuntime) -> Result<(), Fail> {
    let alloc = rt.alloc();
    assert_eq!(rt;
        parse(alloc, b"(define (domain d) (:predicates (p)").err(),
        Some(SexpError::Unclosed(0))
    );
    assert_eq!(rt; domain_fault(alloc, b"")?, Some(DomainError::Shape(0)));
    let small = "(define (domain d7) (:predicates (k) (g1) (g2))
(:durative-action u :parameters () :duration (= ?duration 1) :condition () :effect (at end (k)))
(:durative-action v1 :parameters () :duration (= ?duration 2) :condition (over all (k))
 :effect (and (at end (not (k))) (at end (g1))))
(:durative-action v2 :parameters () :duration (= ?duration 2) :condition (over all (k))
 :effect (and (at end (not (k))) (at end (g2)))))";
    let text = small.as_bytes();
    assert_eq!(rt; domain_fault(alloc, text)?, None);
    for end in 1..text.len() {
        assert_eq!(rt;
            parse(alloc, &text[..end]).err(),
            Some(SexpError::Unclosed(0)),
            "at {end}"
        );
    }
    Ok(())
}

/// A domain whose one action lasts as long as the value of a function.
const VALUED: &str =
    "(define (domain d) (:predicates (g)) (:functions (f)) (:durative-action a :parameters () :duration (= ?duration (f)) :condition () :effect (at end (g))))";

#[test]
fn values(rt: HostRuntime) -> Result<(), Fail> {
    let alloc = rt.alloc();
    let cases: [(&str, Option<ProblemError>); 3] = [
        (
            "(define (problem p) (:domain d) (:init (= (f) 4)) (:goal (g)))",
            None,
        ),
        (
            "(define (problem p) (:domain d) (:init (= (f) 0)) (:goal (g)))",
            Some(ProblemError::Duration(46)),
        ),
        (
            "(define (problem p) (:domain d) (:init (= (f) 4) (= (f) 4)) (:goal (g)))",
            Some(ProblemError::Twice(49)),
        ),
    ];
    for (text, fault) in cases {
        assert_eq!(rt;
            problem_fault(alloc, VALUED.as_bytes(), text.as_bytes())?,
            fault
        );
    }
    Ok(())
}
