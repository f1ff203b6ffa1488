//! Faults of domain and problem texts, and the order in which files are opened.

use crate::scene::{Case, File, expect, expect_all};
use std::alloc::Global;
use std::process::Abort;
use std::test::Fail;

const LIST: &[&str] = &["ground", "d", "p"];

const JUDGE: &[&str] = &["validate", "d", "p", "n"];

/// A domain or a problem text, and the fault that is answered.
type Faulty = (&'static str, u8, &'static str);

const DOMAINS: &[Faulty] = &[
    ("", 4, "fault: domain byte 0: shape\n"),
    (")", 4, "fault: domain byte 0: unopened\n"),
    (
        "(define (domain d) (:predicates (p)",
        4,
        "fault: domain byte 0: unclosed\n",
    ),
    ("(define \u{1})", 4, "fault: domain byte 8: bad-byte\n"),
    ("(define (domain 7))", 4, "fault: domain byte 16: shape\n"),
    (
        "(define (domain d) (:types a - b b - a))",
        4,
        "fault: domain byte 19: type\n",
    ),
    (
        "(define (domain d) (:predicates (p ?x - car)))",
        4,
        "fault: domain byte 40: name\n",
    ),
    (
        "(define (domain d) (:predicates (p) (p)))",
        4,
        "fault: domain byte 37: twice\n",
    ),
    (
        "(define (domain d) (:predicates (p ?x)) (:action a :parameters () :effect (p)))",
        4,
        "fault: domain byte 74: arity\n",
    ),
    (
        "(define (domain d) (:derived (p) (q)))",
        4,
        "fault: domain byte 19: feature section\n",
    ),
    (
        "(define (domain d) (:types a - (either b c)))",
        4,
        "fault: domain byte 31: feature either\n",
    ),
    (
        "(define (domain d) (:predicates (p)) (:action a :parameters () :effect (when (p) (p))))",
        4,
        "fault: domain byte 71: feature conditional\n",
    ),
    (
        "(define (domain d) (:predicates (p)) (:durative-action a :parameters () :duration (= ?duration 0) :condition () :effect (at end (p))))",
        4,
        "fault: domain byte 95: duration\n",
    ),
    (
        "(define (domain d) (:predicates (p)) (:durative-action a :parameters () :duration (= ?duration 1) :condition () :effect (and (at start (p)) (at end (not (p))))))",
        4,
        "fault: domain byte 140: window\n",
    ),
    (
        "((((((((((((((((((((((((((((((((((((((((((((((((((((((((((((((((()))))))))))))))))))))))))))))))))))))))))))))))))))))))))))))))))",
        6,
        "fault: limit nesting\n",
    ),
    (
        "(define (domain d) (:predicates (p ?a ?b ?c ?d ?e ?f ?g ?h ?i ?j ?k ?l ?m ?n ?o ?p ?q)))",
        6,
        "fault: limit parameters\n",
    ),
    ("; nothing\n", 4, "fault: domain byte 10: shape\n"),
];

/// The fault is answered whichever of the commands reads the files. What they name besides is not opened: it is not there.
fn expect_faulty<'a>(
    rt: &impl Abort,
    alloc: Global,
    words: &'a [&'a str],
    files: &'a [File<'a>],
    faulty: &Faulty,
) -> Result<(), Fail> {
    let case = Case {
        words,
        files,
        status: faulty.1,
        text: faulty.2,
    };
    expect(rt, alloc, &case, 7)
}

fn expect_domain(rt: &impl Abort, alloc: Global, faulty: &Faulty) -> Result<(), Fail> {
    let files: &[File] = &[("d", faulty.0)];
    expect_faulty(rt, alloc, LIST, files, faulty)?;
    expect_faulty(rt, alloc, JUDGE, files, faulty)
}

fn expect_domains(rt: &impl Abort, alloc: Global, domains: &[Faulty]) -> Result<(), Fail> {
    for faulty in domains {
        expect_domain(rt, alloc, faulty)?;
    }
    Ok(())
}

#[test]
fn faulty_domains(rt: HostRuntime) -> Result<(), Fail> {
    expect_domains(&rt, rt.alloc(), DOMAINS)
}

const DOMAIN: &str =
    "(define (domain d) (:predicates (p)) (:functions (f)) (:durative-action a :parameters () :duration (= ?duration (f)) :condition () :effect (at end (p))))";

/// Problem texts of this domain.
const PROBLEMS: &[Faulty] = &[
    ("", 4, "fault: problem byte 0: shape\n"),
    ("(define", 4, "fault: problem byte 0: unclosed\n"),
    (
        "(define (problem q) (:domain e) (:init) (:goal (p)))",
        4,
        "fault: problem byte 29: other-domain\n",
    ),
    (
        "(define (problem q) (:domain d) (:init (= (f) 0)) (:goal (p)))",
        4,
        "fault: problem byte 46: duration\n",
    ),
    (
        "(define (problem q) (:domain d) (:init (= (f) 4) (= (f) 4)) (:goal (p)))",
        4,
        "fault: problem byte 49: twice\n",
    ),
    (
        "(define (problem q) (:domain d) (:init (q)) (:goal (p)))",
        4,
        "fault: problem byte 40: name\n",
    ),
    (
        "(define (problem q) (:domain d) (:init (not (p))) (:goal (p)))",
        4,
        "fault: problem byte 39: feature negative\n",
    ),
    (
        "(define (problem q) (:domain d) (:init) (:goal (= a a)))",
        4,
        "fault: problem byte 47: feature goal-equality\n",
    ),
];

fn expect_problem(rt: &impl Abort, alloc: Global, faulty: &Faulty) -> Result<(), Fail> {
    let files: &[File] = &[("d", DOMAIN), ("p", faulty.0)];
    expect_faulty(rt, alloc, LIST, files, faulty)?;
    expect_faulty(rt, alloc, JUDGE, files, faulty)
}

fn expect_problems(rt: &impl Abort, alloc: Global, problems: &[Faulty]) -> Result<(), Fail> {
    for faulty in problems {
        expect_problem(rt, alloc, faulty)?;
    }
    Ok(())
}

#[test]
fn faulty_problems(rt: HostRuntime) -> Result<(), Fail> {
    expect_problems(&rt, rt.alloc(), PROBLEMS)
}

const NOT_HELD: [Case<'static>; 2] = [
    Case {
        words: LIST,
        files: &[("p", "")],
        status: 7,
        text: "fault: read\n",
    },
    Case {
        words: JUDGE,
        files: &[("d", DOMAIN), ("n", "")],
        status: 7,
        text: "fault: read\n",
    },
];

#[test]
fn files_that_are_not_held_cannot_be_read(rt: HostRuntime) -> Result<(), Fail> {
    expect_all(&rt, rt.alloc(), &NOT_HELD)
}
