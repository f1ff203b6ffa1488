//! One thing more than a limit allows.

use crate::scene::{Cause, DOMAIN, domain_fault, problem_fault, refused, taken};
use cpt_domain::DomainError;
use cpt_problem::ProblemError;
use cpt_sexp::{SexpError, parse};
use cpt_task::Limit;
use std::alloc::Global;
use std::test::Fail;

#[test]
fn parameters_and_variables(rt: HostRuntime) -> Result<(), Fail> {
    refused(
        &rt,
        rt.alloc(),
        Cause::Limit(Limit::Parameters),
        &[
            "(define (domain d) (:action a :parameters (?a ?b ?c ?d ?e ?f ?g ?h ?i ?j ?k ?l ?m ?n ?o ?p ^?q)))",
            "(define (domain d) (:predicates (p) (q ?a ?b ?c ?d ?e ?f ?g ?h ?i ?j ?k ?l ?m ?n ?o ?p - object ^?q)))",
            "(define (domain d) (:functions (f ?a ?b ?c ?d ?e ?f ?g ?h ?i ?j ?k ?l ?m ?n ?o ?p ^?q ?r) - number))",
        ],
    )?;
    taken(
        &rt,
        rt.alloc(),
        &[
            "(define (domain d) (:action a :parameters (?a ?b ?c ?d ?e ?f ?g ?h ?i ?j ?k ?l ?m ?n ?o ?p)))",
            "(define (domain d) (:predicates (p ?a ?b ?c ?d ?e ?f ?g ?h ?i ?j ?k ?l ?m ?n ?o ?p)))",
        ],
    )
}

/// So many times a piece between a front and a back.
fn repeated(
    alloc: Global,
    front: &str,
    piece: &str,
    times: usize,
    back: &str,
) -> Result<Vec<u8>, Fail> {
    let mut text = Vec::new(alloc);
    text.extend_from_slice(front.as_bytes())?;
    for _ in 0..times {
        text.extend_from_slice(piece.as_bytes())?;
    }
    text.extend_from_slice(back.as_bytes())?;
    Ok(text)
}

/// An action whose one part is a list of atoms.
#[derive(Clone, Copy)]
struct Listed {
    front: &'static str,
    back: &'static str,
    /// The byte of the first atom.
    first: u32,
}

const LISTS: [Listed; 4] = [
    Listed {
        front: "(define (domain d) (:predicates (p)) (:action a :precondition (and ",
        back: ")))",
        first: 67,
    },
    Listed {
        front: "(define (domain d) (:predicates (p)) (:action a :effect (and ",
        back: ")))",
        first: 61,
    },
    Listed {
        front: "(define (domain d) (:predicates (p)) (:durative-action a :duration (= ?duration 1) :condition (over all (and ",
        back: "))))",
        first: 109,
    },
    Listed {
        front: "(define (domain d) (:predicates (p)) (:durative-action a :duration (= ?duration 1) :effect (at end (and ",
        back: "))))",
        first: 104,
    },
];

#[test]
fn atoms_of_a_list(rt: HostRuntime) -> Result<(), Fail> {
    let alloc = rt.alloc();
    for list in LISTS {
        let full = repeated(alloc, list.front, "(p)", 64, list.back)?;
        assert_eq!(rt; domain_fault(alloc, full.as_slice())?, None);
        let long = repeated(alloc, list.front, "(p)", 65, list.back)?;
        let at = list.first + 64 * 3;
        assert_eq!(rt;
            domain_fault(alloc, long.as_slice())?,
            Some(DomainError::Limit(Limit::LongList, at))
        );
    }
    Ok(())
}

#[test]
fn absent_and_deleted_atoms(rt: HostRuntime) -> Result<(), Fail> {
    let alloc = rt.alloc();
    let front = "(define (domain d) (:predicates (p)) (:action a :precondition (and ";
    // Present and absent atoms count together: 32 pairs, and one more.
    let mixed = repeated(alloc, front, "(p)(not (p))", 33, ")))")?;
    assert_eq!(rt;
        domain_fault(alloc, mixed.as_slice())?,
        Some(DomainError::Limit(Limit::LongList, 67 + 32 * 12))
    );
    let absent = repeated(alloc, front, "(not (p))", 65, ")))")?;
    assert_eq!(rt;
        domain_fault(alloc, absent.as_slice())?,
        Some(DomainError::Limit(Limit::LongList, 67 + 64 * 9 + 5))
    );
    // Added and deleted atoms count apart.
    let front = "(define (domain d) (:predicates (p)) (:action a :effect (and ";
    let apart = repeated(alloc, front, "(p)(not (p))", 64, ")))")?;
    assert_eq!(rt; domain_fault(alloc, apart.as_slice())?, None);
    let deleted = repeated(alloc, front, "(not (p))", 65, ")))")?;
    assert_eq!(rt;
        domain_fault(alloc, deleted.as_slice())?,
        Some(DomainError::Limit(Limit::LongList, 61 + 64 * 9 + 5))
    );
    // The limit goes before the name of the atom, which has to be a name.
    let unknown = repeated(alloc, front, "(p)", 64, "(zz))))")?;
    assert_eq!(rt;
        domain_fault(alloc, unknown.as_slice())?,
        Some(DomainError::Limit(Limit::LongList, 61 + 64 * 3))
    );
    let wrong = repeated(alloc, front, "(p)", 64, "(1))))")?;
    assert_eq!(rt;
        domain_fault(alloc, wrong.as_slice())?,
        Some(DomainError::Shape(61 + 64 * 3 + 1))
    );
    Ok(())
}

/// Adds the names from `o1000` on, with a space before each.
fn add_names(text: &mut Vec<u8>, count: u32) -> Result<(), Fail> {
    let alloc = *text.allocator();
    for k in 0..count {
        let name = format!(in alloc; " o{}", 1000 + u64::from(k))?;
        text.extend_from_slice(name.as_bytes())?;
    }
    Ok(())
}

/// A domain with so many constants.
fn with_constants(alloc: Global, count: u32) -> Result<Vec<u8>, Fail> {
    let mut text = Vec::new(alloc);
    text.extend_from_slice(b"(define (domain d) (:constants")?;
    add_names(&mut text, count)?;
    text.extend_from_slice(b"))")?;
    Ok(text)
}

/// A problem with so many objects.
fn with_objects(alloc: Global, count: u32) -> Result<Vec<u8>, Fail> {
    let mut text = Vec::new(alloc);
    text.extend_from_slice(b"(define (problem q) (:domain d) (:objects")?;
    add_names(&mut text, count)?;
    text.extend_from_slice(b") (:init) (:goal ()))")?;
    Ok(text)
}

#[test]
fn constants(rt: HostRuntime) -> Result<(), Fail> {
    let alloc = rt.alloc();
    let full = with_constants(alloc, 4096)?;
    assert_eq!(rt; domain_fault(alloc, full.as_slice())?, None);
    // Each name takes six bytes with its space, from byte 30 on.
    let long = with_constants(alloc, 4097)?;
    assert_eq!(rt;
        domain_fault(alloc, long.as_slice())?,
        Some(DomainError::Limit(Limit::Objects, 30 + 4096 * 6 + 1))
    );
    Ok(())
}

#[test]
fn objects_beside_a_constant(rt: HostRuntime) -> Result<(), Fail> {
    let alloc = rt.alloc();
    // The domain has one constant.
    let full = with_objects(alloc, 4095)?;
    assert_eq!(rt;
        problem_fault(alloc, DOMAIN.as_bytes(), full.as_slice())?,
        None
    );
    let long = with_objects(alloc, 4096)?;
    assert_eq!(rt;
        problem_fault(alloc, DOMAIN.as_bytes(), long.as_slice())?,
        Some(ProblemError::Limit(Limit::Objects, 41 + 4095 * 6 + 1))
    );
    Ok(())
}

/// So many groups inside one another, behind a front that leaves two open.
fn nested(alloc: Global, count: usize) -> Result<Vec<u8>, Fail> {
    let mut text = repeated(
        alloc,
        "(define (domain d) (:action a :precondition ",
        "(and ",
        count,
        "()",
    )?;
    for _ in 0..count {
        text.push(b')')?;
    }
    text.extend_from_slice(b"))")?;
    Ok(text)
}

#[test]
fn nested_groups(rt: HostRuntime) -> Result<(), Fail> {
    let alloc = rt.alloc();
    let deepest = nested(alloc, 61)?;
    assert_eq!(rt; domain_fault(alloc, deepest.as_slice())?, None);
    let deep = nested(alloc, 62)?;
    assert!(rt; deep.len() < 1000);
    assert_eq!(rt;
        parse(alloc, deep.as_slice()).err(),
        Some(SexpError::Deep(44 + 62 * 5))
    );
    Ok(())
}
