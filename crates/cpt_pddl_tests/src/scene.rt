//! Texts in which a mark stands where the fault is.

use cpt_domain::{DomainError, Feature, read_domain};
use cpt_problem::{ProblemError, read_problem};
use cpt_sexp::{Forest, parse};
use cpt_task::Limit;
use std::alloc::Global;
use std::process::Abort;
use std::test::Fail;

/// Why a text is refused.
#[derive(Clone, Copy, Debug, PartialEq, Eq)]
pub enum Cause {
    Shape,
    BadName,
    Twice,
    BadType,
    Arity,
    Feature(Feature),
    Window,
    Duration,
    Limit(Limit),
    OtherDomain,
}

/// The text without its mark, which is a `^`, and the byte at which the mark stands.
fn unmarked(alloc: Global, text: &str) -> Result<(Vec<u8>, u32), Fail> {
    let mut plain = Vec::new(alloc);
    let mut place = 0;
    for b in text.as_bytes() {
        if *b == b'^' {
            place = u32::try_from(plain.len())?;
        } else {
            plain.push(*b)?;
        }
    }
    Ok((plain, place))
}

/// The text, parsed.
pub fn parsed(alloc: Global, text: &[u8]) -> Result<Forest, Fail> {
    if text.len() > 16_777_216 {
        return Err("a text that is too long")?;
    }
    let forest = parse(alloc, text)?;
    Ok(forest)
}

fn domain_error(cause: Cause, at: u32) -> Option<DomainError> {
    match cause {
        Cause::Shape => Some(DomainError::Shape(at)),
        Cause::BadName => Some(DomainError::BadName(at)),
        Cause::Twice => Some(DomainError::Twice(at)),
        Cause::BadType => Some(DomainError::BadType(at)),
        Cause::Arity => Some(DomainError::Arity(at)),
        Cause::Feature(which) => Some(DomainError::Feature(which, at)),
        Cause::Window => Some(DomainError::Window(at)),
        Cause::Duration => Some(DomainError::Duration(at)),
        Cause::Limit(which) => Some(DomainError::Limit(which, at)),
        Cause::OtherDomain => None,
    }
}

fn problem_error(cause: Cause, at: u32) -> Option<ProblemError> {
    match cause {
        Cause::Shape => Some(ProblemError::Shape(at)),
        Cause::BadName => Some(ProblemError::BadName(at)),
        Cause::Twice => Some(ProblemError::Twice(at)),
        Cause::BadType => Some(ProblemError::BadType(at)),
        Cause::Arity => Some(ProblemError::Arity(at)),
        Cause::Feature(which) => Some(ProblemError::Feature(which, at)),
        Cause::Window => None,
        Cause::Duration => Some(ProblemError::Duration(at)),
        Cause::Limit(which) => Some(ProblemError::Limit(which, at)),
        Cause::OtherDomain => Some(ProblemError::OtherDomain(at)),
    }
}

/// The fault of a domain text.
pub fn domain_fault(alloc: Global, text: &[u8]) -> Result<Option<DomainError>, Fail> {
    let forest = parsed(alloc, text)?;
    Ok(read_domain(alloc, &forest).err())
}

/// Each text is refused as a domain for the cause, at its mark.
pub fn refused(rt: &impl Abort, alloc: Global, cause: Cause, texts: &[&str]) -> Result<(), Fail> {
    for text in texts {
        let (plain, at) = unmarked(alloc, text)?;
        let fault = domain_fault(alloc, plain.as_slice())?;
        assert_eq!(rt; fault, domain_error(cause, at), "{text}");
    }
    Ok(())
}

/// Each text is a domain.
pub fn taken(rt: &impl Abort, alloc: Global, texts: &[&str]) -> Result<(), Fail> {
    for text in texts {
        let fault = domain_fault(alloc, text.as_bytes())?;
        assert_eq!(rt; fault, None, "{text}");
    }
    Ok(())
}

/// The fault of a problem text of a domain text.
pub fn problem_fault(
    alloc: Global,
    domain: &[u8],
    text: &[u8],
) -> Result<Option<ProblemError>, Fail> {
    let domain = read_domain(alloc, &parsed(alloc, domain)?)?;
    let forest = parsed(alloc, text)?;
    Ok(read_problem(alloc, &domain, &forest).err())
}

/// The domain of the problems that follow.
pub const DOMAIN: &str = "(define (domain d)
(:types t - object u - t) (:constants c - t)
(:predicates (p ?x - t) (g) (at ?x - t)) (:functions (f ?x - u) (w))
(:durative-action a :parameters (?x - u) :duration (= ?duration (f ?x)) :effect (at end (g))))";

/// Each text is refused as a problem for the cause, at its mark.
pub fn refused_problem(
    rt: &impl Abort,
    alloc: Global,
    cause: Cause,
    texts: &[&str],
) -> Result<(), Fail> {
    for text in texts {
        let (plain, at) = unmarked(alloc, text)?;
        let fault = problem_fault(alloc, DOMAIN.as_bytes(), plain.as_slice())?;
        assert_eq!(rt; fault, problem_error(cause, at), "{text}");
    }
    Ok(())
}

/// Each text is a problem.
pub fn taken_problem(rt: &impl Abort, alloc: Global, texts: &[&str]) -> Result<(), Fail> {
    for text in texts {
        let fault = problem_fault(alloc, DOMAIN.as_bytes(), text.as_bytes())?;
        assert_eq!(rt; fault, None, "{text}");
    }
    Ok(())
}
