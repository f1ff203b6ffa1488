//! Calls of the two commands over files in memory.

ghost use Rattle.std.specs.Prelude.{◌≡◌, IfOk};

use cpt_io::{Library, MemLibrary, MemSink, Sink};
use cpt_plan_files::{explain_plan, tighten_plan};
use cpt_task::{List, Name};
use std::alloc::{AllocError, Global};
use std::process::Abort;
use std::test::Fail;

/// A domain and a problem.
#[derive(Clone, Copy)]
pub struct World<'a> {
    pub domain: &'a str,
    pub problem: &'a str,
}

/// A plan text, and the status and the text that are awaited.
pub type Answered<'a> = (&'a str, u8, &'a str);

/// Two actions that need one atom, which the second uses up.
pub const SHARED: World = World {
    domain: "(define (domain d) (:predicates (r) (p) (q)) (:durative-action a :parameters () :duration (= ?duration 5) :condition (over all (r)) :effect (at end (p))) (:durative-action b :parameters () :duration (= ?duration 3) :condition (over all (r)) :effect (and (at end (not (r))) (at end (q)))))",
    problem: "(define (problem x) (:domain d) (:init (r)) (:goal (and (p) (q))))",
};

/// A key that one action makes and two others use up.
pub const KEY: World = World {
    domain: "(define (domain d) (:predicates (k) (g1) (g2)) (:durative-action u :parameters () :duration (= ?duration 1) :condition () :effect (at end (k))) (:durative-action v1 :parameters () :duration (= ?duration 2) :condition (over all (k)) :effect (and (at end (not (k))) (at end (g1)))) (:durative-action v2 :parameters () :duration (= ?duration 2) :condition (over all (k)) :effect (and (at end (not (k))) (at end (g2)))))",
    problem: "(define (problem x) (:domain d) (:init) (:goal (and (g1) (g2))))",
};

/// Two actions side by side before a third.
pub const SIDES: World = World {
    domain: "(define (domain d) (:predicates (q) (p) (g)) (:durative-action c :parameters () :duration (= ?duration 10) :condition () :effect (at end (q))) (:durative-action a :parameters () :duration (= ?duration 4) :condition () :effect (at end (p))) (:durative-action b :parameters () :duration (= ?duration 1) :condition (and (over all (p)) (over all (q))) :effect (at end (g))))",
    problem: "(define (problem x) (:domain d) (:init) (:goal (g)))",
};

/// Two pairs of actions that have nothing to do with each other, and take as long.
pub const PAIRS: World = World {
    domain: "(define (domain d) (:predicates (x1) (x2) (g1) (g2)) (:durative-action m1 :parameters () :duration (= ?duration 3) :condition () :effect (at end (x1))) (:durative-action n1 :parameters () :duration (= ?duration 3) :condition (over all (x1)) :effect (at end (g1))) (:durative-action m2 :parameters () :duration (= ?duration 4) :condition () :effect (at end (x2))) (:durative-action n2 :parameters () :duration (= ?duration 2) :condition (over all (x2)) :effect (at end (g2))))",
    problem: "(define (problem x) (:domain d) (:init) (:goal (and (g1) (g2))))",
};

/// No action at all.
pub const STILL: World = World {
    domain: "(define (domain d) (:predicates (g)))",
    problem: "(define (problem x) (:domain d) (:init (g)) (:goal (g)))",
};

fn name_of(alloc: Global, name: &str) -> Result<Name, AllocError> {
    Ok(List::from_vec(name.as_bytes().to_vec(alloc)?))
}

fn library(alloc: Global, world: World, plan: &str) -> Result<MemLibrary, AllocError>
    ensures { IfOk result (λ lib. ⟦<MemLibrary as Library>⟧.faults lib ≡ 0) }
{
    let mut files = Vec::new(alloc);
    files.push((name_of(alloc, "d")?, world.domain.as_bytes().to_vec(alloc)?))?;
    files.push((
        name_of(alloc, "p")?,
        world.problem.as_bytes().to_vec(alloc)?,
    ))?;
    files.push((name_of(alloc, "plan")?, plan.as_bytes().to_vec(alloc)?))?;
    Ok(MemLibrary::new(files, Vec::new(alloc)))
}

fn output(alloc: Global) -> Result<MemSink, Fail>
    ensures { IfOk result (λ sink. ⟦<MemSink as Sink>⟧.faults sink ≡ 0) }
{
    match MemSink::new(alloc, 65536, Vec::new(alloc)) {
        Ok(sink) => Ok(sink),
        Err(_) => Err("memory")?,
    }
}

/// Tightens the plan, and compares the status and what was written.
pub fn expect_tightened(
    rt: &impl Abort,
    alloc: Global,
    world: World,
    awaited: Answered,
) -> Result<(), Fail> {
    let mut lib = library(alloc, world, awaited.0)?;
    let mut out = output(alloc)?;
    let status = tighten_plan(alloc, "d", "p", "plan", &mut lib, &mut out);
    assert_eq!(rt; status, awaited.1);
    assert_eq!(rt; out.written(), awaited.2.as_bytes());
    Ok(())
}

/// Explains the plan, and compares the status and what was written.
pub fn expect_explained(
    rt: &impl Abort,
    alloc: Global,
    world: World,
    awaited: Answered,
) -> Result<(), Fail> {
    let mut lib = library(alloc, world, awaited.0)?;
    let mut out = output(alloc)?;
    let status = explain_plan(alloc, "d", "p", "plan", &mut lib, &mut out);
    assert_eq!(rt; status, awaited.1);
    assert_eq!(rt; out.written(), awaited.2.as_bytes());
    Ok(())
}
