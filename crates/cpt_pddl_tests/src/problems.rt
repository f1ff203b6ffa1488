//! A problem, read whole.

use crate::domains::TRANSPORT;
use crate::scene::parsed;
use cpt_domain::read_domain;
use cpt_problem::{Fact, Problem, read_problem};
use std::process::Abort;
use std::test::Fail;

const TWO: &str = "(define (problem two) (:domain transport)
(:objects a b - place t1 - truck p1 p2 - package)
(:init (at t1 a) (at p1 a) (at p2 a) (road a b) (= (road-time a b) 7) (= (road-time depot a) 3.0))
(:goal (and (at p1 b) (not (at p2 a)) (at p2 b)))
(:metric minimize (total-time)))";

/// The facts are these, each a predicate and two objects.
fn expect_facts(rt: &impl Abort, found: &[Fact], facts: &[(u32, [u32; 2])]) {
    assert_eq!(rt; found.len(), facts.len());
    for (fact, (pred, args)) in found.iter().zip(facts) {
        assert_eq!(rt; fact.pred, *pred);
        assert_eq!(rt; fact.args.as_slice(), args.as_slice());
    }
}

fn expect_objects(rt: &impl Abort, problem: &Problem) {
    let objects: [(&[u8], u32); 5] = [(b"a", 1), (b"b", 1), (b"t1", 3), (b"p1", 4), (b"p2", 4)];
    assert_eq!(rt; problem.objects.as_slice().len(), 5);
    for (found, (name, kind)) in problem.objects.as_slice().iter().zip(objects) {
        assert_eq!(rt; found.name.as_slice(), name);
        assert_eq!(rt; found.kind, kind);
    }
}

#[test]
fn two_packages(rt: HostRuntime) -> Result<(), Fail> {
    let alloc = rt.alloc();
    let domain = read_domain(alloc, &parsed(alloc, TRANSPORT.as_bytes())?)?;
    let problem = read_problem(alloc, &domain, &parsed(alloc, TWO.as_bytes())?)?;
    expect_objects(&rt, &problem);
    // The constant is object 0, so the objects are numbered from 1.
    expect_facts(
        &rt,
        problem.init.as_slice(),
        &[(0, [3, 1]), (0, [4, 1]), (0, [5, 1]), (2, [1, 2])],
    );
    expect_facts(&rt, problem.goal.as_slice(), &[(0, [4, 2]), (0, [5, 2])]);
    expect_facts(&rt, problem.absent.as_slice(), &[(0, [5, 1])]);
    assert_eq!(rt; problem.values.as_slice().len(), 2);
    if let [road, depot] = problem.values.as_slice() {
        assert_eq!(rt; (road.func, road.value), (0, 7));
        assert_eq!(rt; road.args.as_slice(), [1u32, 2].as_slice());
        assert_eq!(rt; (depot.func, depot.value), (0, 3));
        assert_eq!(rt; depot.args.as_slice(), [0u32, 1].as_slice());
    }
    Ok(())
}
