//! The generated texts, and how large their tasks are.

use cpt_domain::read_domain;
use cpt_gen::make;
use cpt_ground::ground;
use cpt_problem::read_problem;
use cpt_reach::{Pruned, prune};
use cpt_sexp::{Forest, parse};
use std::alloc::Global;
use std::process::Abort;
use std::test::Fail;

const OF_TWO: &[u8] = b"(define (problem gen)
(:domain gen)
(:objects l0 l1 l2 - place t1 - truck p1 p2 - package)
(:init (at t1 l0) (at p1 l0) (at p2 l0) (road l0 l1) (road l1 l2) (= (road-time l0 l1) 3) (= (road-time l1 l2) 3))
(:goal (and (at p1 l2) (at p2 l2))))
";

#[test]
fn the_problem_with_two_packages(rt: HostRuntime) -> Result<(), Fail> {
    let made = make(rt.alloc(), 2)?;
    assert_eq!(rt; made.problem.as_slice(), OF_TWO);
    Ok(())
}

fn forest_of(rt: &impl Abort, alloc: Global, text: &[u8]) -> Result<Forest, Fail> {
    assert!(rt; text.len() <= 16_777_216);
    Ok(parse(alloc, text)?)
}

/// The kept part of the generated problem of size `n`.
fn kept_of(rt: &impl Abort, alloc: Global, n: u32) -> Result<Pruned, Fail> {
    assert!(rt; 1 <= n && n <= 40);
    let made = make(alloc, n)?;
    let domain = read_domain(alloc, &forest_of(rt, alloc, made.domain.as_slice())?)?;
    let problem = read_problem(
        alloc,
        &domain,
        &forest_of(rt, alloc, made.problem.as_slice())?,
    )?;
    let task = ground(alloc, &domain, &problem)?;
    Ok(prune(alloc, &task)?)
}

#[test]
fn sizes_of_kept_tasks(rt: HostRuntime) -> Result<(), Fail> {
    for n in 1..11u32 {
        let kept = kept_of(&rt, rt.alloc(), n)?;
        let size = n as usize;
        assert_eq!(rt;
            kept.task.atoms().len(),
            size * size + 4 * size + 1,
            "atoms of {n}"
        );
        assert_eq!(rt;
            kept.task.actions().len(),
            2 * size * (size + 1) + size,
            "actions of {n}"
        );
    }
    Ok(())
}
