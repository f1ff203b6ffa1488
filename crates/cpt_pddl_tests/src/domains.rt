//! A domain, read whole.

use crate::scene::parsed;
use cpt_domain::{Domain, Lasting, Lit, Schema, Term, read_domain};
use std::process::Abort;
use std::test::Fail;

pub const TRANSPORT: &str = "(define (domain transport)
(:requirements :strips :typing :durative-actions :fluents)
(:types place thing - object truck package - thing)
(:constants depot - place)
(:predicates (at ?x - thing ?l - place) (in ?p - package ?t - truck) (road ?a ?b - place))
(:functions (road-time ?a ?b - place))
(:durative-action load :parameters (?p - package ?t - truck ?l - place)
:duration (= ?duration 1)
:condition (and (over all (at ?t ?l)) (at start (at ?p ?l)))
:effect (and (at start (not (at ?p ?l))) (at end (in ?p ?t))))
(:durative-action unload :parameters (?p - package ?t - truck ?l - place)
:duration (= ?duration 1)
:condition (and (over all (at ?t ?l)) (at start (in ?p ?t)))
:effect (and (at start (not (in ?p ?t))) (at end (at ?p ?l))))
(:durative-action drive :parameters (?t - truck ?a ?b - place)
:duration (= ?duration (road-time ?a ?b))
:condition (and (at start (at ?t ?a)) (at start (and (road ?a ?b) (not (= ?a depot)))) (over all (not (road ?b depot))))
:effect (and (at start (not (at ?t ?a))) (at end (at ?t ?b)))))";

/// The atom has this predicate and these terms.
fn expect_lit(rt: &impl Abort, lit: &Lit, pred: u32, terms: &[Term]) {
    assert_eq!(rt; lit.pred, pred);
    assert_eq!(rt; lit.terms.as_slice(), terms);
}

fn expect_names(rt: &impl Abort, domain: &Domain) {
    assert_eq!(rt; domain.name.as_slice(), b"transport".as_slice());
    let types: [(&[u8], u32); 5] = [
        (b"object", 0),
        (b"place", 0),
        (b"thing", 0),
        (b"truck", 2),
        (b"package", 2),
    ];
    assert_eq!(rt; domain.types.as_slice().len(), 5);
    for (found, (name, parent)) in domain.types.as_slice().iter().zip(types) {
        assert_eq!(rt; found.name.as_slice(), name);
        assert_eq!(rt; found.parent, parent);
    }
    assert_eq!(rt; domain.constants.as_slice().len(), 1);
    for depot in domain.constants.as_slice() {
        assert_eq!(rt; depot.name.as_slice(), b"depot".as_slice());
        assert_eq!(rt; depot.kind, 1);
    }
    let predicates: [(&[u8], &[u32]); 3] = [(b"at", &[2, 1]), (b"in", &[4, 3]), (b"road", &[1, 1])];
    assert_eq!(rt; domain.predicates.as_slice().len(), 3);
    for (found, (name, kinds)) in domain.predicates.as_slice().iter().zip(predicates) {
        assert_eq!(rt; found.name.as_slice(), name);
        assert_eq!(rt; found.kinds.as_slice(), kinds);
    }
    assert_eq!(rt; domain.functions.as_slice().len(), 1);
    for time in domain.functions.as_slice() {
        assert_eq!(rt; time.name.as_slice(), b"road-time".as_slice());
        assert_eq!(rt; time.kinds.as_slice(), [1u32, 1].as_slice());
    }
}

fn expect_load(rt: &impl Abort, load: &Schema) {
    assert_eq!(rt; load.name.as_slice(), b"load".as_slice());
    assert_eq!(rt; load.kinds.as_slice(), [4u32, 3, 1].as_slice());
    assert!(rt; matches!(&load.dur, Lasting::Fixed(1)));
    assert_eq!(rt; load.pre.as_slice().len(), 2);
    if let [truck, package] = load.pre.as_slice() {
        expect_lit(rt, truck, 0, &[Term::Param(1), Term::Param(2)]);
        expect_lit(rt, package, 0, &[Term::Param(0), Term::Param(2)]);
    }
    assert_eq!(rt; load.add.as_slice().len(), 1);
    if let [inside] = load.add.as_slice() {
        expect_lit(rt, inside, 1, &[Term::Param(0), Term::Param(1)]);
    }
    assert_eq!(rt; load.dele.as_slice().len(), 1);
    if let [place] = load.dele.as_slice() {
        expect_lit(rt, place, 0, &[Term::Param(0), Term::Param(2)]);
    }
    assert!(rt; load.tests.as_slice().is_empty());
    assert!(rt; load.absent.as_slice().is_empty());
}

fn expect_drive(rt: &impl Abort, drive: &Schema) {
    assert_eq!(rt; drive.name.as_slice(), b"drive".as_slice());
    assert_eq!(rt; drive.kinds.as_slice(), [3u32, 1, 1].as_slice());
    match &drive.dur {
        Lasting::Fixed(_) => assert!(rt; false, "a number"),
        Lasting::Value { func, terms } => {
            assert_eq!(rt; *func, 0);
            assert_eq!(rt;
                terms.as_slice(),
                [Term::Param(1), Term::Param(2)].as_slice()
            );
        }
    }
    assert_eq!(rt; drive.pre.as_slice().len(), 2);
    if let [here, road] = drive.pre.as_slice() {
        expect_lit(rt, here, 0, &[Term::Param(0), Term::Param(1)]);
        expect_lit(rt, road, 2, &[Term::Param(1), Term::Param(2)]);
    }
    assert_eq!(rt; drive.tests.as_slice().len(), 1);
    if let [test] = drive.tests.as_slice() {
        assert_eq!(rt; test.left, Term::Param(1));
        assert_eq!(rt; test.right, Term::Object(0));
        assert!(rt; !test.equal);
    }
    assert_eq!(rt; drive.absent.as_slice().len(), 1);
    if let [road] = drive.absent.as_slice() {
        expect_lit(rt, road, 2, &[Term::Param(2), Term::Object(0)]);
    }
    assert_eq!(rt; drive.add.as_slice().len(), 1);
    if let [there] = drive.add.as_slice() {
        expect_lit(rt, there, 0, &[Term::Param(0), Term::Param(2)]);
    }
    assert_eq!(rt; drive.dele.as_slice().len(), 1);
    if let [here] = drive.dele.as_slice() {
        expect_lit(rt, here, 0, &[Term::Param(0), Term::Param(1)]);
    }
}

#[test]
fn transport(rt: HostRuntime) -> Result<(), Fail> {
    let domain = read_domain(rt.alloc(), &parsed(rt.alloc(), TRANSPORT.as_bytes())?)?;
    expect_names(&rt, &domain);
    assert_eq!(rt; domain.schemas.as_slice().len(), 3);
    if let [load, unload, drive] = domain.schemas.as_slice() {
        expect_load(&rt, load);
        assert_eq!(rt; unload.name.as_slice(), b"unload".as_slice());
        expect_drive(&rt, drive);
    }
    Ok(())
}
