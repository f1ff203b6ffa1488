//! The domain of all problems.

ghost use Rattle.std.specs.Prelude.{◌≡◌, IfOk};
ghost use Rattle.cpt_gen.specs.Texts.{domain_text};

use std::alloc::{AllocError, Global};

const DOMAIN: &[u8] = b"(define (domain gen)
(:requirements :typing :durative-actions)
(:types place thing - object truck package - thing)
(:predicates (at ?x - thing ?l - place) (in ?p - package ?t - truck) (road ?a ?b - place))
(:functions (road-time ?a ?b - place))
(:durative-action load :parameters (?p - package ?t - truck ?l - place)
:duration (= ?duration 1)
:condition (and (over all (at ?t ?l)) (at start (at ?p ?l)))
:effect (and (at start (not (at ?p ?l))) (at end (in ?p ?t))))
(:durative-action unload :parameters (?p - package ?t - truck ?l - place)
:duration (= ?duration 1)
:condition (and (over all (at ?t ?l)) (at start (in ?p ?t)))
:effect (and (at start (not (in ?p ?t))) (at end (at ?p ?l))))
(:durative-action drive :parameters (?t - truck ?a ?b - place)
:duration (= ?duration (road-time ?a ?b))
:condition (and (at start (at ?t ?a)) (at start (road ?a ?b)))
:effect (and (at start (not (at ?t ?a))) (at end (at ?t ?b)))))
";

/// The text of the domain.
#[tactic(auto, unfolding(crate::specs::Texts::domain_text))]
pub(crate) fn domain_bytes(alloc: Global) -> Result<Vec<u8>, AllocError>
    ensures { IfOk result (λ text. text.items ≡ domain_text) }
{
    Vec::from_slice(alloc, DOMAIN)
}
