//! Terms and atoms.

ghost use Rattle.std.specs.Prelude.{◌≡◌, ◌∷◌, ◌++◌, [], length, slice_index, slice_index_or, slice_get, None};
ghost use Rattle.cpt_pddl.specs.Faults.{Gives};
ghost use Rattle.cpt_pddl.specs.Items.{left};
ghost use Rattle.cpt_schema.specs.Terms.{applied, atom_in, extra_term, next_term, object_at, param_at, same_lit, same_term, same_terms, term_at, terms_in, terms_rest, typed_term};

use cpt_declared::{Declared, Signatures};
use cpt_pddl::{Cursor, Fault, Next, Typed, is_name, is_variable, kind_at};
use cpt_task::{Limit, List};
use std::alloc::Global;

/// A term of an atom: a parameter of the schema, or a constant, by its number.
#[derive(Clone, Copy, Debug, PartialEq, Eq)]
pub enum Term {
    Param(u32),
    Object(u32),
}

/// An atom with terms: the predicate's number, and a term for each of its variables.
#[derive(Debug, Drop)]
pub struct Lit {
    pub pred: u32,
    pub terms: List<Term>,
}

/// The parameter or constant that the word is, with its type.
#[tactic(auto, unfolding(crate::specs::Terms::term_at))]
pub fn term_at(
    declared: &Declared,
    params: &Typed,
    at: u32,
    bytes: &[u8],
) -> Result<(Term, u32), Fault>
    ensures { Gives (λ found. (found.0, found.1)) result (term_at declared.now params.now at bytes.now) }
{
    if is_variable(bytes) {
        match params.names.find(bytes) {
            None => Err(Fault::BadName(at)),
            Some(number) => Ok((
                Term::Param(number),
                kind_at(params.kinds.as_slice(), number),
            )),
        }
    } else if is_name(bytes) {
        match declared.constants.names.find(bytes) {
            None => Err(Fault::BadName(at)),
            Some(number) => Ok((
                Term::Object(number),
                kind_at(declared.constants.kinds.as_slice(), number),
            )),
        }
    } else {
        Err(Fault::Shape(at))
    }
}

fn extra_term(atom: u32, at: u32, bytes: &[u8]) -> Fault
    ensures { result ≡ extra_term atom at bytes.now }
{
    if is_variable(bytes) || is_name(bytes) {
        Fault::Arity(atom)
    } else {
        Fault::Shape(at)
    }
}

#[tactic(auto, unfolding(crate::specs::Terms::typed_term))]
fn typed_term(
    declared: &Declared,
    params: &Typed,
    wanted: u32,
    at: u32,
    bytes: &[u8],
) -> Result<Term, Fault>
    ensures { Gives (λ term. term) result (typed_term declared.now params.now wanted at bytes.now) }
{
    let (term, kind) = term_at(declared, params, at, bytes)?;
    if declared.types.parents.is_below(kind, wanted) {
        Ok(term)
    } else {
        Err(Fault::BadType(at))
    }
}

fn next_term(
    declared: &Declared,
    params: &Typed,
    atom: u32,
    wanted: Option<u32>,
    at: u32,
    bytes: &[u8],
) -> Result<Term, Fault>
    ensures { Gives (λ term. term) result (next_term declared.now params.now atom wanted at bytes.now) }
{
    match wanted {
        None => Err(extra_term(atom, at, bytes)),
        Some(wanted) => typed_term(declared, params, wanted, at, bytes),
    }
}

fn wanted_at(wanted: &[u32], place: usize) -> Option<u32>
    ensures { result ≡ slice_get wanted.now place }
{
    wanted.get(place).copied()
}

/// The terms of the atom that begins at the byte `atom`, one of each wanted type.
#[tactic(auto, unfolding(crate::specs::Terms::terms_in))]
pub fn terms_in(
    alloc: Global,
    declared: &Declared,
    params: &Typed,
    atom: u32,
    wanted: &[u32],
    place: Cursor<'_>,
) -> Result<List<Term>, Fault>
    ensures { Gives (λ terms. terms) result (terms_in declared.now params.now atom wanted.now (left place.entry)) }
{
    let mut terms = Vec::new(alloc);
    let mut here = place;
    'items: loop {
        match here.next() {
            Next::End(_) => {
                if terms.len() < wanted.len() {
                    return Err(Fault::Arity(atom));
                }
                return Ok(List::from_vec(terms));
            }
            Next::Word(at, bytes, rest) => {
                let kind = wanted_at(wanted, terms.len());
                let term = next_term(declared, params, atom, kind, at, bytes)?;
                terms.push(term)?;
                here = rest;
            }
            Next::Group(at, _, _) => return Err(Fault::Shape(at)),
        }
    }
}

/// The predicate or function that the word at the byte `at` names, with its terms.
#[tactic(auto, unfolding(crate::specs::Terms::applied))]
pub fn applied(
    alloc: Global,
    declared: &Declared,
    params: &Typed,
    sigs: &Signatures,
    atom: u32,
    at: u32,
    bytes: &[u8],
    rest: Cursor<'_>,
) -> Result<Lit, Fault>
    ensures { Gives (λ lit. lit) result (applied declared.now params.now sigs.now atom at bytes.now (left rest.entry)) }
{
    let Some(pred) = sigs.names.find(bytes) else {
        return Err(Fault::BadName(at));
    };
    let terms = terms_in(alloc, declared, params, atom, sigs.kinds_of(pred), rest)?;
    Ok(Lit { pred, terms })
}

/// The atom that begins at the byte `atom` with the word at the byte `at`, unless the list that it is for is full.
#[tactic(auto, unfolding(crate::specs::Terms::atom_in))]
pub fn atom_in(
    alloc: Global,
    declared: &Declared,
    params: &Typed,
    full: bool,
    atom: u32,
    at: u32,
    bytes: &[u8],
    rest: Cursor<'_>,
) -> Result<Lit, Fault>
    ensures { Gives (λ lit. lit) result (atom_in declared.now params.now full atom at bytes.now (left rest.entry)) }
{
    if !is_name(bytes) {
        return Err(Fault::Shape(at));
    }
    if full {
        return Err(Fault::Limit(Limit::LongList, atom));
    }
    applied(
        alloc,
        declared,
        params,
        &declared.predicates,
        atom,
        at,
        bytes,
        rest,
    )
}

fn same_term(a: Term, b: Term) -> bool
    ensures { result ≡ same_term a b }
{
    match (a, b) {
        (Term::Param(a), Term::Param(b)) => a == b,
        (Term::Param(_), Term::Object(_)) => false,
        (Term::Object(_), Term::Param(_)) => false,
        (Term::Object(a), Term::Object(b)) => a == b,
    }
}

fn same_terms(a: &[Term], b: &[Term]) -> bool
    ensures { result ≡ same_terms a.now b.now }
{
    match a {
        [] => b.is_empty(),
        [x, xs @ ..] => match b {
            [] => false,
            [y, ys @ ..] => same_term(*x, *y) && same_terms(xs, ys),
        },
    }
}

/// Whether two atoms are one, word for word.
pub fn same_lit(a: &Lit, b: &Lit) -> bool
    ensures { result ≡ same_lit a.now b.now }
{
    a.pred == b.pred && same_terms(a.terms.as_slice(), b.terms.as_slice())
}
