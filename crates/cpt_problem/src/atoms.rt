//! Atoms over objects.

ghost use Rattle.std.specs.Prelude.{◌≡◌, ◌∷◌, ◌++◌, [], length, slice_index, slice_index_or, slice_get, None};
ghost use Rattle.cpt_pddl.specs.Faults.{Gives};
ghost use Rattle.cpt_pddl.specs.Items.{left};
ghost use Rattle.cpt_schema.specs.Terms.{extra_term};
ghost use Rattle.cpt_problem.specs.Objects.{applied, atom_in, function_term, next_object, object_at, object_by, objects_in, objects_rest, typed_object};

use cpt_declared::{Declared, Signatures};
use cpt_facts::Fact;
use cpt_pddl::{Cursor, Fault, Next, Typed, is_name, is_variable, kind_at};
use cpt_task::List;
use std::alloc::Global;

/// A predicate or function by its number, and an object for each of its variables.
#[derive(Drop)]
pub struct Filled {
    pub number: u32,
    pub args: List<u32>,
}

#[tactic(auto, unfolding(crate::specs::Objects::object_at))]
fn object_at(objects: &Typed, at: u32, bytes: &[u8]) -> Result<(u32, u32), Fault>
    ensures { Gives (λ found. (found.0, found.1)) result (object_at objects.now at bytes.now) }
{
    if is_variable(bytes) {
        Err(Fault::BadName(at))
    } else if is_name(bytes) {
        match objects.names.find(bytes) {
            None => Err(Fault::BadName(at)),
            Some(number) => Ok((number, kind_at(objects.kinds.as_slice(), number))),
        }
    } else {
        Err(Fault::Shape(at))
    }
}

fn extra_object(atom: u32, at: u32, bytes: &[u8]) -> Fault
    ensures { result ≡ extra_term atom at bytes.now }
{
    if is_variable(bytes) || is_name(bytes) {
        Fault::Arity(atom)
    } else {
        Fault::Shape(at)
    }
}

#[tactic(auto, unfolding(crate::specs::Objects::typed_object))]
fn typed_object(declared: &Declared, wanted: u32, at: u32, bytes: &[u8]) -> Result<u32, Fault>
    ensures { Gives (λ object. object) result (typed_object declared.now wanted at bytes.now) }
{
    let (object, kind) = object_at(&declared.constants, at, bytes)?;
    if declared.types.parents.is_below(kind, wanted) {
        Ok(object)
    } else {
        Err(Fault::BadType(at))
    }
}

fn next_object(
    declared: &Declared,
    atom: u32,
    wanted: Option<u32>,
    at: u32,
    bytes: &[u8],
) -> Result<u32, Fault>
    ensures { Gives (λ object. object) result (next_object declared.now atom wanted at bytes.now) }
{
    match wanted {
        None => Err(extra_object(atom, at, bytes)),
        Some(wanted) => typed_object(declared, wanted, at, bytes),
    }
}

fn wanted_at(wanted: &[u32], place: usize) -> Option<u32>
    ensures { result ≡ slice_get wanted.now place }
{
    wanted.get(place).copied()
}

/// The objects of the atom that begins at the byte `atom`, one of each wanted type.
#[tactic(auto, unfolding(crate::specs::Objects::objects_in))]
fn objects_in(
    alloc: Global,
    declared: &Declared,
    atom: u32,
    wanted: &[u32],
    place: Cursor<'_>,
) -> Result<List<u32>, Fault>
    ensures { Gives (λ args. args) result (objects_in declared.now atom wanted.now (left place.entry)) }
{
    let mut args = Vec::new(alloc);
    let mut here = place;
    'items: loop {
        match here.next() {
            Next::End(_) => {
                if args.len() < wanted.len() {
                    return Err(Fault::Arity(atom));
                }
                return Ok(List::from_vec(args));
            }
            Next::Word(at, bytes, rest) => {
                let kind = wanted_at(wanted, args.len());
                let object = next_object(declared, atom, kind, at, bytes)?;
                args.push(object)?;
                here = rest;
            }
            Next::Group(at, _, _) => return Err(Fault::Shape(at)),
        }
    }
}

/// The predicate or function that the word at the byte `at` names, with its objects.
#[tactic(auto, unfolding(crate::specs::Objects::applied))]
fn applied(
    alloc: Global,
    declared: &Declared,
    sigs: &Signatures,
    atom: u32,
    at: u32,
    bytes: &[u8],
    rest: Cursor<'_>,
) -> Result<Filled, Fault>
    ensures { Gives (λ found. found) result (applied declared.now sigs.now atom at bytes.now (left rest.entry)) }
{
    let Some(number) = sigs.names.find(bytes) else {
        return Err(Fault::BadName(at));
    };
    let args = objects_in(alloc, declared, atom, sigs.kinds_of(number), rest)?;
    Ok(Filled { number, args })
}

/// The atom that begins at the byte `atom` with the word at the byte `at`.
#[tactic(auto, unfolding(crate::specs::Objects::atom_in))]
pub fn atom_in(
    alloc: Global,
    declared: &Declared,
    atom: u32,
    at: u32,
    bytes: &[u8],
    rest: Cursor<'_>,
) -> Result<Fact, Fault>
    ensures { Gives (λ fact. fact) result (atom_in declared.now atom at bytes.now (left rest.entry)) }
{
    if !is_name(bytes) {
        return Err(Fault::Shape(at));
    }
    let Filled { number, args } = applied(
        alloc,
        declared,
        &declared.predicates,
        atom,
        at,
        bytes,
        rest,
    )?;
    Ok(Fact { pred: number, args })
}

/// The function with its objects whose group begins at the byte `atom`.
pub fn function_term(
    alloc: Global,
    declared: &Declared,
    atom: u32,
    inside: Cursor<'_>,
) -> Result<Filled, Fault>
    ensures { Gives (λ term. term) result (function_term declared.now atom (left inside.entry)) }
{
    match inside.next() {
        Next::End(close) => Err(Fault::Shape(close)),
        Next::Word(at, bytes, rest) => {
            if is_name(bytes) {
                applied(alloc, declared, &declared.functions, atom, at, bytes, rest)
            } else {
                Err(Fault::Shape(at))
            }
        }
        Next::Group(at, _, _) => Err(Fault::Shape(at)),
    }
}
