//! Names of instances, and the objects that they name.

ghost use Rattle.std.specs.Prelude.{◌≡◌, ℕ, ◌+◌, ◌<◌, ◌≤◌, ◌^◌, None, Some, MatchBool, MatchOption, length, map, take, slice_index};
ghost use Rattle.cpt_domain.specs.declared.domain.ObjectDecl.{ObjectDecl};
ghost use Rattle.cpt_domain.specs.declared.domain.TypeDecl.{TypeDecl};
ghost use Rattle.cpt_facts.specs.Fitting.{object_names, objects_of};
ghost use Rattle.cpt_pddl.specs.Kinds.{is_below};
ghost use Rattle.cpt_pddl.specs.Names.{place_from};
ghost use Rattle.cpt_instance.specs.Instances.{is_of, object_at, parents_of};
ghost use Rattle.cpt_instance.specs.Named.{arg_named, blank_at, read_arg, read_args};

use cpt_domain::{Domain, ObjectDecl, TypeDecl};
use cpt_facts::Problem;

fn parent_of(types: &[TypeDecl], kind: u32) -> u32
    ensures { result ≡ slice_index (map (λ (t : TypeDecl). t.parent) types.now) kind }
{
    match types.get(kind as usize) {
        None => 0,
        Some(declared) => declared.parent,
    }
}

/// Whether the type is the wanted one or below it.
#[tactic(auto, using(crate::proofs::KindLemmas::climb_on), unfolding(cpt_pddl::specs::Kinds::is_below))]
pub fn is_below(types: &[TypeDecl], kind: u32, wanted: u32) -> bool
    ensures { result ≡ is_below (map (λ (t : TypeDecl). t.parent) types.now) kind wanted }
{
    let mut here = kind;
    for step in 0..types.len() {
        if here == wanted {
            return true;
        }
        if here == 0 {
            return false;
        }
        here = parent_of(types, here);
    }
    here == wanted
}

fn named(objects: &[ObjectDecl], from: u32, word: &[u8]) -> Option<u32>
    requires { from + length objects.now < 2 ^ 32 }
    ensures { result ≡ place_from (map (λ (o : ObjectDecl). o.name) objects.now) from word.now }
{
    for (k, object) in objects.iter().enumerate() {
        if object.name.as_slice() == word {
            return Some(from + k as u32);
        }
    }
    None
}

fn object_named(domain: &Domain, problem: &Problem, word: &[u8]) -> Option<u32>
    requires { length (objects_of domain.now problem.now) ≤ 4096 }
    ensures { result ≡ place_from (object_names domain.now problem.now) 0 word.now }
{
    let constants = domain.constants.as_slice();
    match named(constants, 0, word) {
        Some(object) => Some(object),
        None => named(problem.objects.as_slice(), constants.len() as u32, word),
    }
}

fn kind_of(domain: &Domain, problem: &Problem, object: u32) -> u32
    ensures { result ≡ (object_at domain.now problem.now object).kind }
{
    let constants = domain.constants.as_slice();
    let place = object as usize;
    if place < constants.len() {
        return constants[place].kind;
    }
    match problem.objects.as_slice().get(place - constants.len()) {
        None => 0,
        Some(declared) => declared.kind,
    }
}

/// The place of the first blank, or the length.
pub fn blank_at(text: &[u8]) -> usize
    ensures value { result ≡ blank_at text.now }
    ensures within { result ≤ length text.now }
{
    for (k, b) in text.iter().enumerate() {
        if *b == b' ' {
            return k;
        }
    }
    text.len()
}

fn arg_named<'a>(
    domain: &Domain,
    problem: &Problem,
    kind: u32,
    text: &'a [u8],
) -> Option<(u32, &'a [u8])>
    requires { length (objects_of domain.now problem.now) ≤ 4096 }
    ensures { let found = arg_named domain.now problem.now kind text.now (place_from (object_names domain.now problem.now) 0 (take (blank_at text.now) text.now)) in MatchOption result (found ≡ None) (λ x. found ≡ Some (x.0, x.1.now)) }
{
    let end = blank_at(text);
    match object_named(domain, problem, &text[..end]) {
        None => None,
        Some(object) => {
            let types = domain.types.as_slice();
            if is_below(types, kind_of(domain, problem, object), kind) {
                Some((object, &text[end..]))
            } else {
                None
            }
        }
    }
}

fn read_arg<'a>(
    domain: &Domain,
    problem: &Problem,
    kind: u32,
    text: &'a [u8],
) -> Option<(u32, &'a [u8])>
    requires { length (objects_of domain.now problem.now) ≤ 4096 }
    ensures { MatchOption result (read_arg domain.now problem.now kind text.now ≡ None) (λ x. read_arg domain.now problem.now kind text.now ≡ Some (x.0, x.1.now)) }
{
    match text {
        [] => None,
        [b, rest @ ..] => {
            if *b == b' ' {
                arg_named(domain, problem, kind, rest)
            } else {
                None
            }
        }
    }
}

/// Writes the objects of these types that the text names, with a blank before each, and nothing behind them.
pub fn read_args(
    domain: &Domain,
    problem: &Problem,
    kinds: &[u32],
    text: &[u8],
    objects: &mut [u32],
) -> bool
    requires few { length (objects_of domain.now problem.now) ≤ 4096 }
    requires room { length kinds.now ≤ length objects.old }
    ensures { MatchBool result (read_args domain.now problem.now kinds.now text.now ≡ Some (take (length kinds.now) objects.new)) (read_args domain.now problem.now kinds.now text.now ≡ None) }
{
    let mut rest = text;
    for (k, kind) in kinds.iter().enumerate() {
        match read_arg(domain, problem, *kind, rest) {
            None => return false,
            Some((object, behind)) => {
                objects[k] = object;
                rest = behind;
            }
        }
    }
    rest.is_empty()
}
