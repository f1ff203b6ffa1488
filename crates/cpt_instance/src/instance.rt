//! Which instance a name is of, and its duration.

ghost use Rattle.std.specs.Prelude.{◌≡◌, ◌≢◌, ℕ, ◌<◌, ◌++◌, ◌∷◌, [], List, All, MatchOption, length, map};
ghost use Rattle.cpt_domain.specs.Sound.{IsSound};
ghost use Rattle.cpt_facts.specs.Fitting.{Fits};
ghost use Rattle.cpt_pddl.specs.Names.{place_from};
ghost use Rattle.cpt_schema.specs.declared.schemas.Schema.{Schema};
ghost use Rattle.cpt_instance.specs.Instances.{HasDuration, Instance, TestHolds, schema_at};
ghost use Rattle.cpt_instance.specs.NameReading.{named_duration};
ghost use Rattle.cpt_instance.specs.Named.{IsBehind, IsInside, IsNamed};

use crate::bindings::{duration_of, tests_hold};
use crate::names::{blank_at, read_args};
use cpt_domain::{Domain, Schema};
use cpt_facts::Problem;

fn schema_named(schemas: &[Schema], word: &[u8]) -> Option<usize>
    ensures { result ≡ place_from (map (λ (s : Schema). s.name) schemas.now) 0 word.now }
{
    for (k, schema) in schemas.iter().enumerate() {
        if schema.name.as_slice() == word {
            return Some(k);
        }
    }
    None
}

fn schema_at(domain: &Domain, k: usize) -> &Schema
    requires { k < length domain.now.schemas }
    ensures { result.now ≡ schema_at domain.now k }
{
    &domain.schemas.as_slice()[k]
}

fn timed(problem: &Problem, schema: &Schema, args: &[u32]) -> Option<u32>
    ensures { MatchOption result ((dur : ℕ) → All (TestHolds args.now) schema.now.tests → HasDuration problem.now args.now schema.now.dur dur → ⊥) (λ dur. All (TestHolds args.now) schema.now.tests × HasDuration problem.now args.now schema.now.dur dur) }
{
    if !tests_hold(args, schema.tests.as_slice()) {
        return None;
    }
    duration_of(problem, args, &schema.dur)
}

fn behind_schema(domain: &Domain, problem: &Problem, k: usize, text: &[u8]) -> Option<u32>
    requires sound { IsSound domain.now }
    requires fits { Fits domain.now problem.now }
    requires known { k < length domain.now.schemas }
    ensures { MatchOption result ((dur : ℕ) (args : List ℕ) → IsBehind domain.now problem.now k text.now dur args → ⊥) (λ dur. (args : List ℕ) × IsBehind domain.now problem.now k text.now dur args) }
{
    let schema = schema_at(domain, k);
    let kinds = schema.kinds.as_slice();
    let mut objects = [0u32; 16];
    if !read_args(domain, problem, kinds, text, &mut objects) {
        return None;
    }
    timed(problem, schema, &objects[..kinds.len()])
}

fn instance_inside(domain: &Domain, problem: &Problem, text: &[u8]) -> Option<u32>
    requires sound { IsSound domain.now }
    requires fits { Fits domain.now problem.now }
    ensures { MatchOption result ((dur : ℕ) (i : Instance) → IsInside domain.now problem.now text.now dur i → ⊥) (λ dur. (i : Instance) × IsInside domain.now problem.now text.now dur i) }
{
    let end = blank_at(text);
    match schema_named(domain.schemas.as_slice(), &text[..end]) {
        None => None,
        Some(k) => behind_schema(domain, problem, k, &text[end..]),
    }
}

fn inside(name: &[u8]) -> Option<&[u8]>
    ensures { MatchOption result ((text : List ℕ) → name.now ≢ 40 ∷ (text ++ (41 ∷ []))) (λ text. name.now ≡ 40 ∷ (text.now ++ (41 ∷ []))) }
{
    match name {
        [first, text @ .., last] => {
            if *first == b'(' && *last == b')' {
                Some(text)
            } else {
                None
            }
        }
        _ => None,
    }
}

fn instance_named(domain: &Domain, problem: &Problem, name: &[u8]) -> Option<u32>
    requires sound { IsSound domain.now }
    requires fits { Fits domain.now problem.now }
    ensures { MatchOption result ((dur : ℕ) (i : Instance) → IsNamed domain.now problem.now name.now dur i → ⊥) (λ dur. (i : Instance) × IsNamed domain.now problem.now name.now dur i) }
{
    match inside(name) {
        None => None,
        Some(text) => instance_inside(domain, problem, text),
    }
}

/// The duration of the instance that has this name, spelled as `(schema object ..)`. `None` where no instance has
/// it. It takes no memory.
pub fn instance_of(domain: &Domain, problem: &Problem, name: &[u8]) -> Option<u32>
    requires sound { IsSound domain.now }
    requires fits { Fits domain.now problem.now }
    ensures named { MatchOption result ((dur : ℕ) (i : Instance) → IsNamed domain.now problem.now name.now dur i → ⊥) (λ dur. (i : Instance) × IsNamed domain.now problem.now name.now dur i) }
    // It is what is read from the name.
    ensures read { result ≡ named_duration domain.now problem.now name.now }
{
    instance_named(domain, problem, name)
}
