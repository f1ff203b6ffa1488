//! What stands for the parameters: terms, tests and durations at given objects.

ghost use Rattle.std.specs.Prelude.{◌≡◌, ◌↔◌, ℕ, IsTrue, MatchBool, MatchOption, All};
ghost use Rattle.cpt_instance.specs.Instances.{HasDuration, TestHolds, object_for, objects_for};
ghost use Rattle.cpt_instance.specs.Values.{IsValueIn, IsValueOf};

use cpt_domain::{Lasting, Term, Test};
use cpt_facts::{Problem, Valued};

/// The object that the term stands for, where the parameters stand for these objects.
pub fn object_for(args: &[u32], term: &Term) -> u32
    ensures { result ≡ object_for args.now term.now }
{
    match term {
        Term::Param(k) => match args.get(*k as usize) {
            None => 0,
            Some(object) => *object,
        },
        Term::Object(object) => *object,
    }
}

fn test_holds(args: &[u32], test: &Test) -> bool
    ensures { IsTrue result ↔ TestHolds args.now test.now }
{
    let same = object_for(args, &test.left) == object_for(args, &test.right);
    same == test.equal
}

/// Whether all tests hold at these objects.
pub fn tests_hold(args: &[u32], tests: &[Test]) -> bool
    ensures { MatchBool result (All (TestHolds args.now) tests.now) (All (TestHolds args.now) tests.now → ⊥) }
{
    tests.iter().all(|test| test_holds(args, test))
}

fn are_objects_for(objects: &[u32], args: &[u32], terms: &[Term]) -> bool
    ensures { IsTrue result ↔ (objects.now ≡ objects_for args.now terms.now) }
{
    if objects.len() != terms.len() {
        return false;
    }
    for (k, term) in terms.iter().enumerate() {
        if objects[k] != object_for(args, term) {
            return false;
        }
    }
    true
}

fn is_value_of(value: &Valued, func: u32, args: &[u32], terms: &[Term]) -> bool
    ensures { IsTrue result ↔ IsValueOf func (objects_for args.now terms.now) value.now }
{
    value.func == func && are_objects_for(value.args.as_slice(), args, terms)
}

fn value_for(values: &[Valued], func: u32, args: &[u32], terms: &[Term]) -> Option<u32>
    ensures { MatchOption result ((n : ℕ) → IsValueIn values.now func (objects_for args.now terms.now) n → ⊥) (IsValueIn values.now func (objects_for args.now terms.now)) }
{
    for value in values {
        if is_value_of(value, func, args, terms) {
            return Some(value.value);
        }
    }
    None
}

/// The duration at these objects: the fixed one, or the problem's value of the function.
pub fn duration_of(problem: &Problem, args: &[u32], dur: &Lasting) -> Option<u32>
    ensures { MatchOption result ((n : ℕ) → HasDuration problem.now args.now dur.now n → ⊥) (HasDuration problem.now args.now dur.now) }
{
    match dur {
        Lasting::Fixed(n) => Some(*n),
        Lasting::Value { func, terms } => {
            value_for(problem.values.as_slice(), *func, args, terms.as_slice())
        }
    }
}
