//! Typed lists: runs of names or variables, each ended by a dash and a type.

ghost use Rattle.std.specs.Prelude.{◌≡◌, ◌++◌, ◌-◌, length, replicate, Ok};
ghost use Rattle.cpt_pddl.specs.Faults.{Gives};
ghost use Rattle.cpt_pddl.specs.Items.{left};
ghost use Rattle.cpt_pddl.specs.Runs.{run_of};
ghost use Rattle.cpt_pddl.specs.Typed.{declared, dashed, finished, fits_sort, limit_of, misplaced, most, named, no_names, padded, taken, type_group, type_word, typed_as, typed_list, typed_rest};

use crate::cursor::{Cursor, Next};
use crate::fault::{Fault, Feature};
use crate::names::Names;
use crate::words::{is_name, is_variable, is_word};
use cpt_task::{Limit, List};
use std::alloc::Global;

/// What a typed list declares.
#[derive(Clone, Copy)]
pub enum Sort {
    /// Names of constants or objects.
    Objects,
    /// Variables: parameters of a schema, a predicate or a function.
    Variables,
}

/// Names in the order of the text, and the type of each.
#[derive(Drop)]
pub struct Typed {
    pub names: Names,
    pub kinds: List<u32>,
}

/// A typed list being read: the names so far, the types of those whose run has ended, and whether a dash was last.
#[derive(Drop)]
pub struct Reading {
    names: Names,
    kinds: Vec<u32>,
    dash: bool,
}

/// Why a group may not stand in the place of a type.
pub fn type_group(at: u32, inside: Cursor<'_>) -> Fault
    ensures { result ≡ type_group at (left inside.entry) }
{
    match inside.next() {
        Next::End(_) => Fault::Shape(at),
        Next::Word(_, bytes, _) => {
            if is_word(bytes, "either") {
                Fault::Feature(Feature::Either, at)
            } else {
                Fault::Shape(at)
            }
        }
        Next::Group(_, _, _) => Fault::Shape(at),
    }
}

/// The number of the type that the word names.
fn type_word(types: &Names, at: u32, bytes: &[u8]) -> Result<u32, Fault>
    ensures { Gives (λ kind. kind) result (type_word types.now at bytes.now) }
{
    if !is_name(bytes) {
        return Err(Fault::Shape(at));
    }
    match types.find(bytes) {
        None => Err(Fault::BadName(at)),
        Some(kind) => Ok(kind),
    }
}

fn fits_sort(sort: Sort, bytes: &[u8]) -> bool
    ensures { result ≡ fits_sort sort bytes.now }
{
    match sort {
        Sort::Objects => is_name(bytes),
        Sort::Variables => is_variable(bytes),
    }
}

fn most(sort: Sort) -> u32
    ensures { result ≡ most sort }
{
    match sort {
        Sort::Objects => 4096,
        Sort::Variables => 16,
    }
}

fn limit_of(sort: Sort) -> Limit
    ensures { result ≡ limit_of sort }
{
    match sort {
        Sort::Objects => Limit::Objects,
        Sort::Variables => Limit::Parameters,
    }
}

/// Adds a name that is not there yet.
#[tactic(auto, unfolding(crate::specs::Typed::declared))]
fn declare(names: &mut Names, sort: Sort, at: u32, bytes: &[u8]) -> Result<(), Fault>
    ensures { Gives (λ _. names.new) result (declared sort names.old at bytes.now) }
{
    if !fits_sort(sort, bytes) {
        return Err(Fault::Shape(at));
    }
    if names.find(bytes).is_some() {
        return Err(Fault::Twice(at));
    }
    if names.len() >= most(sort) {
        return Err(Fault::Limit(limit_of(sort), at));
    }
    names.push(bytes)?;
    Ok(())
}

fn pad(kinds: &mut Vec<u32>, len: usize, kind: u32) -> Result<(), Fault>
    ensures { Gives (λ _. kinds.new.items) result (Ok (padded len kind kinds.old.items)) }
{
    if kinds.len() < len {
        kinds.resize(len, kind)?;
    }
    Ok(())
}

impl Reading {
    #[tactic(auto, unfolding(crate::specs::Typed::dashed))]
    fn dashed(&mut self, at: u32) -> Result<(), Fault>
        ensures { Gives (λ _. run_of self.new) result (dashed (run_of self.old) at) }
    {
        if self.names.len() as usize == self.kinds.len() {
            return Err(Fault::Shape(at));
        }
        self.dash = true;
        Ok(())
    }

    #[tactic(auto, unfolding(crate::specs::Typed::typed_as))]
    fn typed_as(&mut self, types: &Names, at: u32, bytes: &[u8]) -> Result<(), Fault>
        ensures { Gives (λ _. run_of self.new) result (typed_as types.now (run_of self.old) at bytes.now) }
    {
        let kind = type_word(types, at, bytes)?;
        pad(&mut self.kinds, self.names.len() as usize, kind)?;
        self.dash = false;
        Ok(())
    }

    #[tactic(auto, unfolding(crate::specs::Typed::named))]
    fn named(&mut self, sort: Sort, at: u32, bytes: &[u8]) -> Result<(), Fault>
        ensures { Gives (λ _. run_of self.new) result (named sort (run_of self.old) at bytes.now) }
    {
        declare(&mut self.names, sort, at, bytes)
    }

    #[tactic(auto, unfolding(crate::specs::Typed::taken))]
    fn take(&mut self, sort: Sort, types: &Names, at: u32, bytes: &[u8]) -> Result<(), Fault>
        ensures { Gives (λ _. run_of self.new) result (taken sort types.now (run_of self.old) at bytes.now) }
    {
        if self.dash {
            self.typed_as(types, at, bytes)
        } else if is_word(bytes, "-") {
            self.dashed(at)
        } else {
            self.named(sort, at, bytes)
        }
    }

    fn misplaced(&self, at: u32, inside: Cursor<'_>) -> Fault
        ensures { result ≡ misplaced (run_of self.now) at (left inside.entry) }
    {
        if self.dash {
            type_group(at, inside)
        } else {
            Fault::Shape(at)
        }
    }

    #[tactic(auto, unfolding(crate::specs::Typed::finished))]
    fn finish(self, close: u32) -> Result<Typed, Fault>
        ensures { Gives (λ typed. typed) result (finished (run_of self) close) }
    {
        let Reading {
            names,
            mut kinds,
            dash,
        } = self;
        if dash {
            return Err(Fault::Shape(close));
        }
        pad(&mut kinds, names.len() as usize, 0)?;
        Ok(Typed {
            names,
            kinds: List::from_vec(kinds),
        })
    }
}

/// Names or variables with their types, to the end of the group, after those that are known. A run without a type
/// is of type 0.
#[tactic(auto, unfolding(crate::specs::Typed::typed_list))]
pub fn typed_list(
    sort: Sort,
    types: &Names,
    known: Typed,
    place: Cursor<'_>,
) -> Result<Typed, Fault>
    ensures { Gives (λ typed. typed) result (typed_list sort types.now known (left place.entry)) }
{
    let Typed { names, kinds } = known;
    let mut run = Reading {
        names,
        kinds: kinds.into_vec(),
        dash: false,
    };
    let mut here = place;
    'items: loop {
        match here.next() {
            Next::End(close) => return run.finish(close),
            Next::Word(at, bytes, rest) => {
                run.take(sort, types, at, bytes)?;
                here = rest;
            }
            Next::Group(at, inside, _) => return Err(run.misplaced(at, inside)),
        }
    }
}

impl Typed {
    /// No names.
    pub fn new(alloc: Global) -> Typed
        ensures { result ≡ no_names }
    {
        Typed {
            names: Names::new(alloc),
            kinds: List::from_vec(Vec::new(alloc)),
        }
    }
}
