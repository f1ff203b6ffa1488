//! What holds at first: atoms, and values of functions.

ghost use Rattle.std.specs.Prelude.{◌≡◌};
ghost use Rattle.cpt_pddl.specs.Faults.{Gives};
ghost use Rattle.cpt_pddl.specs.Items.{left};
ghost use Rattle.cpt_pddl.specs.Words.{head_of};
ghost use Rattle.cpt_problem.specs.Inits.{equation, init_by, init_in, inits_in, is_timed, is_value, nothing_begun, unless_known, value_by, value_in, value_at, with_fact, with_value};
ghost use Rattle.cpt_problem.specs.Shapes.{begun_of};

use crate::atoms::{Filled, atom_in, function_term};
use crate::timing::Timing;
use crate::values::Values;
use cpt_declared::Declared;
use cpt_facts::{Fact, Valued};
use cpt_pddl::{Cursor, Fault, Feature, Head, Next, head_of, nothing, number_in};
use cpt_schema::Schema;
use std::alloc::Global;

/// What holds at first, so far.
#[derive(Drop)]
pub struct Inits {
    pub facts: Vec<Fact>,
    pub values: Values,
}

fn unless_known(alloc: Global, values: &Values, item: u32, term: &Filled) -> Result<(), Fault>
    ensures { Gives (λ _. tt) result (unless_known values.now.items.items item term.now) }
{
    if values.has(alloc, term.number, term.args.as_slice())? {
        Err(Fault::Twice(item))
    } else {
        Ok(())
    }
}

fn is_value(lasting: bool, n: u64) -> bool
    ensures { result ≡ is_value lasting n }
{
    if lasting {
        n >= 1 && n <= 100_000
    } else {
        n <= 4_294_967_295
    }
}

fn value_by(lasting: bool, at: u32, number: Option<u64>) -> Result<u32, Fault>
    ensures { Gives (λ n. n) result (value_by lasting at number) }
{
    match number {
        None => Err(Fault::Duration(at)),
        Some(n) => {
            if is_value(lasting, n) {
                Ok(n as u32)
            } else {
                Err(Fault::Duration(at))
            }
        }
    }
}

fn value_in(lasting: bool, place: Cursor<'_>) -> Result<u32, Fault>
    ensures { Gives (λ n. n) result (value_in lasting (left place.entry)) }
{
    match place.next() {
        Next::End(close) => Err(Fault::Shape(close)),
        Next::Word(at, bytes, rest) => {
            let value = value_by(lasting, at, number_in(bytes))?;
            nothing(rest)?;
            Ok(value)
        }
        Next::Group(at, _, _) => Err(Fault::Shape(at)),
    }
}

#[tactic(auto, unfolding(crate::specs::Inits::value_at))]
fn value_at(
    alloc: Global,
    timing: &Timing<'_>,
    declared: &Declared,
    values: &Values,
    item: u32,
    at: u32,
    inside: Cursor<'_>,
    rest: Cursor<'_>,
) -> Result<Valued, Fault>
    ensures { Gives (λ value. value) result (value_at timing.now.schemas.now declared.now values.now.items.items item at (left inside.entry) (left rest.entry)) }
{
    let term = function_term(alloc, declared, at, inside)?;
    unless_known(alloc, values, item, &term)?;
    let value = value_in(timing.is_duration(term.number), rest)?;
    let Filled { number, args } = term;
    Ok(Valued {
        func: number,
        args,
        value,
    })
}

fn equation(
    alloc: Global,
    timing: &Timing<'_>,
    declared: &Declared,
    values: &Values,
    item: u32,
    place: Cursor<'_>,
) -> Result<Valued, Fault>
    ensures { Gives (λ value. value) result (equation timing.now.schemas.now declared.now values.now.items.items item (left place.entry)) }
{
    match place.next() {
        Next::End(_) => Err(Fault::Feature(Feature::Numeric, item)),
        Next::Word(_, _, _) => Err(Fault::Feature(Feature::Numeric, item)),
        Next::Group(at, inside, rest) => {
            value_at(alloc, timing, declared, values, item, at, inside, rest)
        }
    }
}

fn is_timed(place: Cursor<'_>) -> bool
    ensures { result ≡ is_timed (left place.entry) }
{
    match place.next() {
        Next::End(_) => false,
        Next::Word(_, bytes, _) => number_in(bytes).is_some(),
        Next::Group(_, _, _) => false,
    }
}

impl Inits {
    /// Nothing yet.
    pub fn new(alloc: Global) -> Inits
        ensures { begun_of result ≡ nothing_begun }
    {
        Inits {
            facts: Vec::new(alloc),
            values: Values::new(alloc),
        }
    }

    #[tactic(auto, unfolding(crate::specs::Inits::with_fact))]
    fn read_fact(
        &mut self,
        alloc: Global,
        declared: &Declared,
        item: u32,
        at: u32,
        bytes: &[u8],
        rest: Cursor<'_>,
    ) -> Result<(), Fault>
        ensures { Gives (λ _. begun_of self.new) result (with_fact declared.now (begun_of self.old) item at bytes.now (left rest.entry)) }
    {
        let fact = atom_in(alloc, declared, item, at, bytes, rest)?;
        self.facts.push(fact)?;
        Ok(())
    }

    #[tactic(auto, unfolding(crate::specs::Inits::with_value))]
    fn read_value(
        &mut self,
        alloc: Global,
        timing: &Timing<'_>,
        declared: &Declared,
        item: u32,
        rest: Cursor<'_>,
    ) -> Result<(), Fault>
        ensures { Gives (λ _. begun_of self.new) result (with_value timing.now.schemas.now declared.now (begun_of self.old) item (left rest.entry)) }
    {
        let value = equation(alloc, timing, declared, &self.values, item, rest)?;
        self.values.push(alloc, value)
    }

    fn read_by(
        &mut self,
        alloc: Global,
        timing: &Timing<'_>,
        declared: &Declared,
        item: u32,
        at: u32,
        bytes: &[u8],
        rest: Cursor<'_>,
    ) -> Result<(), Fault>
        ensures { Gives (λ _. begun_of self.new) result (init_by timing.now.schemas.now declared.now (begun_of self.old) item at bytes.now (left rest.entry) (head_of bytes.now)) }
    {
        match head_of(bytes) {
            Head::And => self.read_fact(alloc, declared, item, at, bytes, rest),
            Head::Not => Err(Fault::Feature(Feature::Negative, item)),
            Head::Equal => self.read_value(alloc, timing, declared, item, rest),
            Head::At => {
                if is_timed(rest) {
                    Err(Fault::Feature(Feature::Timed, item))
                } else {
                    self.read_fact(alloc, declared, item, at, bytes, rest)
                }
            }
            Head::Over => self.read_fact(alloc, declared, item, at, bytes, rest),
            Head::Untaken(_) => self.read_fact(alloc, declared, item, at, bytes, rest),
            Head::Numeric => self.read_fact(alloc, declared, item, at, bytes, rest),
            Head::Other => self.read_fact(alloc, declared, item, at, bytes, rest),
        }
    }

    fn read(
        &mut self,
        alloc: Global,
        timing: &Timing<'_>,
        declared: &Declared,
        item: u32,
        inside: Cursor<'_>,
    ) -> Result<(), Fault>
        ensures { Gives (λ _. begun_of self.new) result (init_in timing.now.schemas.now declared.now (begun_of self.old) item (left inside.entry)) }
    {
        match inside.next() {
            Next::End(close) => Err(Fault::Shape(close)),
            Next::Word(at, bytes, rest) => {
                self.read_by(alloc, timing, declared, item, at, bytes, rest)
            }
            Next::Group(at, _, _) => Err(Fault::Shape(at)),
        }
    }
}

/// What holds at first, to the end of the group.
pub fn inits_in(
    alloc: Global,
    schemas: &[Schema],
    declared: &Declared,
    place: Cursor<'_>,
) -> Result<Inits, Fault>
    ensures { Gives begun_of result (inits_in schemas.now declared.now nothing_begun (left place.entry)) }
{
    let timing = Timing::of(alloc, schemas)?;
    let mut inits = Inits::new(alloc);
    let mut here = place;
    'items: loop {
        match here.next() {
            Next::End(_) => return Ok(inits),
            Next::Word(at, _, _) => return Err(Fault::Shape(at)),
            Next::Group(item, inside, rest) => {
                inits.read(alloc, &timing, declared, item, inside)?;
                here = rest;
            }
        }
    }
}
