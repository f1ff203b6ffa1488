//! The predicates and functions of a domain.

ghost use Rattle.std.specs.Prelude.{◌≡◌, ◌∷◌, ◌++◌, [], length, slice_index_or, Ok};
ghost use Rattle.cpt_pddl.specs.Faults.{Gives};
ghost use Rattle.cpt_pddl.specs.Items.{left};
ghost use Rattle.cpt_declared.specs.Signatures.{after_word, function_at, functions_end, functions_in, functions_rest, is_refused, is_reserved, named_signature, new_name, no_signatures, predicates_in, signature, with_signature, words_only};

use cpt_pddl::{Cursor, Fault, Head, Names, Next, Typed, head_of, is_name, is_word, typed_list};
use cpt_task::List;
use std::alloc::Global;

/// Predicates or functions by number: their names, and the types of the variables of each.
#[derive(Drop)]
pub struct Signatures {
    pub names: Names,
    pub kinds: List<List<u32>>,
}

/// What signatures are of.
#[derive(Clone, Copy)]
pub enum Sort {
    Predicates,
    Functions,
}

/// What stood last between functions.
#[derive(Clone, Copy)]
pub enum Last {
    /// Nothing, or the word `number`.
    Start,
    /// A function.
    Behind,
    /// A dash.
    Dash,
}

fn is_reserved(head: Head) -> bool
    ensures { result ≡ is_reserved head }
{
    match head {
        Head::And => true,
        Head::Not => true,
        Head::Equal => true,
        Head::At => false,
        Head::Over => true,
        Head::Untaken(_) => true,
        Head::Numeric => false,
        Head::Other => false,
    }
}

fn is_refused(sort: Sort, bytes: &[u8]) -> bool
    ensures { result ≡ is_refused sort bytes.now }
{
    match sort {
        Sort::Predicates => is_reserved(head_of(bytes)),
        Sort::Functions => false,
    }
}

#[tactic(auto, unfolding(crate::specs::Signatures::new_name))]
fn new_name(sort: Sort, names: &Names, at: u32, bytes: &[u8]) -> Result<(), Fault>
    ensures { Gives (λ _. tt) result (new_name sort names.now at bytes.now) }
{
    if is_refused(sort, bytes) {
        return Err(Fault::BadName(at));
    }
    if !is_name(bytes) {
        return Err(Fault::Shape(at));
    }
    if names.find(bytes).is_some() {
        return Err(Fault::Twice(at));
    }
    Ok(())
}

impl Signatures {
    /// No predicates or functions.
    pub fn new(alloc: Global) -> Signatures
        ensures { result ≡ no_signatures }
    {
        Signatures {
            names: Names::new(alloc),
            kinds: List::from_vec(Vec::new(alloc)),
        }
    }

    /// The types of the variables of the one with this number; none where no such number is there.
    pub fn kinds_of(&self, number: u32) -> &[u32]
        ensures { result.now ≡ slice_index_or self.now.kinds number [] }
    {
        match self.kinds.as_slice().get(number as usize) {
            None => &[],
            Some(kinds) => kinds.as_slice(),
        }
    }

    #[tactic(auto, using(crate::proofs::InsertLemmas::insert_end))]
    fn push(&mut self, bytes: &[u8], kinds: List<u32>) -> Result<(), Fault>
        ensures { Gives (λ _. self.new) result (Ok (with_signature self.old bytes.now kinds)) }
    {
        self.names.push(bytes)?;
        let place = self.kinds.as_slice().len();
        self.kinds.insert(place, kinds)?;
        Ok(())
    }

    #[tactic(auto, unfolding(crate::specs::Signatures::named_signature))]
    fn read_named(
        &mut self,
        alloc: Global,
        sort: Sort,
        types: &Names,
        at: u32,
        bytes: &[u8],
        rest: Cursor<'_>,
    ) -> Result<(), Fault>
        ensures { Gives (λ _. self.new) result (named_signature sort types.now self.old at bytes.now (left rest.entry)) }
    {
        new_name(sort, &self.names, at, bytes)?;
        let typed = typed_list(cpt_pddl::Sort::Variables, types, Typed::new(alloc), rest)?;
        let Typed { kinds, .. } = typed;
        self.push(bytes, kinds)?;
        Ok(())
    }

    /// Reads what is in the group of a predicate or function.
    fn read_signature(
        &mut self,
        alloc: Global,
        sort: Sort,
        types: &Names,
        inside: Cursor<'_>,
    ) -> Result<(), Fault>
        ensures { Gives (λ _. self.new) result (signature sort types.now self.old (left inside.entry)) }
    {
        match inside.next() {
            Next::End(close) => Err(Fault::Shape(close)),
            Next::Word(at, bytes, rest) => self.read_named(alloc, sort, types, at, bytes, rest),
            Next::Group(at, _, _) => Err(Fault::Shape(at)),
        }
    }

    fn read_function(
        &mut self,
        alloc: Global,
        last: Last,
        types: &Names,
        at: u32,
        inside: Cursor<'_>,
    ) -> Result<(), Fault>
        ensures { Gives (λ _. self.new) result (function_at last types.now self.old at (left inside.entry)) }
    {
        match last {
            Last::Start => self.read_signature(alloc, Sort::Functions, types, inside),
            Last::Behind => self.read_signature(alloc, Sort::Functions, types, inside),
            Last::Dash => Err(Fault::Shape(at)),
        }
    }
}

/// The predicates of a section, after those that are known.
pub fn predicates_in(
    alloc: Global,
    types: &Names,
    known: Signatures,
    place: Cursor<'_>,
) -> Result<Signatures, Fault>
    ensures { Gives (λ sigs. sigs) result (predicates_in types.now known (left place.entry)) }
{
    let mut sigs = known;
    let mut here = place;
    'items: loop {
        match here.next() {
            Next::End(_) => return Ok(sigs),
            Next::Word(at, _, _) => return Err(Fault::Shape(at)),
            Next::Group(_, inside, rest) => {
                sigs.read_signature(alloc, Sort::Predicates, types, inside)?;
                here = rest;
            }
        }
    }
}

fn after_word(last: Last, at: u32, bytes: &[u8]) -> Result<Last, Fault>
    ensures { Gives (λ next. next) result (after_word last at bytes.now) }
{
    match last {
        Last::Start => Err(Fault::Shape(at)),
        Last::Behind => {
            if is_word(bytes, "-") {
                Ok(Last::Dash)
            } else {
                Err(Fault::Shape(at))
            }
        }
        Last::Dash => {
            if is_word(bytes, "number") {
                Ok(Last::Start)
            } else {
                Err(Fault::Shape(at))
            }
        }
    }
}

fn functions_end(last: Last, sigs: Signatures, close: u32) -> Result<Signatures, Fault>
    ensures { Gives (λ sigs. sigs) result (functions_end last sigs close) }
{
    match last {
        Last::Start => Ok(sigs),
        Last::Behind => Ok(sigs),
        Last::Dash => Err(Fault::Shape(close)),
    }
}

/// The functions of a section, after those that are known.
#[tactic(auto, unfolding(crate::specs::Signatures::functions_in))]
pub fn functions_in(
    alloc: Global,
    types: &Names,
    known: Signatures,
    place: Cursor<'_>,
) -> Result<Signatures, Fault>
    ensures { Gives (λ sigs. sigs) result (functions_in types.now known (left place.entry)) }
{
    let mut sigs = known;
    let mut last = Last::Start;
    let mut here = place;
    'items: loop {
        match here.next() {
            Next::End(close) => return functions_end(last, sigs, close),
            Next::Word(at, bytes, rest) => {
                last = after_word(last, at, bytes)?;
                here = rest;
            }
            Next::Group(at, inside, rest) => {
                sigs.read_function(alloc, last, types, at, inside)?;
                last = Last::Behind;
                here = rest;
            }
        }
    }
}

/// Words of any kind, to the end of the group.
pub fn words_only(place: Cursor<'_>) -> Result<(), Fault>
    ensures { Gives (λ _. tt) result (words_only (left place.entry)) }
{
    let mut here = place;
    'items: loop {
        match here.next() {
            Next::End(_) => return Ok(()),
            Next::Word(_, _, rest) => here = rest,
            Next::Group(at, _, _) => return Err(Fault::Shape(at)),
        }
    }
}
