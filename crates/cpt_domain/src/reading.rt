//! Reads a domain.

ghost use Rattle.std.specs.Prelude.{◌≡◌, Ok, IfOk};
ghost use Rattle.cpt_pddl.specs.Faults.{Gives};
ghost use Rattle.cpt_pddl.specs.Items.{left, said_by};
ghost use Rattle.cpt_domain.specs.Errors.{Answers, domain_error, of_domain};
ghost use Rattle.cpt_domain.specs.Parts.{part_of};
ghost use Rattle.cpt_domain.specs.Sound.{IsSound};
ghost use Rattle.cpt_domain.specs.Reading.{assembled, definition, domain_in, domain_of, function_list, name_in, nothing_declared, nothing_read, object_decls, part_by, part_in, parts_in, predicate_list, section_in, type_decls, with_action, with_declared};

use crate::domain::{Domain, Function, ObjectDecl, Predicate, TypeDecl};
use crate::error::DomainError;
use crate::keys::{Key, Section, Seen, key_of};
use cpt_declared::{
    Declared, Signatures, functions_in, kinds_in, object_alone, predicates_in, words_only,
};
use cpt_pddl::{
    Cursor, Fault, Feature, Names, Next, Sort, Typed, after_word, group_at, name_at, nothing,
    paired, typed_list,
};
use cpt_schema::{Schema, schema_in};
use cpt_sexp::Forest;
use cpt_task::{List, Name};
use std::alloc::Global;

/// A domain while it is read: what is declared, which sections stood, the names of its actions, its actions, and
/// whether one stood.
#[derive(Drop)]
pub struct State {
    declared: Declared,
    seen: Seen,
    names: Names,
    schemas: Vec<Schema>,
    acting: bool,
}

fn nothing_declared(alloc: Global) -> Result<Declared, Fault>
    ensures { Gives (λ declared. declared) result (Ok nothing_declared) }
{
    let types = object_alone(alloc)?;
    Ok(Declared {
        types,
        constants: Typed::new(alloc),
        predicates: Signatures::new(alloc),
        functions: Signatures::new(alloc),
    })
}

fn read_section(
    declared: &mut Declared,
    alloc: Global,
    section: Section,
    at: u32,
    items: Cursor<'_>,
) -> Result<(), Fault>
    ensures { Gives (λ _. declared.new) result (section_in section declared.old at (left items.entry)) }
{
    match section {
        Section::Requirements => words_only(items)?,
        Section::Types => declared.types = kinds_in(alloc, at, items)?,
        Section::Constants => {
            let constants = typed_list(
                Sort::Objects,
                &declared.types.names,
                Typed::new(alloc),
                items,
            )?;
            declared.constants = constants;
        }
        Section::Predicates => {
            let sigs = predicates_in(alloc, &declared.types.names, Signatures::new(alloc), items)?;
            declared.predicates = sigs;
        }
        Section::Functions => {
            let sigs = functions_in(alloc, &declared.types.names, Signatures::new(alloc), items)?;
            declared.functions = sigs;
        }
    }
    Ok(())
}

impl State {
    #[tactic(auto, unfolding(crate::specs::Reading::with_declared))]
    fn declare(
        &mut self,
        alloc: Global,
        section: Section,
        at: u32,
        keyword: u32,
        items: Cursor<'_>,
    ) -> Result<(), Fault>
        ensures { Gives (λ _. part_of self.new) result (with_declared section (part_of self.old) at keyword (left items.entry)) }
    {
        if self.acting {
            return Err(Fault::Shape(keyword));
        }
        if self.seen.has(section) {
            return Err(Fault::Twice(at));
        }
        read_section(&mut self.declared, alloc, section, at, items)?;
        self.seen = self.seen.with(section);
        Ok(())
    }

    #[tactic(auto, unfolding(crate::specs::Reading::with_action))]
    fn act(&mut self, alloc: Global, durative: bool, items: Cursor<'_>) -> Result<(), Fault>
        ensures { Gives (λ _. part_of self.new) result (with_action durative (part_of self.old) (left items.entry)) }
    {
        let schema = schema_in(alloc, durative, &self.declared, &self.names, items)?;
        self.names.push(schema.name.as_slice())?;
        self.schemas.push(schema)?;
        self.acting = true;
        Ok(())
    }

    fn read_part(&mut self, alloc: Global, at: u32, inside: Cursor<'_>) -> Result<(), Fault>
        ensures { Gives (λ _. part_of self.new) result (part_in (part_of self.old) at (left inside.entry)) }
    {
        match inside.next() {
            Next::End(close) => Err(Fault::Shape(close)),
            Next::Word(keyword, bytes, rest) => match key_of(bytes) {
                Key::Section(section) => self.declare(alloc, section, at, keyword, rest),
                Key::Action(durative) => self.act(alloc, durative, rest),
                Key::Untaken => Err(if self.acting {
                    Fault::Shape(keyword)
                } else {
                    Fault::Feature(Feature::Section, at)
                }),
                Key::Other => Err(Fault::Shape(keyword)),
            },
            Next::Group(a, _, _) => Err(Fault::Shape(a)),
        }
    }
}

fn start(alloc: Global) -> Result<State, Fault>
    ensures { Gives part_of result (Ok nothing_read) }
{
    let declared = nothing_declared(alloc)?;
    Ok(State {
        declared,
        seen: Seen::new(),
        names: Names::new(alloc),
        schemas: Vec::new(alloc),
        acting: false,
    })
}

fn parts_in(alloc: Global, place: Cursor<'_>) -> Result<State, Fault>
    ensures { Gives part_of result (parts_in nothing_read (left place.entry)) }
{
    let mut state = start(alloc)?;
    let mut here = place;
    'items: loop {
        match here.next() {
            Next::End(_) => return Ok(state),
            Next::Word(at, _, _) => return Err(Fault::Shape(at)),
            Next::Group(at, inside, rest) => {
                state.read_part(alloc, at, inside)?;
                here = rest;
            }
        }
    }
}

fn name_of(alloc: Global, bytes: &[u8]) -> Result<Name, Fault>
    ensures { Gives (λ name. name) result (Ok bytes.now) }
{
    let mut name = Vec::new(alloc);
    name.extend_from_slice(bytes)?;
    Ok(List::from_vec(name))
}

#[tactic(auto, unfolding(crate::specs::Reading::name_in))]
fn name_in(alloc: Global, place: Cursor<'_>) -> Result<Name, Fault>
    ensures { Gives (λ name. name) result (name_in (left place.entry)) }
{
    let rest = after_word("domain", place)?;
    let (_, name, rest) = name_at(rest)?;
    nothing(rest)?;
    name_of(alloc, name)
}

fn type_decls(alloc: Global, names: Vec<Name>, parents: Vec<u32>) -> Result<List<TypeDecl>, Fault>
    ensures { Gives (λ decls. decls) result (Ok (type_decls names.items parents.items)) }
{
    let decls: Vec<TypeDecl> = paired(alloc, names, parents)?
        .into_iter()
        .map(|(name, parent)| TypeDecl { name, parent })
        .collect(alloc)?;
    Ok(List::from_vec(decls))
}

fn object_decls(alloc: Global, names: Vec<Name>, kinds: Vec<u32>) -> Result<List<ObjectDecl>, Fault>
    ensures { Gives (λ decls. decls) result (Ok (object_decls names.items kinds.items)) }
{
    let decls: Vec<ObjectDecl> = paired(alloc, names, kinds)?
        .into_iter()
        .map(|(name, kind)| ObjectDecl { name, kind })
        .collect(alloc)?;
    Ok(List::from_vec(decls))
}

fn predicate_list(
    alloc: Global,
    names: Vec<Name>,
    kinds: Vec<List<u32>>,
) -> Result<List<Predicate>, Fault>
    ensures { Gives (λ decls. decls) result (Ok (predicate_list names.items kinds.items)) }
{
    let decls: Vec<Predicate> = paired(alloc, names, kinds)?
        .into_iter()
        .map(|(name, kinds)| Predicate { name, kinds })
        .collect(alloc)?;
    Ok(List::from_vec(decls))
}

fn function_list(
    alloc: Global,
    names: Vec<Name>,
    kinds: Vec<List<u32>>,
) -> Result<List<Function>, Fault>
    ensures { Gives (λ decls. decls) result (Ok (function_list names.items kinds.items)) }
{
    let decls: Vec<Function> = paired(alloc, names, kinds)?
        .into_iter()
        .map(|(name, kinds)| Function { name, kinds })
        .collect(alloc)?;
    Ok(List::from_vec(decls))
}

fn assembled(alloc: Global, name: Name, whole: State) -> Result<Domain, Fault>
    ensures { Gives (λ domain. domain) result (Ok (assembled name (part_of whole))) }
{
    let State {
        declared,
        schemas,
        ..
    } = whole;
    let Declared {
        types,
        constants,
        predicates,
        functions,
    } = declared;
    Ok(Domain {
        name,
        types: type_decls(alloc, types.names.into_vec(), types.parents.into_vec())?,
        constants: object_decls(
            alloc,
            constants.names.into_vec(),
            constants.kinds.into_vec(),
        )?,
        predicates: predicate_list(
            alloc,
            predicates.names.into_vec(),
            predicates.kinds.into_vec(),
        )?,
        schemas: List::from_vec(schemas),
        functions: function_list(
            alloc,
            functions.names.into_vec(),
            functions.kinds.into_vec(),
        )?,
    })
}

#[tactic(auto, unfolding(crate::specs::Reading::definition))]
fn definition(alloc: Global, place: Cursor<'_>) -> Result<Domain, Fault>
    ensures { Gives (λ domain. domain) result (definition (left place.entry)) }
{
    let rest = after_word("define", place)?;
    let (_, head, rest) = group_at(rest)?;
    let name = name_in(alloc, head)?;
    let whole = parts_in(alloc, rest)?;
    assembled(alloc, name, whole)
}

#[tactic(auto, unfolding(crate::specs::Reading::domain_in))]
fn domain_in(alloc: Global, place: Cursor<'_>) -> Result<Domain, Fault>
    ensures { Gives (λ domain. domain) result (domain_in (left place.entry)) }
{
    let (_, inside, rest) = group_at(place)?;
    let domain = definition(alloc, inside)?;
    nothing(rest)?;
    Ok(domain)
}

fn domain_error(fault: Fault) -> DomainError
    ensures { result ≡ domain_error fault }
{
    match fault {
        Fault::Shape(at) => DomainError::Shape(at),
        Fault::BadName(at) => DomainError::BadName(at),
        Fault::Twice(at) => DomainError::Twice(at),
        Fault::BadType(at) => DomainError::BadType(at),
        Fault::Arity(at) => DomainError::Arity(at),
        Fault::Feature(which, at) => DomainError::Feature(which, at),
        Fault::Window(at) => DomainError::Window(at),
        Fault::Duration(at) => DomainError::Duration(at),
        Fault::Limit(which, at) => DomainError::Limit(which, at),
        // No domain text names another domain.
        Fault::OtherDomain(at) => DomainError::Shape(at),
        Fault::Memory => DomainError::Memory,
    }
}

/// The domain that the text is, or its first fault from left to right.
#[tactic(auto, using(crate::proofs::ErrorLemmas::answers_of), unfolding(crate::specs::Reading::domain_of))]
pub fn read_domain(alloc: Global, forest: &Forest) -> Result<Domain, DomainError>
    // The text says so, or has this fault.
    ensures exact { Answers result (domain_of forest.now) }
    // What is read is sound: each number is in range, names of one kind are different, and no limit is passed.
    ensures sound { IfOk result IsSound }
{
    match domain_in(alloc, Cursor::new(forest)) {
        Ok(domain) => Ok(domain),
        Err(fault) => Err(domain_error(fault)),
    }
}
