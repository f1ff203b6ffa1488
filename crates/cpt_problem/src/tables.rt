//! What a domain declares, by numbers, for the reading of problems.

ghost use Rattle.std.specs.Prelude.{◌≡◌, Ok};
ghost use Rattle.cpt_pddl.specs.Faults.{Gives};
ghost use Rattle.cpt_problem.specs.Tables.{declared_of, function_kinds, function_names, object_kinds, object_names, objects_after, predicate_kinds, predicate_names, type_names, type_parents};

use cpt_declared::{Declared, Kinds, Signatures};
use cpt_domain::{Domain, Function, ObjectDecl, Predicate, TypeDecl};
use cpt_pddl::{Ancestry, Fault, Names, Typed, paired};
use cpt_task::List;
use std::alloc::Global;

fn type_names(alloc: Global, types: &[TypeDecl]) -> Result<Names, Fault>
    ensures { Gives (λ names. names) result (Ok (type_names types.now)) }
{
    let mut names = Names::new(alloc);
    for t in types {
        names.push(t.name.as_slice())?;
    }
    Ok(names)
}

fn object_names(alloc: Global, objects: &[ObjectDecl]) -> Result<Names, Fault>
    ensures { Gives (λ names. names) result (Ok (object_names objects.now)) }
{
    let mut names = Names::new(alloc);
    for o in objects {
        names.push(o.name.as_slice())?;
    }
    Ok(names)
}

fn predicate_names(alloc: Global, predicates: &[Predicate]) -> Result<Names, Fault>
    ensures { Gives (λ names. names) result (Ok (predicate_names predicates.now)) }
{
    let mut names = Names::new(alloc);
    for p in predicates {
        names.push(p.name.as_slice())?;
    }
    Ok(names)
}

fn function_names(alloc: Global, functions: &[Function]) -> Result<Names, Fault>
    ensures { Gives (λ names. names) result (Ok (function_names functions.now)) }
{
    let mut names = Names::new(alloc);
    for f in functions {
        names.push(f.name.as_slice())?;
    }
    Ok(names)
}

fn type_parents(alloc: Global, types: &[TypeDecl]) -> Result<Ancestry, Fault>
    ensures { Gives (λ parents. parents) result (Ok (type_parents types.now)) }
{
    let parents: Vec<u32> = types.iter().map(|t| t.parent).collect(alloc)?;
    Ok(Ancestry::new(parents)?)
}

fn object_kinds(alloc: Global, objects: &[ObjectDecl]) -> Result<List<u32>, Fault>
    ensures { Gives (λ kinds. kinds) result (Ok (object_kinds objects.now)) }
{
    let kinds: Vec<u32> = objects.iter().map(|o| o.kind).collect(alloc)?;
    Ok(List::from_vec(kinds))
}

fn copied(alloc: Global, kinds: &[u32]) -> Result<List<u32>, Fault>
    ensures { Gives (λ copy. copy) result (Ok kinds.now) }
{
    let mut copy = Vec::new(alloc);
    copy.extend_from_slice(kinds)?;
    Ok(List::from_vec(copy))
}

fn predicate_kinds(alloc: Global, predicates: &[Predicate]) -> Result<List<List<u32>>, Fault>
    ensures { Gives (λ kinds. kinds) result (Ok (predicate_kinds predicates.now)) }
{
    let mut kinds = Vec::new(alloc);
    for p in predicates {
        let copy = copied(alloc, p.kinds.as_slice())?;
        kinds.push(copy)?;
    }
    Ok(List::from_vec(kinds))
}

fn function_kinds(alloc: Global, functions: &[Function]) -> Result<List<List<u32>>, Fault>
    ensures { Gives (λ kinds. kinds) result (Ok (function_kinds functions.now)) }
{
    let mut kinds = Vec::new(alloc);
    for f in functions {
        let copy = copied(alloc, f.kinds.as_slice())?;
        kinds.push(copy)?;
    }
    Ok(List::from_vec(kinds))
}

/// Everything that the domain declares beside its actions.
pub fn declared_of(alloc: Global, domain: &Domain) -> Result<Declared, Fault>
    ensures { Gives (λ declared. declared) result (Ok (declared_of domain.now)) }
{
    let types = Kinds {
        names: type_names(alloc, domain.types.as_slice())?,
        parents: type_parents(alloc, domain.types.as_slice())?,
    };
    let constants = Typed {
        names: object_names(alloc, domain.constants.as_slice())?,
        kinds: object_kinds(alloc, domain.constants.as_slice())?,
    };
    let predicates = Signatures {
        names: predicate_names(alloc, domain.predicates.as_slice())?,
        kinds: predicate_kinds(alloc, domain.predicates.as_slice())?,
    };
    let functions = Signatures {
        names: function_names(alloc, domain.functions.as_slice())?,
        kinds: function_kinds(alloc, domain.functions.as_slice())?,
    };
    Ok(Declared {
        types,
        constants,
        predicates,
        functions,
    })
}

/// The objects behind so many others.
pub fn objects_after(alloc: Global, count: usize, objects: Typed) -> Result<List<ObjectDecl>, Fault>
    ensures { Gives (λ decls. decls) result (Ok (objects_after count objects)) }
{
    let Typed { names, kinds } = objects;
    let decls: Vec<ObjectDecl> = paired(alloc, names.into_vec(), kinds.into_vec())?
        .into_iter()
        .map(|(name, kind)| ObjectDecl { name, kind })
        .skip(count)
        .collect(alloc)?;
    Ok(List::from_vec(decls))
}
