//! Names of literals.

ghost use Rattle.std.specs.Prelude.{◌≡◌, ◌++◌, ◌<◌, All, IfOk, length, map};
ghost use Rattle.cpt_facts.specs.Fitting.{FactFits, predicate_at};
ghost use Rattle.cpt_ground.specs.Atoms.{fact_of, facts_of};
ghost use Rattle.cpt_ground.specs.Compiled.{literal_name};
ghost use Rattle.cpt_ground.specs.Literals.{literals_of, name_with};

use crate::atoms::Atom;
use crate::literals::Literals;
use crate::object_names::push_names;
use cpt_domain::Domain;
use cpt_facts::Problem;
use cpt_task::{List, Memory, Name};
use std::alloc::Global;

fn predicate_name(domain: &Domain, pred: u32) -> &[u8]
    requires { pred < length domain.now.predicates }
    ensures { result.now ≡ (predicate_at domain.now pred).name }
{
    domain.predicates.as_slice()[pred as usize].name.as_slice()
}

/// The front, and then the atom's names and a closing parenthesis.
fn name_with(
    alloc: Global,
    domain: &Domain,
    problem: &Problem,
    front: &[u8],
    atom: Atom<'_>,
) -> Result<Name, Memory>
    requires { FactFits domain.now problem.now (fact_of atom) }
    ensures { IfOk result (λ name. name ≡ name_with domain.now problem.now front.now (fact_of atom.entry)) }
{
    let mut text = Vec::new(alloc);
    text.extend_from_slice(front)?;
    text.extend_from_slice(predicate_name(domain, atom.pred))?;
    push_names(domain, problem, atom.args, &mut text)?;
    text.push(b')')?;
    Ok(List::from_vec(text))
}

fn names_with(
    alloc: Global,
    domain: &Domain,
    problem: &Problem,
    front: &[u8],
    atoms: &[Atom<'_>],
) -> Result<Vec<Name>, Memory>
    requires { All (FactFits domain.now problem.now) (facts_of atoms.now) }
    ensures { IfOk result (λ names. names.items ≡ map (name_with domain.now problem.now front.now) (facts_of atoms.now)) }
{
    let mut names = Vec::new(alloc);
    for atom in atoms {
        names.push(name_with(alloc, domain, problem, front, *atom)?)?;
    }
    Ok(names)
}

/// The names of the literals, by number: `(pred object ..)`, and `(not pred object ..)` for a complement.
pub fn literal_names(
    alloc: Global,
    domain: &Domain,
    problem: &Problem,
    literals: &Literals<'_>,
) -> Result<Vec<Name>, Memory>
    requires plain { All (FactFits domain.now problem.now) (facts_of literals.now.plain.items) }
    requires complements { All (FactFits domain.now problem.now) (facts_of literals.now.complements.items) }
    ensures { IfOk result (λ names. names.items ≡ map (literal_name domain.now problem.now) (literals_of literals.now)) }
{
    let mut names = names_with(alloc, domain, problem, b"(", &literals.plain)?;
    let mut more = names_with(alloc, domain, problem, b"(not ", &literals.complements)?;
    names.append(&mut more)?;
    Ok(names)
}
