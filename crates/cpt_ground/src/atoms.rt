//! Ground atoms that stand elsewhere, and lists of them in order.

ghost use Rattle.std.specs.Prelude.{◌≡◌, ◌++◌, ◌<◌, ◌≤◌, ◌^◌, AllPairs, OnOk, length, vec_len};
ghost use Rattle.cpt_ground.specs.Atoms.{AreInOrder, fact_of, facts_of, place_of};
ghost use Rattle.cpt_ground.specs.Compiled.{IsFactBefore};
ghost use Rattle.cpt_ground.specs.Signed.{has};

use cpt_facts::Fact;
use cpt_task::Memory;

/// A ground atom that stands elsewhere: the predicate's number, and an object for each of its variables. Atoms are in
/// order of predicate, then of the objects.
#[derive(Clone, Copy, PartialEq, Eq, PartialOrd, Ord)]
pub struct Atom<'a> {
    pub pred: u32,
    pub args: &'a [u32],
}

/// The atom without its list of objects.
pub fn atom_of(fact: &Fact) -> Atom<'_>
    ensures { fact_of result ≡ fact.now }
{
    Atom {
        pred: fact.pred,
        args: fact.args.as_slice(),
    }
}

/// Puts the atoms behind the others.
pub fn push_atoms<'a>(atoms: &mut Vec<Atom<'a>>, facts: &'a [Fact]) -> Result<(), Memory>
    ensures { OnOk result (facts_of atoms.new.items ≡ facts_of atoms.old.items ++ facts.now) }
{
    for fact in facts {
        atoms.push(atom_of(fact))?;
    }
    Ok(())
}

/// The atoms, each once, in order.
pub fn in_order(mut atoms: Vec<Atom<'_>>) -> Vec<Atom<'_>>
    ensures sorted { AreInOrder (facts_of atoms.entry.items) (facts_of result.items) }
    ensures no_more { vec_len result ≤ vec_len atoms.entry }
{
    atoms.sort_unstable();
    atoms.dedup();
    atoms
}

/// The place of the atom among atoms in order.
pub fn place_of(atoms: &[Atom<'_>], atom: Atom<'_>) -> Option<u32>
    requires ordered { AllPairs IsFactBefore (facts_of atoms.now) }
    requires few { length atoms.now < 2 ^ 31 }
    ensures { result ≡ place_of (facts_of atoms.now) (fact_of atom.entry) }
{
    match atoms.binary_search(&atom) {
        Ok(place) => Some(place as u32),
        Err(_) => None,
    }
}

/// Whether the atom is among atoms in order.
pub fn is_among(atoms: &[Atom<'_>], atom: Atom<'_>) -> bool
    requires ordered { AllPairs IsFactBefore (facts_of atoms.now) }
    requires few { length atoms.now < 2 ^ 31 }
    ensures { result ≡ has (facts_of atoms.now) (fact_of atom.entry) }
{
    place_of(atoms, atom).is_some()
}

/// Whether the atom is in the list.
pub fn has(facts: &[Fact], atom: Atom<'_>) -> bool
    ensures { result ≡ has facts.now (fact_of atom.entry) }
{
    facts.iter().any(|fact| atom == atom_of(fact))
}
