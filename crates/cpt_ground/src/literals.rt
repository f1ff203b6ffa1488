//! The literals of a task: its plain atoms, and the complements of atoms that something needs absent.

ghost use Rattle.std.specs.Prelude.{◌≡◌, ◌+◌, ◌++◌, ◌<◌, ◌^◌, IfOk, OnOk, length};
ghost use Rattle.cpt_ground.specs.Atoms.{AreInOrder, fact_of, facts_of};
ghost use Rattle.cpt_ground.specs.Literals.{AreSorted, absent_atoms, complement_number, plain_atoms, plain_number, plain_of};

use crate::atoms::{Atom, in_order, place_of, push_atoms};
use crate::signed::{Signed, SignedAction};
use cpt_task::Memory;
use std::alloc::Global;

/// The plain atoms and the complements of a task, each in order. The complements are numbered behind the plain atoms.
#[derive(Drop)]
pub struct Literals<'a> {
    pub plain: Vec<Atom<'a>>,
    pub complements: Vec<Atom<'a>>,
}

fn push_plain<'a>(atoms: &mut Vec<Atom<'a>>, action: &'a SignedAction) -> Result<(), Memory>
    ensures { OnOk result (facts_of atoms.new.items ≡ facts_of atoms.old.items ++ plain_of action.now) }
{
    push_atoms(atoms, action.present.as_slice())?;
    push_atoms(atoms, action.add.as_slice())?;
    push_atoms(atoms, action.dele.as_slice())
}

fn plain_atoms(alloc: Global, signed: &Signed) -> Result<Vec<Atom<'_>>, Memory>
    ensures { IfOk result (λ atoms. facts_of atoms.items ≡ plain_atoms signed.now) }
{
    let mut atoms = Vec::new(alloc);
    push_atoms(&mut atoms, signed.init.as_slice())?;
    push_atoms(&mut atoms, signed.goal.as_slice())?;
    for action in signed.actions.as_slice() {
        push_plain(&mut atoms, action)?;
    }
    Ok(atoms)
}

fn absent_atoms(alloc: Global, signed: &Signed) -> Result<Vec<Atom<'_>>, Memory>
    ensures { IfOk result (λ atoms. facts_of atoms.items ≡ absent_atoms signed.now) }
{
    let mut atoms = Vec::new(alloc);
    push_atoms(&mut atoms, signed.absent.as_slice())?;
    for action in signed.actions.as_slice() {
        push_atoms(&mut atoms, action.absent.as_slice())?;
    }
    Ok(atoms)
}

impl<'a> Literals<'a> {
    /// The literals that the task uses.
    pub fn of(alloc: Global, signed: &'a Signed) -> Result<Literals<'a>, Memory>
        requires { length (plain_atoms signed.now) + length (absent_atoms signed.now) < 2 ^ 31 }
        ensures plain { IfOk result (λ literals. AreInOrder (plain_atoms signed.now) (facts_of literals.plain.items)) }
        ensures complements { IfOk result (λ literals. AreInOrder (absent_atoms signed.now) (facts_of literals.complements.items)) }
        ensures sorted { IfOk result (λ literals. AreSorted literals) }
    {
        Ok(Literals {
            plain: in_order(plain_atoms(alloc, signed)?),
            complements: in_order(absent_atoms(alloc, signed)?),
        })
    }

    /// The number of a plain atom.
    pub fn plain_number(&self, atom: Atom<'_>) -> Option<u32>
        requires { AreSorted self.now }
        ensures { result ≡ plain_number self.now (fact_of atom.entry) }
    {
        place_of(&self.plain, atom)
    }

    /// The number of the complement of an atom.
    pub fn complement_number(&self, atom: Atom<'_>) -> Option<u32>
        requires { AreSorted self.now }
        ensures { result ≡ complement_number self.now (fact_of atom.entry) }
    {
        let place = place_of(&self.complements, atom)?;
        Some(self.plain.len() as u32 + place)
    }
}
