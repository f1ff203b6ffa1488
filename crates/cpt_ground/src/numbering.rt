//! Numbers of literals.

ghost use Rattle.std.specs.Prelude.{◌≡◌, ◌<◌, ◌^◌, AllPairs, IfOk, length};
ghost use Rattle.std.specs.List.Sorted.{IsStrictlyIncreasing};
ghost use Rattle.cpt_ground.specs.Atoms.{facts_of};
ghost use Rattle.cpt_ground.specs.Compiled.{AreNumbers, IsFactBefore};
ghost use Rattle.cpt_ground.specs.Literals.{AreSame, AreSorted, complement_numbers, is_chosen, literals_of, plain_numbers, unheld_numbers};

use crate::atoms::{Atom, atom_of, has, in_order, is_among, push_atoms};
use crate::literals::Literals;
use cpt_facts::Fact;
use cpt_task::{Ids, Memory};
use std::alloc::Global;

fn plain_numbers(alloc: Global, literals: &Literals<'_>, facts: &[Fact]) -> Result<Vec<u32>, Memory>
    requires { AreSorted literals.now }
    ensures { IfOk result (λ numbers. numbers.items ≡ plain_numbers literals.now facts.now) }
{
    Ok(
        facts
            .iter()
            .filter_map(|fact| literals.plain_number(atom_of(fact)))
            .collect(alloc)?,
    )
}

fn complement_numbers(
    alloc: Global,
    literals: &Literals<'_>,
    facts: &[Fact],
    but: &[Fact],
) -> Result<Vec<u32>, Memory>
    requires { AreSorted literals.now }
    ensures { IfOk result (λ numbers. numbers.items ≡ complement_numbers literals.now facts.now but.now) }
{
    Ok(
        facts
            .iter()
            .filter(|fact| !has(but, atom_of(fact)))
            .filter_map(|fact| literals.complement_number(atom_of(fact)))
            .collect(alloc)?,
    )
}

/// The numbers, each once, increasing.
fn as_ids(mut numbers: Vec<u32>) -> Ids
    ensures increasing { IsStrictlyIncreasing result }
    ensures same { AreSame result numbers.items }
{
    numbers.sort_unstable();
    numbers.dedup();
    Ids::from_vec(numbers).unwrap()
}

/// The numbers of the plain atoms of one list, and of the complements of those atoms of another that a third has not.
pub fn chosen_numbers(
    alloc: Global,
    literals: &Literals<'_>,
    present: &[Fact],
    absent: &[Fact],
    but: &[Fact],
) -> Result<Ids, Memory>
    requires { AreSorted literals.now }
    ensures { IfOk result (AreNumbers (literals_of literals.now) (is_chosen present.now absent.now but.now)) }
{
    let mut numbers = plain_numbers(alloc, literals, present)?;
    numbers.extend_from_slice(&complement_numbers(alloc, literals, absent, but)?)?;
    Ok(as_ids(numbers))
}

fn unheld_numbers(
    alloc: Global,
    literals: &Literals<'_>,
    init: &[Atom<'_>],
) -> Result<Vec<u32>, Memory>
    requires sorted { AreSorted literals.now }
    requires ordered { AllPairs IsFactBefore (facts_of init.now) }
    requires few { length init.now < 2 ^ 31 }
    ensures { IfOk result (λ numbers. numbers.items ≡ unheld_numbers literals.now (facts_of init.now)) }
{
    Ok(
        literals
            .complements
            .iter()
            .filter(|atom| !is_among(init, **atom))
            .filter_map(|atom| literals.complement_number(*atom))
            .collect(alloc)?,
    )
}

/// The numbers of what holds at first: of these plain atoms, and of the complements of the other atoms.
pub fn initial_numbers(alloc: Global, literals: &Literals<'_>, init: &[Fact]) -> Result<Ids, Memory>
    requires sorted { AreSorted literals.now }
    requires few { length init.now < 2 ^ 31 }
    ensures { IfOk result (AreNumbers (literals_of literals.now) (is_chosen init.now (facts_of literals.now.complements.items) init.now)) }
{
    let mut atoms = Vec::new(alloc);
    push_atoms(&mut atoms, init)?;
    let ordered = in_order(atoms);
    let mut numbers = plain_numbers(alloc, literals, init)?;
    numbers.extend_from_slice(&unheld_numbers(alloc, literals, &ordered)?)?;
    Ok(as_ids(numbers))
}
