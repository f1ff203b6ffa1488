//! Values of functions, found by their functions and objects.

ghost use Rattle.std.specs.Prelude.{◌≡◌, ◌∷◌, ◌++◌, [], IfOk, Ok};
ghost use Rattle.cpt_pddl.specs.Faults.{Gives};
ghost use Rattle.cpt_problem.specs.Inits.{has_value};
ghost use Rattle.cpt_problem.specs.Keys.{AreKeysOf};

use cpt_facts::Valued;
use cpt_pddl::Fault;
use indexmap::IndexSet;
use std::alloc::Global;

/// Values in the order of the text.
#[derive(Drop)]
pub struct Values {
    pub items: Vec<Valued>,
    /// The function of each value, and then its objects.
    known: IndexSet<Vec<u32>>,
    ghost keys: { AreKeysOf items.items known.keys },
}

/// A function's number, and then its objects.
fn key_of(alloc: Global, func: u32, args: &[u32]) -> Result<Vec<u32>, Fault>
    ensures { Gives (λ key. key.items) result (Ok (func ∷ args.now)) }
{
    let mut key = Vec::new(alloc);
    key.push(func)?;
    key.extend_from_slice(args)?;
    Ok(key)
}

fn add(
    items: &mut Vec<Valued>,
    known: &mut IndexSet<Vec<u32>>,
    key: Vec<u32>,
    value: Valued,
) -> Result<(), Fault>
    requires keys { AreKeysOf items.old.items known.old.keys }
    requires key { key.items ≡ value.func ∷ value.args }
    ensures added { Gives (λ _. items.new.items) result (Ok (items.old.items ++ value ∷ [])) }
    ensures keys { AreKeysOf items.new.items known.new.keys }
{
    let count = items.len();
    items.push(value)?;
    match known.insert(key) {
        Ok(_) => Ok(()),
        Err(_) => {
            items.truncate(count);
            Err(Fault::Memory)
        }
    }
}

impl Values {
    /// No values.
    pub fn new(alloc: Global) -> Values
        ensures { result.items.items ≡ [] }
    {
        Values {
            items: Vec::new(alloc),
            known: IndexSet::new(alloc),
        }
    }

    /// Whether the function has a value for these objects.
    pub fn has(&self, alloc: Global, func: u32, args: &[u32]) -> Result<bool, Fault>
        ensures { Gives (λ found. found) result (Ok (has_value self.now.items.items func args.now)) }
    {
        let key = key_of(alloc, func, args)?;
        Ok(self.known.contains(key.as_slice()))
    }

    /// Adds a value at the end.
    pub fn push(&mut self, alloc: Global, value: Valued) -> Result<(), Fault>
        ensures { Gives (λ _. self.new.items.items) result (Ok (self.old.items.items ++ value ∷ [])) }
    {
        let key = key_of(alloc, value.func, value.args.as_slice())?;
        add(&mut self.items, &mut self.known, key, value)
    }

    /// The values, given back.
    pub fn into_vec(self) -> Vec<Valued>
        ensures { result.items ≡ self.items.items }
    {
        let Values { items, .. } = self;
        items
    }
}
