//! Lists of names.

ghost use Rattle.std.specs.Prelude.{◌≡◌, ◌<◌, ◌^◌, ◌++◌, ◌∷◌, [], IfOk, IsSome, None, OnOk, OnErr, length};
ghost use Rattle.cpt_pddl.specs.Names.{AreFirsts, place_in};

use cpt_task::{List, Memory, Name};
use indexmap::IndexMap;
use std::alloc::Global;
use std::marker::Model;

/// Names in the order in which they were declared, fewer than 2^32.
pub struct Names {
    items: Vec<Name>,
    /// The first place of each name.
    index: IndexMap<Vec<u8>, u32>,
    ghost few: { length items.items < 2 ^ 32 },
    ghost firsts: { AreFirsts items.items index.entries },
}

impl Drop for Names {
    fn drop(self) {
        let Names {
            items: _items,
            index: _index,
        } = self;
    }
}

impl Model for Names {
    ghost use Rattle.std.specs.Prelude.{ℕ, List};
    ghost use Rattle.std.specs.Coded.{coded_list, coded_ℕ};

    ghost Value = { List (List ℕ) };

    ghost coded = { coded_list (coded_list coded_ℕ) };

    ghost view = { λ a. a.items.items };
}

fn copied(alloc: Global, word: &[u8]) -> Result<Vec<u8>, Memory>
    ensures { IfOk result (λ copy. copy.items ≡ word.now) }
{
    let mut bytes = Vec::new(alloc);
    bytes.extend_from_slice(word)?;
    Ok(bytes)
}

/// Adds a name that is not there yet, with its place. After `Memory` the names are unchanged.
fn add_first(
    items: &mut Vec<Name>,
    index: &mut IndexMap<Vec<u8>, u32>,
    name: Name,
    key: Vec<u8>,
) -> Result<(), Memory>
    requires few { length items.old.items < 4294967295 }
    requires key { key.items ≡ name }
    requires new { place_in items.old.items name ≡ None }
    requires firsts { AreFirsts items.old.items index.old.entries }
    ensures ok { OnOk result (items.new.items ≡ items.old.items ++ name ∷ []) }
    ensures err { OnErr result (items.new.items ≡ items.old.items) }
    ensures firsts { AreFirsts items.new.items index.new.entries }
{
    let place = items.len();
    items.push(name)?;
    match index.insert(key, place as u32) {
        Ok(_) => Ok(()),
        Err(_) => {
            items.truncate(place);
            Err(Memory)
        }
    }
}

/// Adds a name that is there already. After `Memory` the names are unchanged.
fn add_again(
    items: &mut Vec<Name>,
    index: &IndexMap<Vec<u8>, u32>,
    name: Name,
) -> Result<(), Memory>
    requires there { IsSome (place_in items.old.items name) }
    requires firsts { AreFirsts items.old.items index.now.entries }
    ensures ok { OnOk result (items.new.items ≡ items.old.items ++ name ∷ []) }
    ensures err { OnErr result (items.new.items ≡ items.old.items) }
    ensures firsts { AreFirsts items.new.items index.now.entries }
{
    items.push(name)?;
    Ok(())
}

impl Names {
    /// No names.
    pub fn new(alloc: Global) -> Names
        ensures { result ≡ [] }
    {
        Names {
            items: Vec::new(alloc),
            index: IndexMap::new(alloc),
        }
    }

    /// The names.
    pub fn as_slice(&self) -> &[Name]
        ensures value { result.now ≡ self.now }
        ensures few { length self.now < 2 ^ 32 }
    {
        self.items.as_slice()
    }

    /// The number of the word among the names, from 0.
    pub fn find(&self, word: &[u8]) -> Option<u32>
        ensures { result ≡ place_in self.now word.now }
    {
        self.index.get(word).copied()
    }

    /// How many names there are.
    pub fn len(&self) -> u32
        ensures { result ≡ length self.now }
    {
        self.items.len() as u32
    }

    /// Adds a name at the end. After `Memory` the names are unchanged.
    pub fn push(&mut self, word: &[u8]) -> Result<(), Memory>
        ensures ok { OnOk result (self.new ≡ self.old ++ word.now ∷ []) }
        ensures err { OnErr result (self.new ≡ self.old) }
    {
        if self.items.len() >= 4_294_967_295 {
            return Err(Memory);
        }
        let alloc = *self.items.allocator();
        let name = List::from_vec(copied(alloc, word)?);
        if self.find(word).is_some() {
            return add_again(&mut self.items, &self.index, name);
        }
        let key = copied(alloc, word)?;
        add_first(&mut self.items, &mut self.index, name, key)
    }

    /// The names, given back.
    pub fn into_vec(self) -> Vec<Name>
        ensures { result.items ≡ self }
    {
        let Names {
            items,
            index: _index,
        } = self;
        items
    }
}
