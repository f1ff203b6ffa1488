//! A `Vec` that contracts see as the list of its elements.

ghost use Rattle.std.specs.Prelude.{◌≡◌, ◌<◌, ◌≤◌, length, slice_get, slice_set, insert, remove, OnOk, OnErr};

use crate::memory::Memory;
use std::alloc::Global;
use std::marker::Model;

/// A list of items. It keeps its allocator.
#[derive(Debug, Drop)]
pub struct List<T> {
    items: Vec<T>,
}

/// A name, by its bytes.
pub type Name = List<u8>;

impl<T> Model for List<T> {
    ghost use Rattle.std.specs.Prelude.{List};
    ghost use Rattle.std.specs.Coded.{coded_list};

    ghost Value = { List T };

    ghost coded = { coded_list T.code };

    ghost view = { λ a. a.items.items };
}

impl<T> List<T> {
    ghost use Rattle.std.specs.Borrow.{Lends, sem};
    ghost use Rattle.cpt_task.specs.contracts.list.List.{the_row};

    /// Lends the item at the place alone.
    pub fn get_mut(&mut self, place: usize) -> &mut T
        requires { place < length self.old }
        ensures* lends { sem 𝓛 (Lends (the_row T.row) T.row self.entry result (λ w. slice_set self.entry.now place w)) }
        ensures item { slice_get self.old place ≡ Some result.now }
    {
        &mut self.items[place]
    }

    /// The list of these items. It takes no memory.
    pub fn from_vec(v: Vec<T>) -> List<T>
        ensures { result ≡ v.items }
    {
        List { items: v }
    }

    /// The items.
    pub fn as_slice(&self) -> &[T]
        ensures { result.now ≡ self.now }
    {
        self.items.as_slice()
    }

    /// Gives the items back. It takes no memory.
    pub fn into_vec(self) -> Vec<T>
        ensures { result.items ≡ self }
    {
        let List { items } = self;
        items
    }

    /// The allocator that the list was made with.
    pub fn allocator(&self) -> Global {
        *self.items.allocator()
    }

    /// Takes the item at the place out, and closes up.
    pub fn remove(&mut self, place: usize) -> T
        requires { place < length self.old }
        ensures item { slice_get self.old place ≡ Some result }
        ensures rest { self.new ≡ remove self.old place }
    {
        self.items.remove(place)
    }
}

impl<T: Drop> List<T> {
    /// Puts the item in at the place. After `Memory` the list is unchanged.
    pub fn insert(&mut self, place: usize, item: T) -> Result<(), Memory>
        requires { place ≤ length self.old }
        ensures ok { OnOk result (self.new ≡ insert self.old place item) }
        ensures err { OnErr result (self.new ≡ self.old) }
    {
        self.items.insert(place, item)?;
        Ok(())
    }
}
